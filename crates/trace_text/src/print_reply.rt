//! Appends a reply to a report's text. A read's is written piece by piece, since a report has up to a million of them.
ghost use Rattle.std.specs.Prelude.{◌≡◌, ◌++◌, ◌≤◌, OnOk, codes, length};
ghost use Rattle.hex.specs.Hex.{encode_lower};
ghost use Rattle.dbuf_state.specs.Windows.{shown_text};
ghost use Rattle.trace_text.specs.ReportText.{reply_text};
ghost use Rattle.trace_text.specs.ReportWords.{served_word};

use crate::reply::Reply;
use crate::shown_bytes::ShownBytes;
use arc_core::Served;
use blk_ptr::Digest;
use std::alloc::AllocError;

/// Appends what a reply's line says behind the operation's number.
pub(crate) fn write_reply(text: &mut Vec<u8>, reply: &Reply) -> Result<(), AllocError>
    ensures { OnOk result (text.new.items ≡ text.old.items ++ reply_text reply.now) }
{
    match reply {
        Reply::Read {
            served,
            digest,
            shown,
        } => {
            text.extend_from_slice(read_words(*served))?;
            write_digest(text, *digest)?;
            text.push(b' ')?;
            write_shown(text, shown)
        }
        other => write_rare(text, other),
    }
}

/// Appends what the line of a reply says that isn't a read's.
fn write_rare(text: &mut Vec<u8>, reply: &Reply) -> Result<(), AllocError>
    ensures { OnOk result (text.new.items ≡ text.old.items ++ reply_text reply.now) }
{
    let alloc = *text.allocator();
    let words = format!(in alloc; "{reply}")?;
    text.extend_from_slice(words.as_bytes())
}

/// What stands before the digest of a read.
fn read_words(served: Served) -> &'static [u8]
    ensures { result.now ≡ codes "ok " ++ served_word served ++ codes " " }
{
    match served {
        Served::Hit => b"ok hit ",
        Served::Pool => b"ok pool ",
        Served::L2 => b"ok l2 ",
        Served::Past => b"ok past ",
    }
}

/// Appends a digest as lower-case hex.
fn write_digest(text: &mut Vec<u8>, digest: Digest) -> Result<(), AllocError>
    ensures { OnOk result (text.new.items ≡ text.old.items ++ encode_lower digest.0) }
{
    write_hex(text, &digest.0)
}

/// Appends the bytes that are shown.
fn write_shown(text: &mut Vec<u8>, shown: &ShownBytes) -> Result<(), AllocError>
    ensures { OnOk result (text.new.items ≡ text.old.items ++ shown_text shown.now) }
{
    let bytes = shown.bytes();
    if bytes.is_empty() {
        text.push(b'-')?;
        return Ok(());
    }
    write_hex(text, bytes)
}

/// Appends at most 64 bytes as lower-case hex.
fn write_hex(text: &mut Vec<u8>, bytes: &[u8]) -> Result<(), AllocError>
    requires { length bytes.now ≤ 64 }
    ensures { OnOk result (text.new.items ≡ text.old.items ++ encode_lower bytes.now) }
{
    let mut digits = [0u8; 128];
    let digits = &mut digits[..2 * bytes.len()];
    let Ok(()) = hex::encode_to_slice(bytes, digits) else {
        unreachable!();
    };
    text.extend_from_slice(digits)
}
