//! A line of a text, and how it is shown.
ghost use Rattle.std.specs.Prelude.{◌≡◌, ◌++◌, ◌∷◌, [], OnOk};
ghost use Rattle.hex.specs.Hex.{encode_lower};
ghost use Rattle.arc_lint.specs.Shown.{line_in, shown, shown_byte, shown_bytes};

use memchr::memchr;
use std::alloc::AllocError;

/// The most bytes of a line that are shown.
const MOST_SHOWN: usize = 200;

/// The line of this number, counted from 1, without its newline. Where there are not so many it is empty.
pub(crate) fn line_of(text: &[u8], number: u32) -> &[u8]
    ensures { result.now ≡ line_in text.now number }
{
    let mut at = 0;
    for _ in 1..number {
        match memchr(b'\n', &text[at..]) {
            Some(place) => at += place + 1,
            None => return &[],
        }
    }
    first_line(&text[at..])
}

/// The first line of a text, without its newline.
fn first_line(text: &[u8]) -> &[u8]
    ensures { result.now ≡ line_in text.now 1 }
{
    match memchr(b'\n', text) {
        Some(place) => &text[..place],
        None => text,
    }
}

/// Appends what is shown of a line: at most 200 bytes of it.
#[tactic(auto, using(std::proofs::lemmas::List::take_min))]
pub(crate) fn write_shown(out: &mut Vec<u8>, line: &[u8]) -> Result<(), AllocError>
    ensures { OnOk result (out.new.items ≡ out.old.items ++ shown line.now) }
{
    write_bytes(out, &line[..MOST_SHOWN.min(line.len())])
}

/// Appends bytes, each as it is shown.
fn write_bytes(out: &mut Vec<u8>, bytes: &[u8]) -> Result<(), AllocError>
    ensures { OnOk result (out.new.items ≡ out.old.items ++ shown_bytes bytes.now) }
{
    for byte in bytes {
        write_byte(out, *byte)?;
    }
    Ok(())
}

/// Appends a byte: as it is where it can be printed and is no backslash, and else as `\x` with two hexadecimal digits.
fn write_byte(out: &mut Vec<u8>, byte: u8) -> Result<(), AllocError>
    ensures { OnOk result (out.new.items ≡ out.old.items ++ shown_byte byte) }
{
    if b' ' <= byte && byte <= b'~' && byte != b'\\' {
        out.push(byte)?;
        return Ok(());
    }
    out.extend_from_slice(b"\\x")?;
    write_hex(out, byte)
}

/// Appends the two hexadecimal digits of a byte.
fn write_hex(out: &mut Vec<u8>, byte: u8) -> Result<(), AllocError>
    ensures { OnOk result (out.new.items ≡ out.old.items ++ encode_lower (byte ∷ [])) }
{
    let mut digits = [0u8; 2];
    let Ok(()) = hex::encode_to_slice([byte], &mut digits) else {
        unreachable!();
    };
    out.extend_from_slice(&digits)
}
