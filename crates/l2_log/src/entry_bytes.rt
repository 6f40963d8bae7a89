//! The bytes of an entry, read and written.
ghost use Rattle.std.specs.Prelude.{◌≡◌, ◌+◌, ◌≤◌, ◌↔◌, false, length, MatchResult, IsTrue};
ghost use Rattle.l2_log.specs.Bytes.{AreZero, IsKeptOutside, IsZeroIn};
ghost use Rattle.l2_log.specs.Rules.{entry_len, fields_len, is_there, IsEntrySize};
ghost use Rattle.l2_log.specs.Places.{IsFieldFault};
ghost use Rattle.l2_log.specs.EntryBytes.{IsEntry, IsDigestIfAny, EntryRule};

use crate::entry::{LARGEST_OLD_BLOCK, LogEntry};
use crate::fault::LogFault;
use crate::words::{check_zeros, put_digest, put_word, read_digest, word_at};
use blk_ptr::{Digest, Key, SECTOR, is_block_size};

/// Whether an entry, with a digest or without, may tell of a block of this size.
fn is_entry_size(digests: bool, size: u64) -> bool
    ensures { IsTrue result ↔ IsEntrySize digests size }
{
    is_block_size(size) && (digests || size <= LARGEST_OLD_BLOCK)
}

/// The digest in the 32 bytes from place `at`, where entries have one.
fn digest_at(bytes: &[u8], at: usize, digests: bool) -> Option<Digest>
    requires { at + 32 ≤ length bytes.now }
    ensures digest { IsDigestIfAny bytes.now at result }
    ensures there { is_there result ≡ digests }
{
    if digests {
        Some(read_digest(bytes, at))
    } else {
        None
    }
}

/// Refuses the first byte behind the fields of the entry that begins at place `at` that is not zero.
fn check_pad(bytes: &[u8], at: usize, digests: bool) -> Result<(), LogFault>
    requires inside { at + entry_len digests ≤ length bytes.now }
    requires short { length bytes.now ≤ 65536 }
    ensures { MatchResult result
        (λ _. AreZero (at + fields_len digests) (at + entry_len digests) bytes.now)
        (λ fault. IsFieldFault (at + fields_len digests) (at + entry_len digests) (IsZeroIn (at + fields_len digests) (at + entry_len digests) bytes.now) fault) }
{
    if digests {
        check_zeros(bytes, at + 64, at + 96)
    } else {
        check_zeros(bytes, at + 32, at + 64)
    }
}

/// Reads the entry, with its digest or without, whose bytes begin at place `at`.
pub(crate) fn entry_at(bytes: &[u8], at: usize, digests: bool) -> Result<LogEntry, LogFault>
    requires inside { at + entry_len digests ≤ length bytes.now }
    requires short { length bytes.now ≤ 65536 }
    ensures { MatchResult result
        (λ entry. IsEntry digests bytes.now at entry × (is_there entry.digest ≡ digests))
        (λ fault. IsFieldFault at (at + entry_len digests) (EntryRule digests bytes.now at) fault) }
{
    let place_in_block = at as u32;
    let offset = word_at(bytes, at);
    if !offset.is_multiple_of(SECTOR) {
        return Err(LogFault::Field { at: place_in_block });
    }
    let size = word_at(bytes, at + 8);
    if !is_entry_size(digests, size) {
        return Err(LogFault::Field {
            at: place_in_block + 8,
        });
    }
    let birth = word_at(bytes, at + 16);
    if birth == 0 {
        return Err(LogFault::Field {
            at: place_in_block + 16,
        });
    }
    let place = word_at(bytes, at + 24);
    if !place.is_multiple_of(SECTOR) {
        return Err(LogFault::Field {
            at: place_in_block + 24,
        });
    }
    check_pad(bytes, at, digests)?;
    let key = Key {
        offset,
        size,
        birth,
    };
    Ok(LogEntry {
        key,
        place,
        digest: digest_at(bytes, at + 32, digests),
    })
}

/// Writes the digest, where there is one, to the 32 bytes from place `at`.
fn put_digest_if_any(out: &mut [u8], at: usize, digest: Option<Digest>)
    requires { at + 32 ≤ length out.old }
    ensures digest { IsDigestIfAny out.new at digest }
    ensures kept { IsKeptOutside at (at + 32) out.old out.new }
    ensures none { is_there digest ≡ false → out.new ≡ out.old }
{
    if let Some(digest) = digest {
        put_digest(out, at, digest);
    }
}

/// Writes the entry to the bytes from place `at`, which are zero.
pub(crate) fn put_entry(out: &mut [u8], at: usize, entry: &LogEntry)
    requires inside { at + entry_len (is_there entry.now.digest) ≤ length out.old }
    requires zero { AreZero at (at + entry_len (is_there entry.now.digest)) out.old }
    ensures entry { IsEntry (is_there entry.now.digest) out.new at entry.now }
    ensures kept { IsKeptOutside at (at + entry_len (is_there entry.now.digest)) out.old out.new }
{
    put_word(out, at, entry.key.offset);
    put_word(out, at + 8, entry.key.size);
    put_word(out, at + 16, entry.key.birth);
    put_word(out, at + 24, entry.place);
    put_digest_if_any(out, at + 32, entry.digest);
}
