//! The bytes of a pointer to a log block, read and written.
ghost use Rattle.std.specs.Prelude.{◌+◌, ◌≤◌, length, MatchResult};
ghost use Rattle.l2_log.specs.Bytes.{AreZero, IsKeptOutside};
ghost use Rattle.l2_log.specs.Places.{IsFieldFault};
ghost use Rattle.l2_log.specs.PointerBytes.{IsPointerOrNone, PointerRule};

use crate::fault::LogFault;
use crate::log_block::{LOG_LEN, MOST_OLD_ENTRIES};
use crate::pointer::LogPtr;
use crate::words::{check_zeros, is_zero, put_digest, put_word, read_digest, word_at};

/// Reads the pointer whose 64 bytes begin at place `at`, or none where they are all zero.
pub(crate) fn pointer_at(bytes: &[u8], at: usize) -> Result<Option<LogPtr>, LogFault>
    requires inside { at + 64 ≤ length bytes.now }
    requires short { length bytes.now ≤ 65536 }
    ensures { MatchResult result
        (λ ptr. IsPointerOrNone bytes.now at ptr)
        (λ fault. IsFieldFault at (at + 64) (PointerRule bytes.now at) fault) }
{
    if is_zero(bytes, at, at + 64) {
        return Ok(None);
    }
    if word_at(bytes, at + 8) != LOG_LEN as u64 {
        return Err(LogFault::Field { at: at as u32 + 8 });
    }
    let count = word_at(bytes, at + 16);
    if !(1..=MOST_OLD_ENTRIES as u64).contains(&count) {
        return Err(LogFault::Field { at: at as u32 + 16 });
    }
    check_zeros(bytes, at + 24, at + 32)?;
    Ok(Some(LogPtr {
        place: word_at(bytes, at),
        count,
        digest: read_digest(bytes, at + 32),
    }))
}

/// Writes the pointer to the 64 bytes from place `at`, which are zero.
pub(crate) fn put_pointer(out: &mut [u8], at: usize, ptr: Option<LogPtr>)
    requires inside { at + 64 ≤ length out.old }
    requires zero { AreZero at (at + 64) out.old }
    ensures ptr { IsPointerOrNone out.new at ptr }
    ensures kept { IsKeptOutside at (at + 64) out.old out.new }
{
    if let Some(ptr) = ptr {
        put_word(out, at, ptr.place);
        put_word(out, at + 8, LOG_LEN as u64);
        put_word(out, at + 16, ptr.count);
        put_digest(out, at + 32, ptr.digest);
    }
}
