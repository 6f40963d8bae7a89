//! The tests of a header's bytes, in the order in which faults are told.
ghost use Rattle.std.specs.Prelude.{◌≡◌, ℕ, ◌≤◌, length, ◌↔◌, IsTrue, MatchResult};
ghost use Rattle.l2_log.specs.Rules.{header_len, IsRingPlace};
ghost use Rattle.l2_log.specs.Places.{IsFieldFault};
ghost use Rattle.l2_log.specs.HeaderBytes.{IsHeaderFront, IsSealed, IsFirstRefusal, NumberRule};

use crate::fault::LogFault;
use crate::header::{HEADER_LEN, LEAST_RING_END, MAGIC, OLD_VERSION, RING_START, VERSION};
use crate::log_block::most_of;
use crate::words::{digest_before, is_same, read_digest, word_at};
use blk_ptr::SECTOR;

/// Refuses bytes that are no header by their length, magic, version or digest.
pub(crate) fn check_front(bytes: &[u8]) -> Result<(), LogFault>
    ensures { MatchResult result
        (λ _. IsHeaderFront bytes.now × IsSealed bytes.now)
        (λ fault. IsFirstRefusal bytes.now fault) }
{
    if bytes.len() != HEADER_LEN {
        let len = bytes.len() as u64;
        return Err(LogFault::Length { len });
    }
    if word_at(bytes, 0) != MAGIC {
        return Err(LogFault::Magic);
    }
    let version = word_at(bytes, 8);
    if version != OLD_VERSION && version != VERSION {
        return Err(LogFault::Version);
    }
    let kept = read_digest(bytes, 480);
    let found = digest_before(bytes, 480);
    if !is_same(kept, found) {
        return Err(LogFault::Digest { kept, found });
    }
    Ok(())
}

/// Whether the ring with this end has this place.
fn is_ring_place(end: u64, place: u64) -> bool
    ensures { IsTrue result ↔ IsRingPlace end place }
{
    place.is_multiple_of(SECTOR) && (RING_START..=end).contains(&place)
}

/// Refuses the first number of a header that breaks its rule.
pub(crate) fn check_numbers(bytes: &[u8]) -> Result<(), LogFault>
    requires { length bytes.now ≡ header_len }
    ensures { MatchResult result
        (λ _. (k : ℕ) → NumberRule bytes.now k)
        (λ fault. IsFieldFault 16 72 (NumberRule bytes.now) fault) }
{
    let end = word_at(bytes, 24);
    let hand = word_at(bytes, 32);
    let evict = word_at(bytes, 40);
    if word_at(bytes, 16) != RING_START {
        return Err(LogFault::Field { at: 16 });
    }
    if !end.is_multiple_of(SECTOR) || end < LEAST_RING_END {
        return Err(LogFault::Field { at: 24 });
    }
    if !is_ring_place(end, hand) {
        return Err(LogFault::Field { at: 32 });
    }
    if !is_ring_place(end, evict) || evict < hand {
        return Err(LogFault::Field { at: 40 });
    }
    if !is_ring_place(end, word_at(bytes, 48)) {
        return Err(LogFault::Field { at: 48 });
    }
    if word_at(bytes, 56) == 0 {
        return Err(LogFault::Field { at: 56 });
    }
    if word_at(bytes, 64) != most_of(word_at(bytes, 8) == VERSION) {
        return Err(LogFault::Field { at: 64 });
    }
    Ok(())
}
