//! Numbers and zeros at places of a list of bytes.
ghost use Rattle.std.specs.Prelude.{◌≡◌, ℕ, ◌+◌, ◌*◌, ◌<◌, ◌≤◌, ◌↔◌, length, take, drop, slice_index, IsTrue, MatchResult};
ghost use Rattle.blk_ptr.specs.Ptr.{sha256_of};
ghost use Rattle.l2_log.specs.Bytes.{word, AreBytes, AreZero, IsZeroIn, IsKeptOutside, digest_at};
ghost use Rattle.l2_log.specs.Places.{IsFieldFault};

use crate::fault::LogFault;
use blk_ptr::{Digest, digest_of};
use byteorder::{ByteOrder, LittleEndian};

/// The number in the eight bytes from place `at`, the lowest byte first.
pub(crate) fn word_at(bytes: &[u8], at: usize) -> u64
    requires { at + 8 ≤ length bytes.now }
    ensures { result ≡ word bytes.now at }
{
    let (_, rest) = bytes.split_at(at);
    LittleEndian::read_u64(rest)
}

/// The digest in the 32 bytes from place `at`.
pub(crate) fn read_digest(bytes: &[u8], at: usize) -> Digest
    requires { at + 32 ≤ length bytes.now }
    ensures { result ≡ digest_at bytes.now at }
{
    let mut digest = [0; 32];
    digest.copy_from_slice(&bytes[at..at + 32]);
    Digest(digest)
}

/// The digest of the first `end` bytes.
pub(crate) fn digest_before(bytes: &[u8], end: usize) -> Digest
    requires { end ≤ length bytes.now }
    ensures { result ≡ sha256_of (take end bytes.now) }
{
    let (front, _) = bytes.split_at(end);
    digest_of(front)
}

/// Whether the digests are the same.
pub(crate) fn is_same(a: Digest, b: Digest) -> bool
    ensures { IsTrue result ↔ a ≡ b }
{
    a == b
}

/// Whether each byte from `from` to below `to` is zero.
pub(crate) fn is_zero(bytes: &[u8], from: usize, to: usize) -> bool
    requires order { from ≤ to }
    requires inside { to ≤ length bytes.now }
    ensures { IsTrue result ↔ AreZero from to bytes.now }
{
    for i in from..to {
        if bytes[i] != 0 {
            return false;
        }
    }
    true
}

/// Refuses the first byte from `from` to below `to` that is not zero.
pub(crate) fn check_zeros(bytes: &[u8], from: usize, to: usize) -> Result<(), LogFault>
    requires order { from ≤ to }
    requires inside { to ≤ length bytes.now }
    requires short { length bytes.now ≤ 65536 }
    ensures { MatchResult result
        (λ _. AreZero from to bytes.now)
        (λ fault. IsFieldFault from to (IsZeroIn from to bytes.now) fault) }
{
    for i in from..to {
        if bytes[i] != 0 {
            return Err(LogFault::Field { at: i as u32 });
        }
    }
    Ok(())
}

/// Writes the bytes from place `at` on.
fn put_bytes(out: &mut [u8], at: usize, bytes: &[u8])
    requires { at + length bytes.now ≤ length out.old }
    ensures there { take (length bytes.now) (drop at out.new) ≡ bytes.now }
    ensures kept { IsKeptOutside at (at + length bytes.now) out.old out.new }
{
    out[at..at + bytes.len()].copy_from_slice(bytes);
}

/// Writes the number to the eight bytes from place `at`.
pub(crate) fn put_word(out: &mut [u8], at: usize, number: u64)
    requires { at + 8 ≤ length out.old }
    ensures word { word out.new at ≡ number }
    ensures kept { IsKeptOutside at (at + 8) out.old out.new }
{
    let mut bytes = [0; 8];
    LittleEndian::write_u64(&mut bytes, number);
    put_bytes(out, at, &bytes);
}

/// Writes the numbers one behind the other from the first byte on.
pub(crate) fn put_words(out: &mut [u8], numbers: &[u64])
    requires { 8 * length numbers.now ≤ length out.old }
    ensures words { (i : ℕ) → i < length numbers.now → word out.new (8 * i) ≡ slice_index numbers.now i }
    ensures kept { IsKeptOutside 0 (8 * length numbers.now) out.old out.new }
{
    for (i, number) in numbers.iter().enumerate() {
        put_word(out, 8 * i, *number);
    }
}

/// Writes the digest to the 32 bytes from place `at`.
pub(crate) fn put_digest(out: &mut [u8], at: usize, digest: Digest)
    requires { at + 32 ≤ length out.old }
    ensures digest { digest_at out.new at ≡ digest }
    ensures bytes { AreBytes out.new }
    ensures kept { IsKeptOutside at (at + 32) out.old out.new }
{
    put_bytes(out, at, &digest.0);
}

/// Makes each byte zero.
pub(crate) fn clear(out: &mut [u8])
    ensures { AreZero 0 (length out.new) out.new }
{
    out.fill(0);
}
