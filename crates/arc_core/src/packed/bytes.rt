//! The numbers of an event as a run of bytes, appended to a list that has room, and taken off the front of one.
ghost use Rattle.std.specs.Prelude.{◌≡◌, ◌+◌, ◌≤◌, ◌++◌, vec_len, vec_capacity};
ghost use Rattle.arc_core.specs.Packed.{digest_bytes, packed_bytes, taken_digest, taken_packed, turned, turned_back};

use super::Packed;
use blk_ptr::{Digest, Key};
use varint::{take_bytes, take_number, write_bytes, write_number};

/// The most bytes that an event takes: six numbers and a digest.
pub(crate) const LONGEST_EVENT: usize = 86;

// The kinds below this one have a digest.
const KINDS_WITH_DIGEST: u64 = 4;

// A number that is mostly a multiple of 512, as a small one.
fn turned(x: u64) -> u64
    ensures { result ≡ turned x }
{
    x / 512 + (x % 512) * (1 << 55)
}

// The number that was turned.
fn turned_back(y: u64) -> u64
    ensures { result ≡ turned_back y }
{
    (y % (1 << 55)) * 512 + y / (1 << 55)
}

// Appends the digest of an event of a kind that has one.
fn write_digest(out: &mut Vec<u8>, packed: &Packed)
    requires { vec_len out.old + 32 ≤ vec_capacity out.old }
    ensures items { out.new.items ≡ out.old.items ++ digest_bytes packed.now }
    ensures len { vec_len out.new ≤ vec_len out.old + 32 }
    ensures capacity { vec_capacity out.new ≡ vec_capacity out.old }
{
    if packed.kind < KINDS_WITH_DIGEST {
        write_bytes(out, &packed.digest.0);
    }
}

/// Appends the numbers of an event, for which there is room.
pub(crate) fn write_packed(out: &mut Vec<u8>, packed: &Packed)
    requires { vec_len out.old + LONGEST_EVENT ≤ vec_capacity out.old }
    ensures items { out.new.items ≡ out.old.items ++ packed_bytes packed.now }
    ensures len { vec_len out.new ≤ vec_len out.old + LONGEST_EVENT }
    ensures capacity { vec_capacity out.new ≡ vec_capacity out.old }
{
    write_number(out, packed.kind);
    write_number(out, packed.n);
    write_number(out, turned(packed.key.offset));
    write_number(out, turned(packed.key.size));
    write_number(out, packed.key.birth);
    write_number(out, packed.extra);
    write_digest(out, packed);
}

// The digest at the front, where the kind has one.
fn take_digest(kind: u64, bytes: &[u8]) -> ([u8; 32], &[u8])
    ensures digest { result.0 ≡ (taken_digest kind bytes.now).0 }
    ensures rest { result.1.now ≡ (taken_digest kind bytes.now).1 }
{
    if kind < KINDS_WITH_DIGEST {
        take_bytes(bytes)
    } else {
        ([0; 32], bytes)
    }
}

/// The numbers of the event that the bytes begin with, and what is left behind it.
#[inline(always)]
pub(crate) fn take_packed(bytes: &[u8]) -> (Packed, &[u8])
    ensures packed { result.0 ≡ (taken_packed bytes.now).0 }
    ensures rest { result.1.now ≡ (taken_packed bytes.now).1 }
{
    let (kind, rest) = take_number(bytes);
    let (n, rest) = take_number(rest);
    let (offset, rest) = take_number(rest);
    let (size, rest) = take_number(rest);
    let (birth, rest) = take_number(rest);
    let (extra, rest) = take_number(rest);
    let (digest, rest) = take_digest(kind, rest);
    let key = Key {
        offset: turned_back(offset),
        size: turned_back(size),
        birth,
    };
    let packed = Packed {
        kind,
        n,
        key,
        extra,
        digest: Digest(digest),
    };
    (packed, rest)
}
