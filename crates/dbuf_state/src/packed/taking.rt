//! Taking an event off the front of a run of bytes.
ghost use Rattle.std.specs.Prelude.{◌≡◌};
ghost use Rattle.dbuf_state.specs.Packed.{byte, narrow, plain_event, taken_event, taken_head, taken_patch, taken_put, taken_shown, taken_synced};

use super::Head;
use crate::event::CellEvent;
use crate::oid::Oid;
use crate::shown::{MOST_SHOWN, Shown};
use blk_ptr::{Digest, Key, Ptr};
use varint::{take_bytes, take_number};

// A number of 32 bits.
fn narrow(x: u64) -> u32
    ensures { result ≡ narrow x }
{
    if x < 1 << 32 { x as u32 } else { 0 }
}

// A number of 8 bits.
fn byte(x: u64) -> u8
    ensures { result ≡ byte x }
{
    if x < 1 << 8 { x as u8 } else { 0 }
}

// What the event begins with.
fn take_head(bytes: &[u8]) -> (Head, &[u8])
    ensures head { result.0 ≡ (taken_head bytes.now).0 }
    ensures rest { result.1.now ≡ (taken_head bytes.now).1 }
{
    let (kind, rest) = take_number(bytes);
    let (n, rest) = take_number(rest);
    let (object, rest) = take_number(rest);
    let (block, rest) = take_number(rest);
    let head = Head {
        kind,
        n: narrow(n),
        at: Oid { object, block },
    };
    (head, rest)
}

// An event of a kind that has nothing but its head.
fn plain_event(head: Head) -> CellEvent
    ensures { result ≡ plain_event head }
{
    let Head { kind, n, at } = head;
    match kind {
        0 => CellEvent::Get { n, at },
        1 => CellEvent::Pin { n, at },
        2 => CellEvent::Unpin { n, at },
        3 => CellEvent::Load { n, at, held: false },
        9 => CellEvent::Load { n, at, held: true },
        4 => CellEvent::Evict { n, at },
        _ => CellEvent::End { n },
    }
}

fn take_put(head: Head, bytes: &[u8]) -> (CellEvent, &[u8])
    ensures event { result.0 ≡ (taken_put head bytes.now).0 }
    ensures rest { result.1.now ≡ (taken_put head bytes.now).1 }
{
    let (size, rest) = take_number(bytes);
    let (fill, rest) = take_number(rest);
    let event = CellEvent::Put {
        n: head.n,
        at: head.at,
        size: narrow(size),
        fill: byte(fill),
    };
    (event, rest)
}

// So many bytes that a patch writes, where there are as many.
fn take_shown(len: usize, bytes: &[u8]) -> (Shown, &[u8])
    ensures shown { result.0 ≡ (taken_shown len bytes.now).0 }
    ensures rest { result.1.now ≡ (taken_shown len bytes.now).1 }
{
    if len <= MOST_SHOWN && len <= bytes.len() {
        (Shown::of(&bytes[..len]), &bytes[len..])
    } else {
        (Shown::of(&[]), bytes)
    }
}

fn take_patch(head: Head, bytes: &[u8]) -> (CellEvent, &[u8])
    ensures event { result.0 ≡ (taken_patch head bytes.now).0 }
    ensures rest { result.1.now ≡ (taken_patch head bytes.now).1 }
{
    let (from, rest) = take_number(bytes);
    let (len, rest) = take_number(rest);
    let (shown, rest) = take_shown(narrow(len) as usize, rest);
    let event = CellEvent::Patch {
        n: head.n,
        at: head.at,
        from: narrow(from),
        bytes: shown,
    };
    (event, rest)
}

fn take_synced(head: Head, held: bool, bytes: &[u8]) -> (CellEvent, &[u8])
    ensures event { result.0 ≡ (taken_synced head held bytes.now).0 }
    ensures rest { result.1.now ≡ (taken_synced head held bytes.now).1 }
{
    let (offset, rest) = take_number(bytes);
    let (size, rest) = take_number(rest);
    let (birth, rest) = take_number(rest);
    let (digest, rest) = take_bytes(rest);
    let ptr = Ptr {
        key: Key {
            offset,
            size,
            birth,
        },
        digest: Digest(digest),
    };
    let event = CellEvent::Synced {
        n: head.n,
        at: head.at,
        ptr,
        held,
    };
    (event, rest)
}

/// The event that the bytes begin with, and what is left behind it.
pub(crate) fn take_event(bytes: &[u8]) -> (CellEvent, &[u8])
    ensures event { result.0 ≡ (taken_event bytes.now).0 }
    ensures rest { result.1.now ≡ (taken_event bytes.now).1 }
{
    let (head, rest) = take_head(bytes);
    match head.kind {
        6 => take_put(head, rest),
        7 => take_patch(head, rest),
        8 => take_synced(head, false, rest),
        10 => take_synced(head, true, rest),
        _ => (plain_event(head), rest),
    }
}
