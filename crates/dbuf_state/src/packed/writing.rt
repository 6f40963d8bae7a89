//! Appending an event as bytes to a list that has room.
ghost use Rattle.std.specs.Prelude.{◌≡◌, ◌+◌, ◌<◌, ◌≤◌, ◌^◌, ◌++◌, length, vec_len, vec_capacity};
ghost use Rattle.dbuf_state.specs.Packed.{HeadFits, IsPackable, PtrFits, event_bytes, head_bytes, load_kind, patch_bytes, ptr_bytes, put_bytes, synced_kind};

use crate::event::CellEvent;
use crate::oid::Oid;
use crate::shown::Shown;
use blk_ptr::Ptr;
use varint::{write_bytes, write_number};

// The most bytes that the head of an event takes: four numbers.
const LONGEST_HEAD: usize = 36;

// The most bytes that the rest takes: two numbers and the bytes of a patch.
const LONGEST_TAIL: usize = 82;

/// The most bytes that an event takes.
pub(crate) const LONGEST_EVENT: usize = 118;

const NO_OID: Oid = Oid {
    object: 0,
    block: 0,
};

// The kind of a Load: two kinds, since a hold is kept or not.
fn load_kind(held: bool) -> u64
    ensures { result ≡ load_kind held }
{
    if held { 9 } else { 3 }
}

// The kind of a Synced, likewise.
fn synced_kind(held: bool) -> u64
    ensures { result ≡ synced_kind held }
{
    if held { 10 } else { 8 }
}

// Appends what each event begins with.
fn write_head(out: &mut Vec<u8>, kind: u64, n: u32, at: Oid)
    requires { vec_len out.old + LONGEST_HEAD ≤ vec_capacity out.old }
    ensures items { out.new.items ≡ out.old.items ++ head_bytes kind n at }
    ensures len { vec_len out.new ≤ vec_len out.old + LONGEST_HEAD }
    ensures capacity { vec_capacity out.new ≡ vec_capacity out.old }
    ensures fits { HeadFits n at }
{
    write_number(out, kind);
    write_number(out, u64::from(n));
    write_number(out, at.object);
    write_number(out, at.block);
}

// Appends what a Put says.
fn write_put(out: &mut Vec<u8>, size: u32, fill: u8)
    requires { vec_len out.old + LONGEST_TAIL ≤ vec_capacity out.old }
    ensures items { out.new.items ≡ out.old.items ++ put_bytes size fill }
    ensures len { vec_len out.new ≤ vec_len out.old + LONGEST_TAIL }
    ensures capacity { vec_capacity out.new ≡ vec_capacity out.old }
    ensures size { size < 2 ^ 32 }
    ensures fill { fill < 2 ^ 8 }
{
    write_number(out, u64::from(size));
    write_number(out, u64::from(fill));
}

// Appends what a Patch says.
fn write_patch(out: &mut Vec<u8>, from: u32, bytes: &Shown)
    requires { vec_len out.old + LONGEST_TAIL ≤ vec_capacity out.old }
    ensures items { out.new.items ≡ out.old.items ++ patch_bytes from bytes.now }
    ensures len { vec_len out.new ≤ vec_len out.old + LONGEST_TAIL }
    ensures capacity { vec_capacity out.new ≡ vec_capacity out.old }
    ensures from { from < 2 ^ 32 }
    ensures few { length bytes.now ≤ 64 }
{
    let shown = bytes.bytes();
    write_number(out, u64::from(from));
    write_number(out, shown.len() as u64);
    write_bytes(out, shown);
}

// Appends a pointer.
fn write_ptr(out: &mut Vec<u8>, ptr: &Ptr)
    requires { vec_len out.old + LONGEST_TAIL ≤ vec_capacity out.old }
    ensures items { out.new.items ≡ out.old.items ++ ptr_bytes ptr.now }
    ensures len { vec_len out.new ≤ vec_len out.old + LONGEST_TAIL }
    ensures capacity { vec_capacity out.new ≡ vec_capacity out.old }
    ensures fits { PtrFits ptr.now }
{
    write_number(out, ptr.key.offset);
    write_number(out, ptr.key.size);
    write_number(out, ptr.key.birth);
    write_bytes(out, &ptr.digest.0);
}

/// Appends an event, for which there is room.
pub(crate) fn write_event(out: &mut Vec<u8>, event: &CellEvent)
    requires { vec_len out.old + LONGEST_EVENT ≤ vec_capacity out.old }
    ensures items { out.new.items ≡ out.old.items ++ event_bytes event.now }
    ensures len { vec_len out.new ≤ vec_len out.old + LONGEST_EVENT }
    ensures capacity { vec_capacity out.new ≡ vec_capacity out.old }
    ensures fits { IsPackable event.now }
{
    match event {
        CellEvent::Get { n, at } => write_head(out, 0, *n, *at),
        CellEvent::Pin { n, at } => write_head(out, 1, *n, *at),
        CellEvent::Unpin { n, at } => write_head(out, 2, *n, *at),
        CellEvent::Load { n, at, held } => write_head(out, load_kind(*held), *n, *at),
        CellEvent::Evict { n, at } => write_head(out, 4, *n, *at),
        CellEvent::End { n } => write_head(out, 5, *n, NO_OID),
        CellEvent::Put { n, at, size, fill } => {
            write_head(out, 6, *n, *at);
            write_put(out, *size, *fill);
        }
        CellEvent::Patch { n, at, from, bytes } => {
            write_head(out, 7, *n, *at);
            write_patch(out, *from, bytes);
        }
        CellEvent::Synced { n, at, ptr, held } => {
            write_head(out, synced_kind(*held), *n, *at);
            write_ptr(out, ptr);
        }
    }
}
