//! A whole block is written (`dbuf_will_fill` and `dbuf_dirty` of OpenZFS's `dbuf.c`).
ghost use Rattle.std.specs.Prelude.{◌≡◌, [], replicate, IfOk, IfSome, IsTrue, OnErr};
ghost use Rattle.blk_ptr.specs.Size.{IsBlockSize};
ghost use Rattle.arc_core.specs.Config.{IsConfig};
ghost use Rattle.arc_table.specs.Cache.{IsPartyOf};
ghost use Rattle.arc_table.specs.Looking.{HasNoLook};
ghost use Rattle.dbuf_state.specs.Dbufs.{dbuf_is, is_cached, is_clean_in, may_dirty};
ghost use Rattle.dbuf_state.specs.InHand.{are_at_rest};
ghost use Rattle.dbuf_cells.specs.InHand.{GivesUp, IsAtRest, IsOut, IsPut, IsRoomier, TakesOut, is_kept_by};
ghost use Rattle.dbuf_cells.specs.Putting.{AnswersPut};
ghost use Rattle.dbuf_cells.specs.Turns.{KeepsClaims};

use crate::evict::{finish, make_room};
use crate::kept::{Cells, HeapCell, Kept};
use crate::place::cell_of;
use crate::turn::{give, take_at_rest, told};
use arc_table::Party;
use blk_ptr::NoMemory;
use dbuf_state::{Cell, CellEvent, DbState, DbufFault, Mapped, Oid};
use std::alloc::Global;
use std::sync::Wait;

// So many bytes of this value.
fn filled(alloc: Global, size: u32, fill: u8) -> Result<Vec<u8>, NoMemory>
    ensures { IfOk result (λ bytes. bytes.items ≡ replicate size fill) }
{
    Ok(vec![in alloc; fill; size as usize]?)
}

// Gives up what a dbuf kept, whose bytes nobody needs any more: a hold is released, and a loose block is let go.
pub(crate) fn give_up(
    arcs: &Cells,
    rt: &impl Wait,
    party: &mut Party<HeapCell>,
    i: u32,
    kept: Option<Kept>,
)
    requires party { IsPartyOf arcs.now party.old }
    requires look { HasNoLook arcs.now party.old }
    requires out { IfSome kept (IsOut arcs.now.config i party.old) }
    ensures { GivesUp arcs.now.config i kept party.old party.new }
{
    if let Some(Kept::Held(hold)) = kept {
        arcs.give_up(rt, party, arcs.of_cell(hold, i));
    }
}

// Takes out what the dbuf of a block keeps, where it keeps something: then the block may be written.
fn take_out(cell: &mut Cell<Kept>, at: Oid) -> Option<Kept>
    requires rest { IsTrue (are_at_rest cell.old.dbufs) }
    requires settled { IsAtRest at cell.old.dbufs }
    ensures out { TakesOut at result cell.old cell.new }
    ensures may { IsTrue (may_dirty at cell.new.dbufs) }
{
    if is_kept(cell, at) {
        Some(cell.unkeep(at))
    } else {
        None
    }
}

// Whether a dbuf in this state has its bytes.
fn is_cached(state: DbState) -> bool
    ensures { result ≡ is_cached state }
{
    match state {
        DbState::Cached => true,
        DbState::Uncached => false,
        DbState::Read { n: _ } => false,
        DbState::Fill => false,
        DbState::Evicting => false,
    }
}

// Whether a dbuf keeps something, by what is mapped and how far it is: the block is clean and cached.
fn is_kept_by(mapped: Option<Mapped>, state: DbState) -> bool
    ensures { result ≡ is_kept_by mapped state }
{
    match mapped {
        Some(Mapped::Clean(_)) => is_cached(state),
        Some(Mapped::Dirty { size: _ }) => false,
        None => false,
    }
}

// Whether the dbuf of a block keeps something.
pub(crate) fn is_kept(cell: &Cell<Kept>, at: Oid) -> bool
    ensures { result ≡ dbuf_is (is_clean_in is_cached) at cell.now.dbufs }
{
    let mapped = cell.mapped(at);
    let state = cell.state(at);
    is_kept_by(mapped, state)
}

// Writes a whole block and notes it, with room for the evictions that may follow. What the dbuf kept is taken out.
fn write(
    cell: &mut Cell<Kept>,
    n: u32,
    at: Oid,
    size: u32,
    fill: u8,
    bytes: Vec<u8>,
) -> Result<Option<Kept>, NoMemory>
    requires rest { IsTrue (are_at_rest cell.old.dbufs) }
    requires settled { IsAtRest at cell.old.dbufs }
    requires size { IsBlockSize size }
    requires filled { bytes.items ≡ replicate size fill }
    ensures ok { IfOk result (λ kept. IsPut n at size fill kept cell.old cell.new) }
    ensures err { OnErr result (IsRoomier cell.old cell.new) }
{
    make_room(cell, 1, 2)?;
    told(cell);
    let kept = take_out(cell, at);
    cell.dirty_with(at, bytes);
    cell.note(CellEvent::Put { n, at, size, fill });
    Ok(kept)
}

// Writes a whole block, whose bytes these are.
fn put_filled(
    arcs: &Cells,
    rt: &impl Wait,
    party: &mut Party<HeapCell>,
    at: Oid,
    size: u32,
    fill: u8,
    bytes: Vec<u8>,
) -> Result<(), DbufFault>
    requires party { IsPartyOf arcs.now party.old }
    requires valid { IsConfig arcs.now.config }
    requires free { party.old.held ≡ [] }
    requires size { IsBlockSize size }
    requires filled { bytes.items ≡ replicate size fill }
    ensures answer { AnswersPut arcs.now.config at size fill party.old party.new result }
    ensures party { IsPartyOf arcs.now party.new }
    ensures free { party.new.held ≡ [] }
    ensures number { party.new.number ≡ party.old.number }
    ensures claims { KeepsClaims party.old party.new }
{
    let i = cell_of(arcs, at);
    let mut cell = take_at_rest(arcs, rt, party, i, at);
    let n = party.number();
    match write(&mut cell, n, at, size, fill, bytes) {
        Ok(kept) => {
            give_up(arcs, rt, party, i, kept);
            finish(arcs, rt, party, i, cell);
            Ok(())
        }
        Err(_) => {
            give(arcs, party, i, cell);
            Err(DbufFault::NoMemory)
        }
    }
}

/// Writes a whole block of `size` bytes, each of them `fill`, in one turn of the block's cell; it is mapped where it wasn't before. What its
/// dbuf kept is released; then dbufs are evicted while the cell keeps more than its limit. After NoMemory the cell is as before. The
/// party holds no turn. It may wait.
pub fn put(
    alloc: Global,
    arcs: &Cells,
    rt: &impl Wait,
    party: &mut Party<HeapCell>,
    at: Oid,
    size: u32,
    fill: u8,
) -> Result<(), DbufFault>
    requires party { IsPartyOf arcs.now party.old }
    requires valid { IsConfig arcs.now.config }
    requires free { party.old.held ≡ [] }
    requires size { IsBlockSize size }
    ensures answer { AnswersPut arcs.now.config at size fill party.old party.new result }
    ensures party { IsPartyOf arcs.now party.new }
    ensures free { party.new.held ≡ [] }
    ensures number { party.new.number ≡ party.old.number }
    ensures claims { KeepsClaims party.old party.new }
{
    let Ok(bytes) = filled(alloc, size, fill) else {
        return Err(DbufFault::NoMemory);
    };
    put_filled(arcs, rt, party, at, size, fill, bytes)
}
