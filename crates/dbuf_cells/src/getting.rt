//! Operations that bring a block: a part of it is read, or it is pinned (`dbuf_read` and `dbuf_hold` of OpenZFS's `dbuf.c`).
ghost use Rattle.std.specs.Prelude.{◌≡◌, ◌+◌, ◌≤◌, [], IfOk, IfErr, IsTrue, OnOk, OnErr};
ghost use Rattle.blk_ptr.specs.Size.{IsBlockSize};
ghost use Rattle.arc_core.specs.Config.{IsConfig};
ghost use Rattle.arc_table.specs.Cache.{IsPartyOf};
ghost use Rattle.arc_table.specs.Reading.{KeepsDevice, outside};
ghost use Rattle.vdev_io.specs.Calls.{KeepsPool};
ghost use Rattle.dbuf_state.specs.Answers.{IsAnswer};
ghost use Rattle.dbuf_state.specs.Dbufs.{DbufHas, dbuf_at, dbuf_is, is_cached, size_of};
ghost use Rattle.dbuf_state.specs.Objects.{Never};
ghost use Rattle.dbuf_state.specs.Outline.{mapped_size};
ghost use Rattle.dbuf_state.specs.Soundness.{plain_cell};
ghost use Rattle.dbuf_cells.specs.Accessing.{AnswersGet, AnswersHold};
ghost use Rattle.dbuf_cells.specs.InHand.{ClaimsAre, Gives, IsRoomier, MayGive};
ghost use Rattle.dbuf_cells.specs.Loading.{EndsWith, Notes, Tests, mapped_in};
ghost use Rattle.dbuf_cells.specs.Patching.{IsSizedIn};
ghost use Rattle.dbuf_cells.specs.Turns.{KeepsClaims};
ghost use Rattle.dbuf_state.specs.declared.event.CellEvent.TheVariants as event;
ghost use Rattle.dbuf_state.specs.declared.fault.DbufFault.TheVariants as fault;

use crate::evict::{finish, make_room};
use crate::kept::{Cells, HeapCell, Kept};
use crate::loading::bring;
use crate::patching::check_key;
use crate::place::cell_of;
use crate::turn::{give, take_at_rest, told};
use arc_table::Party;
use blk_ptr::NoMemory;
use dbuf_state::{Cell, CellEvent, DbufFault, Mapped, Oid, Shown, Window};
use std::sync::Wait;
use vdev_io::{CacheDev, Pool};

// The number of a block's bytes.
fn len_of(mapped: Mapped) -> u64
    ensures { result ≡ mapped_size mapped }
{
    match mapped {
        Mapped::Clean(ptr) => ptr.key.size,
        Mapped::Dirty { size } => u64::from(size),
    }
}

// Whether there is a block, and a range that ends here is inside it.
pub(crate) fn test_range(at: Oid, end: u64, mapped: Option<Mapped>) -> Result<(), DbufFault>
    ensures { Tests at end mapped result }
{
    let Some(mapped) = mapped else {
        return Err(DbufFault::NoBlock(at));
    };
    let size = len_of(mapped);
    if size < end {
        return Err(DbufFault::Range { end, size });
    }
    Ok(())
}

// Shows a part of a block whose bytes are there, and notes the Get, with room for the evictions that may follow.
fn see(cell: &mut Cell<Kept>, n: u32, at: Oid, w: Window) -> Result<(u64, Shown), NoMemory>
    requires cached { IsTrue (dbuf_is (λ d. is_cached d.state) at cell.old.dbufs) }
    requires inside { DbufHas (λ d. w.at + w.len ≤ size_of d.content) (dbuf_at at cell.old.dbufs) }
    requires sized { IsSizedIn at cell.old.dbufs }
    ensures ok { OnOk result (Notes n (event.Get n at) cell.old cell.new) }
    ensures got { IfOk result (λ got. IsAnswer (plain_cell Never cell.old) at w got.0 got.1) }
    ensures size { IfOk result (λ got. IsBlockSize got.0) }
    ensures err { OnErr result (IsRoomier cell.old cell.new) }
{
    make_room(cell, 0, 1)?;
    told(cell);
    let Some(mapped) = cell.mapped(at) else {
        unreachable!();
    };
    let size = len_of(mapped);
    let mut shown = Shown::of(&[]);
    cell.shown(at, w, &mut shown);
    cell.note(CellEvent::Get { n, at });
    Ok((size, shown))
}

// Pins a block whose bytes are there, and notes it, with room for the evictions that may follow.
fn pin(cell: &mut Cell<Kept>, n: u32, at: Oid) -> Result<(), NoMemory>
    requires cached { IsTrue (dbuf_is (λ d. is_cached d.state) at cell.old.dbufs) }
    ensures ok { OnOk result (Notes n (event.Pin n at) cell.old cell.new) }
    ensures err { OnErr result (IsRoomier cell.old cell.new) }
{
    make_room(cell, 0, 1)?;
    cell.pin(n, at)?;
    cell.note(CellEvent::Pin { n, at });
    Ok(())
}

// Ends a get, whose cell is in hand with the block's bytes.
fn end_get(
    arcs: &Cells,
    rt: &impl Wait,
    party: &mut Party<HeapCell>,
    i: u32,
    mut cell: HeapCell,
    at: Oid,
    w: Window,
) -> Result<(u64, Shown), DbufFault>
    requires hand { MayGive arcs.now i cell.value party.old }
    requires cached { IsTrue (dbuf_is (λ d. is_cached d.state) at cell.value.dbufs) }
    requires inside { DbufHas (λ d. w.at + w.len ≤ size_of d.content) (dbuf_at at cell.value.dbufs) }
    requires sized { IsSizedIn at cell.value.dbufs }
    ensures ok { OnOk result (EndsWith arcs.now i (event.Get party.old.number at) cell.value party.old party.new) }
    ensures got { IfOk result (λ got. IsAnswer (plain_cell Never cell.value) at w got.0 got.1) }
    ensures size { IfOk result (λ got. IsBlockSize got.0) }
    ensures err { OnErr result (Gives arcs.now i cell.value party.old party.new) }
    ensures why { IfErr result (λ why. why ≡ DbufFault.NoMemory) }
    ensures claims { ClaimsAre i party.new.number cell.value party.new }
{
    let n = party.number();
    match see(&mut cell, n, at, w) {
        Ok(got) => {
            finish(arcs, rt, party, i, cell);
            Ok(got)
        }
        Err(_) => {
            give(arcs, party, i, cell);
            Err(DbufFault::NoMemory)
        }
    }
}

// Ends a hold, whose cell is in hand with the block's bytes.
fn end_hold(
    arcs: &Cells,
    rt: &impl Wait,
    party: &mut Party<HeapCell>,
    i: u32,
    mut cell: HeapCell,
    at: Oid,
) -> Result<(), DbufFault>
    requires hand { MayGive arcs.now i cell.value party.old }
    requires cached { IsTrue (dbuf_is (λ d. is_cached d.state) at cell.value.dbufs) }
    ensures ok { OnOk result (EndsWith arcs.now i (event.Pin party.old.number at) cell.value party.old party.new) }
    ensures err { OnErr result (Gives arcs.now i cell.value party.old party.new) }
    ensures why { IfErr result (λ why. why ≡ DbufFault.NoMemory) }
    ensures claims { ClaimsAre i party.new.number cell.value party.new }
{
    let n = party.number();
    match pin(&mut cell, n, at) {
        Ok(()) => {
            finish(arcs, rt, party, i, cell);
            Ok(())
        }
        Err(_) => {
            give(arcs, party, i, cell);
            Err(DbufFault::NoMemory)
        }
    }
}

/// Reads a window of a block: the block's size, which is one that a block may have, and the window's bytes. Where the dbuf doesn't have the bytes, they are brought first, with no
/// turn held while they are read. Then dbufs are evicted while the cell keeps more than its limit. Refusals, in this order: NoBlock where the object map
/// has no such block; Range where the window ends past the block; those of `Arcs::read`. After a refusal the object map is as before. The party
/// holds no turn. It may wait.
pub fn get<P: Pool, D: CacheDev>(
    arcs: &Cells,
    rt: &impl Wait,
    party: &mut Party<HeapCell>,
    at: Oid,
    w: Window,
    tick: u64,
    pool: &mut P,
    cache: &mut D,
) -> Result<(u64, Shown), DbufFault>
    requires party { IsPartyOf arcs.now party.old }
    requires valid { IsConfig arcs.now.config }
    requires free { party.old.held ≡ [] }
    ensures answer { AnswersGet P.Pool D.CacheDev arcs.now.config at tick (outside pool.old cache.old) (outside pool.new cache.new) w party.old party.new result }
    ensures size { IfOk result (λ got. IsBlockSize got.0) }
    ensures party { IsPartyOf arcs.now party.new }
    ensures free { party.new.held ≡ [] }
    ensures number { party.new.number ≡ party.old.number }
    ensures claims { KeepsClaims party.old party.new }
    ensures pool { KeepsPool P.Pool pool.old pool.new }
    ensures cache { KeepsDevice D.CacheDev cache.old cache.new }
{
    let i = cell_of(arcs, at);
    let cell = take_at_rest(arcs, rt, party, i, at);
    let mapped = cell.mapped(at);
    let end = u64::from(w.at) + u64::from(w.len);
    if let Err(fault) = test_range(at, end, mapped) {
        give(arcs, party, i, cell);
        return Err(fault);
    }
    if let Err(fault) = check_key(mapped, pool.len()) {
        give(arcs, party, i, cell);
        return Err(DbufFault::Read(fault));
    }
    match bring(arcs, rt, party, i, cell, at, tick, pool, cache) {
        Ok(cell) => end_get(arcs, rt, party, i, cell, at, w),
        Err(fault) => Err(fault),
    }
}

/// Pins a block, so that its dbuf isn't evicted. Where the dbuf doesn't have the bytes, they are brought first, with no turn held while they
/// are read. Then dbufs are evicted while the cell keeps more than its limit. Refusals, in this order: NoBlock where the object map has no such block;
/// those of `Arcs::read`. After a refusal the object map is as before. The party holds no turn. It may wait.
pub fn hold<P: Pool, D: CacheDev>(
    arcs: &Cells,
    rt: &impl Wait,
    party: &mut Party<HeapCell>,
    at: Oid,
    tick: u64,
    pool: &mut P,
    cache: &mut D,
) -> Result<(), DbufFault>
    requires party { IsPartyOf arcs.now party.old }
    requires valid { IsConfig arcs.now.config }
    requires free { party.old.held ≡ [] }
    ensures answer { AnswersHold P.Pool D.CacheDev arcs.now.config at tick (outside pool.old cache.old) (outside pool.new cache.new) party.old party.new result }
    ensures party { IsPartyOf arcs.now party.new }
    ensures free { party.new.held ≡ [] }
    ensures number { party.new.number ≡ party.old.number }
    ensures claims { KeepsClaims party.old party.new }
    ensures pool { KeepsPool P.Pool pool.old pool.new }
    ensures cache { KeepsDevice D.CacheDev cache.old cache.new }
{
    let i = cell_of(arcs, at);
    let cell = take_at_rest(arcs, rt, party, i, at);
    if let Err(fault) = test_range(at, 0, cell.mapped(at)) {
        give(arcs, party, i, cell);
        return Err(fault);
    }
    match bring(arcs, rt, party, i, cell, at, tick, pool, cache) {
        Ok(cell) => end_hold(arcs, rt, party, i, cell, at),
        Err(fault) => Err(fault),
    }
}
