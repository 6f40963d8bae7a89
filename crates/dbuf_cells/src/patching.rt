//! A part of a block is written (`dbuf_will_dirty` of OpenZFS's `dbuf.c`).
ghost use Rattle.std.specs.Prelude.{◌≡◌, ◌+◌, ◌≤◌, [], length, IfErr, IfOk, IfSome, IsTrue, OnErr, OnOk};
ghost use Rattle.arc_core.specs.Config.{IsConfig};
ghost use Rattle.arc_table.specs.Cache.{IsPartyOf};
ghost use Rattle.arc_table.specs.Reading.{KeepsDevice, outside};
ghost use Rattle.vdev_io.specs.Calls.{KeepsPool};
ghost use Rattle.dbuf_state.specs.Dbufs.{DbufHas, dbuf_at, dbuf_is, is_cached, size_of};
ghost use Rattle.dbuf_state.specs.declared.fault.DbufFault.TheVariants as fault;
ghost use Rattle.dbuf_cells.specs.Patching.{AnswersPatch, ChecksKey, EndsPatch, IsPatched, IsSizedIn, TakesOver};
ghost use Rattle.dbuf_cells.specs.InHand.{ClaimsAre, Gives, IsRoomier, MayGive};
ghost use Rattle.dbuf_cells.specs.Kept.{bytes_of};
ghost use Rattle.dbuf_cells.specs.Turns.{KeepsClaims};

use crate::evict::{finish, make_room};
use crate::getting::test_range;
use crate::kept::{Cells, HeapCell, Kept};
use crate::loading::bring;
use crate::place::cell_of;
use crate::putting::{give_up, is_kept};
use crate::turn::{give, take_at_rest, told};
use arc_core::ReadFault;
use arc_table::Party;
use blk_ptr::{NoMemory, Shows};
use dbuf_state::{Cell, CellEvent, DbufFault, Mapped, Oid, Shown};
use std::alloc::Global;
use std::sync::Wait;
use vdev_io::{CacheDev, Pool};

// A copy of a kept block's bytes.
fn copy_of(alloc: Global, kept: &Kept) -> Result<Vec<u8>, NoMemory>
    ensures { IfOk result (λ bytes. bytes.items ≡ bytes_of kept.now) }
{
    Ok(kept.block().bytes().to_vec(alloc)?)
}

// Makes a clean block dirty, with a copy of its bytes, and takes out what its dbuf kept. A dirty block stays as it is.
fn copy_out(alloc: Global, cell: &mut Cell<Kept>, at: Oid) -> Result<Option<Kept>, NoMemory>
    requires cached { IsTrue (dbuf_is (λ d. is_cached d.state) at cell.old.dbufs) }
    requires sized { IsSizedIn at cell.old.dbufs }
    ensures ok { IfOk result (λ kept. TakesOver at kept cell.old cell.new) }
    ensures err { OnErr result (cell.new ≡ cell.old) }
{
    told(cell);
    if !is_kept(cell, at) {
        return Ok(None);
    }
    let kept = cell.unkeep(at);
    match copy_of(alloc, &kept) {
        Ok(bytes) => {
            cell.dirty_with(at, bytes);
            Ok(Some(kept))
        }
        Err(_) => {
            cell.rekeep(at, kept);
            Err(NoMemory)
        }
    }
}

// Writes a part of a block whose bytes are there, and notes it, with room for the evictions that may follow. What a clean block's dbuf kept is
// taken out.
fn write_part(
    alloc: Global,
    cell: &mut Cell<Kept>,
    n: u32,
    at: Oid,
    from: u32,
    bytes: &Shown,
) -> Result<Option<Kept>, NoMemory>
    requires cached { IsTrue (dbuf_is (λ d. is_cached d.state) at cell.old.dbufs) }
    requires sized { IsSizedIn at cell.old.dbufs }
    requires inside { DbufHas (λ d. from + length bytes.now ≤ size_of d.content) (dbuf_at at cell.old.dbufs) }
    ensures ok { IfOk result (λ kept. IsPatched n at from bytes.now kept cell.old cell.new) }
    ensures err { OnErr result (IsRoomier cell.old cell.new) }
{
    make_room(cell, 0, 1)?;
    let kept = copy_out(alloc, cell, at)?;
    cell.write_at(at, from, bytes);
    let bytes = Shown::of(bytes.bytes());
    cell.note(CellEvent::Patch { n, at, from, bytes });
    Ok(kept)
}

// Ends a patch, whose cell is in hand with the block's bytes.
fn end_patch(
    alloc: Global,
    arcs: &Cells,
    rt: &impl Wait,
    party: &mut Party<HeapCell>,
    i: u32,
    mut cell: HeapCell,
    at: Oid,
    from: u32,
    bytes: &Shown,
) -> Result<(), DbufFault>
    requires hand { MayGive arcs.now i cell.value party.old }
    requires cached { IsTrue (dbuf_is (λ d. is_cached d.state) at cell.value.dbufs) }
    requires sized { IsSizedIn at cell.value.dbufs }
    requires inside { DbufHas (λ d. from + length bytes.now ≤ size_of d.content) (dbuf_at at cell.value.dbufs) }
    ensures ok { OnOk result (EndsPatch arcs.now i at from bytes.now cell.value party.old party.new) }
    ensures err { OnErr result (Gives arcs.now i cell.value party.old party.new) }
    ensures why { IfErr result (λ why. why ≡ fault.NoMemory) }
    ensures claims { ClaimsAre i party.new.number cell.value party.new }
{
    let n = party.number();
    match write_part(alloc, &mut cell, n, at, from, bytes) {
        Ok(kept) => {
            give_up(arcs, rt, party, i, kept);
            finish(arcs, rt, party, i, cell);
            Ok(())
        }
        Err(_) => {
            give(arcs, party, i, cell);
            Err(DbufFault::NoMemory)
        }
    }
}

// Whether the key of a clean block names a block of a pool of this length.
pub(crate) fn check_key(mapped: Option<Mapped>, len: u64) -> Result<(), ReadFault>
    ensures { ChecksKey len mapped result }
{
    if let Some(Mapped::Clean(ptr)) = mapped {
        if let Err(why) = ptr.key.check(len) {
            return Err(ReadFault::Key(why));
        }
    }
    Ok(())
}

/// Writes over a part of a block, from the byte `from` on. Where the dbuf doesn't have the bytes, they are brought first, with no turn held while
/// they are read. A clean block becomes dirty, with a copy of its bytes of its own, and what its dbuf kept is released. Then dbufs are evicted
/// while the cell keeps more than its limit. Refusals, in this order: NoBlock where the object map has no such block; Range where the bytes end past the block;
/// those of `Arcs::read`. After a refusal the object map is as before. The party holds no turn. It may wait.
pub fn patch<P: Pool, D: CacheDev>(
    alloc: Global,
    arcs: &Cells,
    rt: &impl Wait,
    party: &mut Party<HeapCell>,
    at: Oid,
    from: u32,
    bytes: &Shown,
    tick: u64,
    pool: &mut P,
    cache: &mut D,
) -> Result<(), DbufFault>
    requires party { IsPartyOf arcs.now party.old }
    requires valid { IsConfig arcs.now.config }
    requires free { party.old.held ≡ [] }
    ensures answer { AnswersPatch P.Pool D.CacheDev arcs.now.config at tick (outside pool.old cache.old) (outside pool.new cache.new) from bytes.now party.old party.new result }
    ensures party { IsPartyOf arcs.now party.new }
    ensures free { party.new.held ≡ [] }
    ensures number { party.new.number ≡ party.old.number }
    ensures claims { KeepsClaims party.old party.new }
    ensures pool { KeepsPool P.Pool pool.old pool.new }
    ensures cache { KeepsDevice D.CacheDev cache.old cache.new }
{
    let i = cell_of(arcs, at);
    let cell = take_at_rest(arcs, rt, party, i, at);
    let mapped = cell.mapped(at);
    let end = u64::from(from) + bytes.bytes().len() as u64;
    if let Err(fault) = test_range(at, end, mapped) {
        give(arcs, party, i, cell);
        return Err(fault);
    }
    if let Err(fault) = check_key(mapped, pool.len()) {
        give(arcs, party, i, cell);
        return Err(DbufFault::Read(fault));
    }
    match bring(arcs, rt, party, i, cell, at, tick, pool, cache) {
        Ok(cell) => end_patch(alloc, arcs, rt, party, i, cell, at, from, bytes),
        Err(fault) => Err(fault),
    }
}
