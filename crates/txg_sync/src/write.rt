//! One block is written: to the pool first, then into the cache, and then its cell notes it (`dbuf_sync_leaf` and `dbuf_write_done` of OpenZFS's `dbuf.c`).
ghost use Rattle.std.specs.Prelude.{◌≡◌, ◌+◌, ◌<◌, ◌≤◌, ◌%◌, [], IfOk, IsErrOf, IsTrue, OnErr, OnOk, length};
ghost use Rattle.blk_ptr.specs.Key.{is_well_formed};
ghost use Rattle.blk_ptr.specs.Size.{IsBlockSize, sector};
ghost use Rattle.turn_table.specs.Board.{IsAmong};
ghost use Rattle.vdev_io.specs.Faults.{CountsIoFault, sum_of_counts};
ghost use Rattle.arc_table.specs.Both.{Does};
ghost use Rattle.arc_table.specs.Cache.{IsPartyOf};
ghost use Rattle.arc_table.specs.Geometry.{IsCell};
ghost use Rattle.arc_table.specs.Looking.{HasNoLook};
ghost use Rattle.dbuf_state.specs.Dbufs.{dbuf_is, is_dirty};
ghost use Rattle.dbuf_cells.specs.InHand.{IsRoomier};
ghost use Rattle.dbuf_cells.specs.Turns.{dbuf_meanings};
ghost use Rattle.txg_sync.specs.InHand.{IsDueIn};
ghost use Rattle.txg_sync.specs.Items.{SyncItem, bytes_of_due, dirty_bytes_at};
ghost use Rattle.txg_sync.specs.Writing.{AltersCell, AnswersBlock, IsSealed, KeepsItem};

use crate::cells::told;
use crate::due::Due;
use arc_table::{Inserted, Party};
use blk_ptr::{Block, Key, NoMemory, Ptr, Shows};
use dbuf_cells::{Cells, HeapCell, Kept};
use dbuf_state::{Cell, CellEvent, Oid};
use std::alloc::Global;
use std::sync::{Arc, Wait};
use vdev_io::{IoFault, Pool};

// A copy of a dirty block's bytes, sealed, with room for the event to be noted behind its write.
fn seal(alloc: Global, cell: &mut Cell<Kept>, at: Oid) -> Result<Arc<Block>, NoMemory>
    requires dirty { IsTrue (dbuf_is is_dirty at cell.old.dbufs) }
    ensures roomier { IsRoomier cell.old cell.new }
    ensures room { OnOk result (0 < cell.new.event_room) }
    ensures bytes { IfOk result (λ block. block.value ≡ dirty_bytes_at at cell.old.dbufs) }
{
    cell.reserve(0, 1)?;
    let bytes = cell.dirty_bytes(at).to_vec(alloc)?;
    Ok(Arc::new(alloc, Block::seal(bytes))?)
}

// Puts a block that was written into the cache, for its cell to keep.
fn keep(
    arcs: &Cells,
    rt: &impl Wait,
    party: &mut Party<HeapCell>,
    i: u32,
    key: Key,
    block: Arc<Block>,
    shared: Arc<Block>,
    tick: u64,
) -> Result<Kept, NoMemory>
    requires party { IsPartyOf arcs.now party.old }
    requires look { HasNoLook arcs.now party.old }
    requires cell { IsCell arcs.now.config i × IsAmong i party.old.held }
    requires formed { IsTrue (is_well_formed key) }
    requires size { length block.value ≡ key.size }
    requires same { shared.value ≡ block.value }
    ensures ok { IfOk result (λ kept. (x : SyncItem) → x.due.cell ≡ i → x.bytes ≡ block.value → x.ptr.key ≡ key → IsSealed x → KeepsItem arcs.now.config tick x kept party.old party.new) }
    ensures err { OnErr result (Does dbuf_meanings arcs.now.config key [] party.old party.new) }
{
    match arcs.insert(rt, party, i, key, shared, tick)? {
        Inserted::Held(hold) => Ok(Kept::Held(hold)),
        Inserted::There(_) => Ok(Kept::Loose { key, block }),
    }
}

// Writes one dirty block at a place. A write that fails is not tried again, and then nothing is inserted or noted.
fn write_block<P: Pool>(
    alloc: Global,
    arcs: &Cells,
    rt: &impl Wait,
    party: &mut Party<HeapCell>,
    i: u32,
    cell: &mut Cell<Kept>,
    at: Oid,
    group: u64,
    tick: u64,
    pool: &mut P,
    place: u64,
) -> Result<u64, IoFault>
    requires party { IsPartyOf arcs.now party.old }
    requires look { HasNoLook arcs.now party.old }
    requires cell { IsCell arcs.now.config i × IsAmong i party.old.held }
    requires born { 0 < group }
    requires aligned { place % sector ≡ 0 }
    requires dirty { IsTrue (dbuf_is is_dirty at cell.old.dbufs) }
    requires sized { IsBlockSize (length (dirty_bytes_at at cell.old.dbufs)) }
    requires inside { place + length (dirty_bytes_at at cell.old.dbufs) ≤ P.size pool.old }
    ensures answer { AnswersBlock arcs.now.config group tick place i at cell.old cell.new (P.told pool.old) (P.told pool.new) party.old party.new result }
    ensures size { P.size pool.new ≡ P.size pool.old }
    ensures reads { P.reads pool.new ≡ P.reads pool.old }
    ensures wrote { OnOk result (P.other_calls pool.new ≡ sum_of_counts (P.other_calls pool.old) 1) }
    ensures failed { IsErrOf result IoFault.Failed → P.other_calls pool.new ≡ sum_of_counts (P.other_calls pool.old) 1 }
    ensures fault { CountsIoFault (P.faults pool.old) (P.faults pool.new) result }
{
    told(cell);
    let Ok(block) = seal(alloc, cell, at) else {
        return Err(IoFault::NoMemory);
    };
    let Ok(shared) = Arc::try_clone(&block) else {
        return Err(IoFault::NoMemory);
    };
    let size = block.bytes().len() as u64;
    let key = Key {
        offset: place,
        size,
        birth: group,
    };
    let ptr = Ptr {
        key,
        digest: block.digest(),
    };
    let n = party.number();
    pool.write(place, block.bytes())?;
    let Ok(kept) = keep(arcs, rt, party, i, key, block, shared, tick) else {
        return Err(IoFault::NoMemory);
    };
    let held = kept.held();
    cell.synced(at, ptr, kept);
    cell.note(CellEvent::Synced { n, at, ptr, held });
    Ok(size)
}

/// Writes one dirty block of these cells at a place.
pub(crate) fn write_due<P: Pool>(
    alloc: Global,
    arcs: &Cells,
    rt: &impl Wait,
    party: &mut Party<HeapCell>,
    cells: &mut [HeapCell],
    due: Due,
    group: u64,
    tick: u64,
    pool: &mut P,
    place: u64,
) -> Result<u64, IoFault>
    requires party { IsPartyOf arcs.now party.old }
    requires look { HasNoLook arcs.now party.old }
    requires cell { IsCell arcs.now.config due.cell × IsAmong due.cell party.old.held }
    requires born { 0 < group }
    requires aligned { place % sector ≡ 0 }
    requires due { IsDueIn cells.old due }
    requires inside { place + length (bytes_of_due cells.old due) ≤ P.size pool.old }
    ensures answer { AltersCell due.cell cells.old cells.new (λ old new. AnswersBlock arcs.now.config group tick place due.cell due.at old new (P.told pool.old) (P.told pool.new) party.old party.new result) }
    ensures size { P.size pool.new ≡ P.size pool.old }
    ensures reads { P.reads pool.new ≡ P.reads pool.old }
    ensures wrote { OnOk result (P.other_calls pool.new ≡ sum_of_counts (P.other_calls pool.old) 1) }
    ensures failed { IsErrOf result IoFault.Failed → P.other_calls pool.new ≡ sum_of_counts (P.other_calls pool.old) 1 }
    ensures fault { CountsIoFault (P.faults pool.old) (P.faults pool.new) result }
{
    let cell: &mut Cell<Kept> = &mut cells[due.cell as usize];
    write_block(
        alloc, arcs, rt, party, due.cell, cell, due.at, group, tick, pool, place,
    )
}
