//! The sync of a transaction group.
ghost use Rattle.std.specs.Prelude.{◌≡◌, ◌+◌, ◌-◌, ◌<◌, ◌≤◌, ◌%◌, ◌^◌, [], IfOk, length};
ghost use Rattle.blk_ptr.specs.Size.{sector};
ghost use Rattle.arc_core.specs.Config.{IsConfig};
ghost use Rattle.arc_table.specs.Cache.{IsPartyOf};
ghost use Rattle.arc_table.specs.feeder.Feeding.{IsFeeder};
ghost use Rattle.dbuf_cells.specs.Turns.{KeepsClaims};
ghost use Rattle.txg_sync.specs.InHand.{AreDueIn, HasTakenAll, MayGiveAll, SyncsInHand};
ghost use Rattle.txg_sync.specs.Items.{AreApart, need_of};
ghost use Rattle.txg_sync.specs.Syncing.{AnswersSync, AnswersWith};
ghost use Rattle.txg_sync.specs.Writing.{AnswersDues};

use crate::cells::{give_all, take_all};
use crate::due::{Due, dirty_of};
use crate::need::need_of;
use crate::write::write_due;
use arc_table::Party;
use blk_ptr::NoMemory;
use dbuf_cells::{Cells, HeapCell};
use std::alloc::Global;
use std::sync::Wait;
use vdev_io::{IoFault, Pool};

/// What a sync wrote.
#[derive(Clone, Copy, Debug, PartialEq, Eq)]
pub struct Synced {
    /// How many blocks.
    pub blocks: u32,
    /// The sum of their sizes.
    pub bytes: u64,
    /// The first place behind them: there the next sync begins.
    pub next: u64,
}

/// Why a sync stopped.
#[derive(Clone, Copy, Debug, PartialEq, Eq)]
pub enum SyncFault {
    /// A write failed, and the pool counted it. The blocks before the one in hand are synced, and the others are dirty as before.
    PoolFault,
    /// The dirty blocks need more bytes than are left behind the given place. Nothing was written.
    PoolFull {
        /// The sum of the dirty blocks' sizes.
        need: u128,
        /// The pool's length less the given place.
        left: u64,
    },
    /// Memory was refused. The blocks before the one in hand are synced, and the others are dirty as before.
    NoMemory,
}

impl From<IoFault> for SyncFault {
    ghost use Rattle.std.specs.Prelude.{◌≡◌};
    ghost use Rattle.txg_sync.specs.Writing.{sync_fault_of};

    ghost from_gives = { λ why fault. fault ≡ sync_fault_of why };

    fn from(why: IoFault) -> Self {
        match why {
            IoFault::Failed => SyncFault::PoolFault,
            IoFault::NoMemory => SyncFault::NoMemory,
        }
    }
}

// Writes these blocks one behind the other from a place on, and answers the place behind them.
fn write_dues<P: Pool>(
    alloc: Global,
    arcs: &Cells,
    rt: &impl Wait,
    party: &mut Party<HeapCell>,
    cells: &mut [HeapCell],
    dues: &[Due],
    group: u64,
    tick: u64,
    pool: &mut P,
    next: u64,
) -> Result<u64, IoFault>
    requires hand { HasTakenAll arcs.now cells.old party.old }
    requires all { length cells.old ≡ arcs.now.config.cells }
    requires due { AreDueIn cells.old dues.now }
    requires once { AreApart dues.now }
    requires born { 0 < group }
    requires aligned { next % sector ≡ 0 }
    requires fits { next + need_of cells.old dues.now ≤ P.size pool.old }
    requires length { P.size pool.old ≤ 2 ^ 40 }
    ensures answer { AnswersDues P.Pool arcs.now group tick next cells.old cells.new dues.now pool.old pool.new party.old party.new result }
    ensures aligned { IfOk result (λ place. place % sector ≡ 0) }
{
    let mut place = next;
    for due in dues {
        place += write_due(
            alloc, arcs, rt, party, cells, *due, group, tick, pool, place,
        )?;
    }
    Ok(place)
}

// Writes all dirty blocks of these cells, where they fit behind a place.
fn sync_cells<P: Pool>(
    alloc: Global,
    arcs: &Cells,
    rt: &impl Wait,
    party: &mut Party<HeapCell>,
    cells: &mut [HeapCell],
    group: u64,
    tick: u64,
    pool: &mut P,
    next: u64,
) -> Result<Synced, SyncFault>
    requires hand { HasTakenAll arcs.now cells.old party.old }
    requires all { length cells.old ≡ arcs.now.config.cells }
    requires born { 0 < group }
    requires aligned { next % sector ≡ 0 }
    requires inside { next ≤ P.size pool.old }
    requires length { P.size pool.old ≤ 2 ^ 40 }
    ensures hand { MayGiveAll arcs.now cells.new party.new }
    ensures number { party.new.number ≡ party.old.number }
    ensures claims { party.new.own.ledger.claims ≡ party.old.own.ledger.claims }
    ensures answer { AnswersWith P.Pool group next pool.old pool.new arcs.now.config (SyncsInHand arcs.now tick cells.old cells.new party.old party.new) result }
    ensures aligned { IfOk result (λ done. done.next % sector ≡ 0) }
{
    let Ok(dues) = dirty_of(alloc, cells) else {
        return Err(SyncFault::NoMemory);
    };
    let need = need_of(cells, &dues);
    let left = pool.len() - next;
    if need > u128::from(left) {
        return Err(SyncFault::PoolFull { need, left });
    }
    let behind = write_dues(
        alloc, arcs, rt, party, cells, &dues, group, tick, pool, next,
    )?;
    Ok(Synced {
        blocks: dues.len() as u32,
        bytes: behind - next,
        next: behind,
    })
}

/// Writes all dirty blocks to the pool, one behind the other from the place `next` on, by rising Oids over all cells. Each gets the pointer of
/// its place, its size, the birth `group` and its SHA-256; once it is written it is inserted into the cache under its cell's number, and is
/// clean. Where the cache has its key already, the cell keeps the block without a hold. All cells are in hand until the end; no turn of a bucket or a shard
/// is, while a block is copied, hashed or written. The party is the feeder, and holds no turn. It may wait (`dbuf_sync_list` of OpenZFS's `dbuf.c`).
pub fn sync<P: Pool>(
    alloc: Global,
    arcs: &Cells,
    rt: &impl Wait,
    party: &mut Party<HeapCell>,
    group: u64,
    tick: u64,
    pool: &mut P,
    next: u64,
) -> Result<Synced, SyncFault>
    requires party { IsPartyOf arcs.now party.old }
    requires valid { IsConfig arcs.now.config }
    requires feeder { IsFeeder arcs.now party.old }
    requires free { party.old.held ≡ [] }
    requires group { 0 < group }
    requires aligned { next % sector ≡ 0 }
    requires inside { next ≤ P.size pool.old }
    requires length { P.size pool.old ≤ 2 ^ 40 }
    ensures answer { AnswersSync P.Pool arcs.now.config group tick next pool.old pool.new party.old party.new result }
    ensures aligned { IfOk result (λ done. done.next % sector ≡ 0) }
    ensures party { IsPartyOf arcs.now party.new }
    ensures free { party.new.held ≡ [] }
    ensures number { party.new.number ≡ party.old.number }
    ensures claims { KeepsClaims party.old party.new }
{
    let Ok(mut cells) = take_all(alloc, arcs, rt, party) else {
        return Err(SyncFault::NoMemory);
    };
    let result = sync_cells(alloc, arcs, rt, party, &mut cells, group, tick, pool, next);
    give_all(arcs, party, cells);
    result
}
