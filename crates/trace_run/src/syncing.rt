//! The sync at the end of a group, done by the feeder while all callers have joined it.
ghost use Rattle.std.specs.Prelude.{◌≡◌, ◌<◌, ◌≤◌, ◌%◌, ◌∷◌, [], IfOk, false};
ghost use Rattle.std.specs.List.{AllByRecursion};
ghost use Rattle.blk_ptr.specs.Size.{sector};
ghost use Rattle.trace_run.specs.callers.Group.{LeavesFront, LeavesPool};
ghost use Rattle.trace_run.specs.Making.{AreNoEntries};
ghost use Rattle.trace_run.specs.Meeting.{MayGoOn};
ghost use Rattle.trace_run.specs.Syncing.{SyncedJoined, wants_memory};

use crate::ending::{join_all, numbers_of, part_all};
use arc_table::Party;
use blk_ptr::NoMemory;
use dbuf_cells::{Cells, HeapCell};
use std::alloc::Global;
use std::sync::Wait;
use txg_sync::{SyncFault, Synced, sync};
use vdev_io::Pool;

/// The longest pool whose blocks are synced, in bytes.
const LONGEST_POOL: u64 = 1 << 40;

/// The callers' parties and the feeder's behind a sync, and what it came to.
pub(crate) struct AfterSync {
    pub(crate) feeder: Party<HeapCell>,
    pub(crate) callers: Vec<Party<HeapCell>>,
    pub(crate) came: Result<Synced, SyncFault>,
}

/// Whether a sync was refused memory.
fn wants_memory(came: &Result<Synced, SyncFault>) -> bool
    ensures { result ≡ wants_memory came.now }
{
    matches!(came, Err(SyncFault::NoMemory))
}

/// All dirty blocks are written to the pool, one behind the other from the place `next` on. The callers join the feeder before, so that all that
/// they did stands before it, and part from it behind; so they do where the sync stopped, since the pool failed or has no room.
pub(crate) fn sync_joined<P: Pool>(
    alloc: Global,
    rt: &impl Wait,
    arcs: &Cells,
    mut feeder: Party<HeapCell>,
    callers: Vec<Party<HeapCell>>,
    group: u64,
    tick: u64,
    pool: &mut P,
    next: u64,
) -> Result<AfterSync, NoMemory>
    requires may { MayGoOn arcs.now [] feeder callers.items }
    requires feeder { feeder.number ≡ arcs.now.config.callers }
    requires group { 0 < group }
    requires aligned { next % sector ≡ 0 }
    requires inside { next ≤ P.size pool.old }
    ensures synced { IfOk result (λ r. SyncedJoined P.Pool arcs.now group tick next pool.old pool.new feeder callers.items r.feeder r.callers.items r.came) }
    ensures some { IfOk result (λ r. wants_memory r.came ≡ false) }
    ensures aligned { IfOk result (λ r. IfOk r.came (λ done. done.next % sector ≡ 0)) }
    ensures front { LeavesFront P.Pool next pool.old pool.new }
    ensures still { AllByRecursion (λ o. AreNoEntries arcs.now.config o.own.mine) (feeder ∷ callers.items) → LeavesPool P.Pool pool.old pool.new }
{
    if pool.len() > LONGEST_POOL {
        return Err(NoMemory);
    }
    let numbers = numbers_of(alloc, &callers)?;
    join_all(arcs, &mut feeder, callers);
    let came = sync(alloc, arcs, rt, &mut feeder, group, tick, pool, next);
    if wants_memory(&came) {
        return Err(NoMemory);
    }
    let callers = part_all(alloc, arcs, &mut feeder, numbers)?;
    Ok(AfterSync {
        feeder,
        callers,
        came,
    })
}
