//! The keys that were found on the cache device: the feeder restores them while all callers have joined it, before any line is done.
ghost use Rattle.std.specs.Prelude.{◌≡◌, [], IfOk};
ghost use Rattle.l2_dev.specs.Rebuilding.{HaveKeys};
ghost use Rattle.trace_run.specs.Meeting.{MadeJoined, MayGoOn};
ghost use Rattle.trace_run.specs.Restores.{restores_in};

use crate::ending::{join_all, numbers_of, part_all};
use arc_core::{Keeps, Restored};
use arc_table::{Arcs, Party};
use blk_ptr::NoMemory;
use std::alloc::Global;
use std::sync::Wait;

/// Each of these keys gets an entry that says where it stands on the device, in this order. The callers join the feeder before, and part from
/// it behind.
pub(crate) fn restore_joined<C: Keeps>(
    alloc: Global,
    rt: &impl Wait,
    arcs: &Arcs<C>,
    mut feeder: Party<C>,
    callers: Vec<Party<C>>,
    restored: &[Restored],
) -> Result<(Party<C>, Vec<Party<C>>), NoMemory>
    requires may { MayGoOn arcs.now [] feeder callers.items }
    requires feeder { feeder.number ≡ arcs.now.config.callers }
    requires keys { HaveKeys restored.now }
    ensures { IfOk result (λ r. MadeJoined arcs.now (restores_in arcs.now.config restored.now) feeder callers.items r.0 r.1.items) }
{
    let numbers = numbers_of(alloc, &callers)?;
    join_all(arcs, &mut feeder, callers);
    if arcs.restore(rt, &mut feeder, restored).is_err() {
        return Err(NoMemory);
    }
    let callers = part_all(alloc, arcs, &mut feeder, numbers)?;
    Ok((feeder, callers))
}
