//! A new capacity of all shards, done by the feeder while all callers have joined it.
ghost use Rattle.std.specs.Prelude.{◌≡◌, [], IfOk};
ghost use Rattle.arc_lists.specs.Adapting.{IsCapacity};
ghost use Rattle.trace_run.specs.Meeting.{MayGoOn, Resized};

use crate::ending::{join_all, numbers_of, part_all};
use arc_core::Keeps;
use arc_table::{Arcs, Party};
use blk_ptr::NoMemory;
use std::alloc::Global;
use std::sync::Wait;

/// Every shard has a capacity of `c` bytes from now on. The callers join the feeder before, so that all that they did stands before it, and part
/// from it behind.
pub(crate) fn resize_joined<C: Keeps>(
    alloc: Global,
    rt: &impl Wait,
    arcs: &Arcs<C>,
    mut feeder: Party<C>,
    callers: Vec<Party<C>>,
    c: u64,
) -> Result<(Party<C>, Vec<Party<C>>), NoMemory>
    requires may { MayGoOn arcs.now [] feeder callers.items }
    requires feeder { feeder.number ≡ arcs.now.config.callers }
    requires capacity { IsCapacity c }
    ensures { IfOk result (λ r. Resized arcs.now c feeder callers.items r.0 r.1.items) }
{
    let numbers = numbers_of(alloc, &callers)?;
    join_all(arcs, &mut feeder, callers);
    if arcs.resize(rt, &mut feeder, c).is_err() {
        return Err(NoMemory);
    }
    let callers = part_all(alloc, arcs, &mut feeder, numbers)?;
    Ok((feeder, callers))
}
