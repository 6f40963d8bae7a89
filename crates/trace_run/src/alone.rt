//! The run of a trace with one caller over the shared cache, whose lines are reads, holds, drops and capacities.
ghost use Rattle.std.specs.Prelude.{◌≡◌, ℕ, [], IfOk, List, None, false, map};
ghost use Rattle.arc_lists.specs.Adapting.{IsCapacity};
ghost use Rattle.arc_table.specs.Geometry.{parties_of};
ghost use Rattle.arc_table.specs.Reading.{KeepsDevice};
ghost use Rattle.arc_table.specs.Seen.{HasAll};
ghost use Rattle.vdev_io.specs.Calls.{Call, KeepsPool};
ghost use Rattle.l2_dev.specs.Rebuilding.{HaveKeys};
ghost use Rattle.trace_text.specs.Grammar.{IsFormed, IsOperation};
ghost use Rattle.trace_run.specs.declared.kept_blocks.KeptBlock.{KeptBlock};
ghost use Rattle.trace_run.specs.one_caller.Alone.{RanAlone};
ghost use Rattle.trace_run.specs.callers.CallerLines.{DidLines, HasFed, HasResized, at};
ghost use Rattle.trace_run.specs.RunWork.{only_ended};
ghost use Rattle.trace_run.specs.dbufs.CellEnds.{AreCellsOf, HasSeenEnds};
ghost use Rattle.trace_run.specs.KeptBlocks.{Stands, read_of};
ghost use Rattle.trace_run.specs.Lines.{caller_of, has_further, is_further};
ghost use Rattle.trace_run.specs.Meeting.{HasFeeder};
ghost use Rattle.trace_run.specs.Opened.{AreOpened, HasJoined};
ghost use Rattle.trace_run.specs.Openings.{AllKnow, openings_of};
ghost use Rattle.trace_run.specs.Devices.{WasLent, lent_in};
ghost use Rattle.trace_run.specs.one_caller.Asking.{AsksLines};
ghost use Rattle.trace_run.specs.one_caller.Lent.{ReadsAlone};
ghost use Rattle.trace_run.specs.one_caller.OverShards.{AreNamed};
ghost use Rattle.trace_run.specs.Reads.{now_of};
ghost use Rattle.trace_run.specs.Restores.{restored_shard, restores_in};

use crate::cells::end_cells_joined;
use crate::device::Device;
use crate::kept_blocks::{KeptBlocks, give_back_all};
use crate::lines::{is_of_caller, line};
use crate::opening::open_cache;
use crate::ran::{Ending, Ran};
use crate::resizing::resize_joined;
use crate::restoring::restore_joined;
use arc_core::Restored;
use arc_table::Party;
use blk_ptr::NoMemory;
use dbuf_cells::{Cells, HeapCell};
use std::alloc::Global;
use std::sync::Wait;
use trace_text::{Op, Reply, Trace};
use vdev_io::{CacheDev, Gate, NoCache, Pool};

/// The party of the one caller, which the feeder's has joined.
fn only_party(arcs: &Cells, mut parties: Vec<Party<HeapCell>>) -> Party<HeapCell>
    requires one { arcs.now.config.callers ≡ 1 }
    requires opened { AreOpened arcs.now parties.items }
    ensures joined { HasJoined arcs.now (parties_of arcs.now.config) result }
    ensures feeder { (openings : List (List ℕ)) → AllKnow openings parties.items → HasFeeder arcs.now openings result }
{
    let feeder = parties.remove(1);
    let mut party = parties.remove(0);
    arcs.join(&mut party, feeder);
    party
}

/// Gives every shard this capacity. The feeder does it: it parts from the caller's party, which joins it for that time, and then joins that party
/// again.
fn resize_alone(
    alloc: Global,
    rt: &impl Wait,
    arcs: &Cells,
    mut party: Party<HeapCell>,
    c: u64,
) -> Result<Party<HeapCell>, NoMemory>
    requires one { arcs.now.config.callers ≡ 1 }
    requires number { party.number ≡ 0 }
    requires stands { (kept : List KeptBlock) × Stands arcs.now party kept }
    requires joined { (openings : List (List ℕ)) × HasFeeder arcs.now openings party }
    requires rows { arcs.now.row.parties ≡ parties_of arcs.now.config }
    requires capacity { IsCapacity c }
    ensures stands { (kept : List KeptBlock) → Stands arcs.now party kept → IfOk result (λ q. Stands arcs.now q kept) }
    ensures joined { (openings : List (List ℕ)) → HasFeeder arcs.now openings party → IfOk result (HasFeeder arcs.now openings) }
    ensures did { IfOk result (HasResized arcs.now.config c party) }
{
    let feeder = arcs.part(&mut party, 1);
    let callers = vec![in alloc; party]?;
    let (feeder, mut callers) = resize_joined(alloc, rt, arcs, feeder, callers, c)?;
    let Some(mut party) = callers.pop() else {
        unreachable!()
    };
    arcs.join(&mut party, feeder);
    Ok(party)
}

/// Ends all cells. The feeder does it: it parts from the caller's party, which joins it for that time, and then joins that party again.
fn end_alone(
    alloc: Global,
    rt: &impl Wait,
    arcs: &Cells,
    mut party: Party<HeapCell>,
) -> Result<Party<HeapCell>, NoMemory>
    requires one { arcs.now.config.callers ≡ 1 }
    requires number { party.number ≡ 0 }
    requires stands { Stands arcs.now party [] }
    requires joined { (openings : List (List ℕ)) × HasFeeder arcs.now openings party }
    requires rows { arcs.now.row.parties ≡ parties_of arcs.now.config }
    ensures { (openings : List (List ℕ)) → HasFeeder arcs.now openings party → IfOk result (HasSeenEnds arcs.now openings party) }
{
    let feeder = arcs.part(&mut party, 1);
    let callers = vec![in alloc; party]?;
    let (feeder, mut callers) = end_cells_joined(alloc, rt, arcs, feeder, callers)?;
    let Some(mut party) = callers.pop() else {
        unreachable!()
    };
    arcs.join(&mut party, feeder);
    Ok(party)
}

/// Restores the keys that were found on the cache device. The feeder does it, as it gives a capacity.
fn restore_alone(
    alloc: Global,
    rt: &impl Wait,
    arcs: &Cells,
    mut party: Party<HeapCell>,
    restored: &[Restored],
) -> Result<Party<HeapCell>, NoMemory>
    requires one { arcs.now.config.callers ≡ 1 }
    requires number { party.number ≡ 0 }
    requires stands { Stands arcs.now party [] }
    requires joined { (openings : List (List ℕ)) × HasFeeder arcs.now openings party }
    requires rows { arcs.now.row.parties ≡ parties_of arcs.now.config }
    requires keys { HaveKeys restored.now }
    ensures stands { IfOk result (λ q. Stands arcs.now q []) }
    ensures joined { (openings : List (List ℕ)) → HasFeeder arcs.now openings party → IfOk result (HasFeeder arcs.now openings) }
    ensures fed { IfOk result (HasFed arcs.now.config (restores_in arcs.now.config restored.now) party) }
{
    let feeder = arcs.part(&mut party, 1);
    let callers = vec![in alloc; party]?;
    let (feeder, mut callers) = restore_joined(alloc, rt, arcs, feeder, callers, restored)?;
    let Some(mut party) = callers.pop() else {
        unreachable!()
    };
    arcs.join(&mut party, feeder);
    Ok(party)
}

/// Does a line that is no caller's, where it is no feed and no sync.
fn other_line(
    alloc: Global,
    rt: &impl Wait,
    arcs: &Cells,
    party: Party<HeapCell>,
    op: &Op,
) -> Result<(Party<HeapCell>, Reply), NoMemory>
    requires one { arcs.now.config.callers ≡ 1 }
    requires number { party.number ≡ 0 }
    requires stands { (kept : List KeptBlock) × Stands arcs.now party kept }
    requires joined { (openings : List (List ℕ)) × HasFeeder arcs.now openings party }
    requires rows { arcs.now.row.parties ≡ parties_of arcs.now.config }
    requires possible { IsOperation arcs.now.config.callers arcs.now.config.shards op.now }
    requires nobody { caller_of op.now ≡ None }
    requires plain { is_further op.now ≡ false }
    ensures stands { (kept : List KeptBlock) → Stands arcs.now party kept → IfOk result (λ r. Stands arcs.now r.0 kept) }
    ensures joined { (openings : List (List ℕ)) → HasFeeder arcs.now openings party → IfOk result (λ r. HasFeeder arcs.now openings r.0) }
    ensures did { IfOk result (λ r. (c : ℕ) × (op.now ≡ Op.Cap c) × (r.1 ≡ Reply.Capped c) × HasResized arcs.now.config c party r.0) }
{
    match *op {
        Op::Cap { c } => {
            let party = resize_alone(alloc, rt, arcs, party, c)?;
            Ok((party, Reply::Capped { c }))
        }
        Op::Read { .. } | Op::Hold { .. } | Op::Drop { .. } | Op::Feed | Op::Txg { .. } =>
            unreachable!(),
        Op::Get { .. } | Op::Put { .. } | Op::Patch { .. } | Op::Pin { .. } | Op::Unpin { .. } => {
            unreachable!()
        }
    }
}

/// Does all lines of a trace of one caller, one after another, over the pool and the cache device that are handed in: reads, holds, drops and capacities.
fn lines_alone<P: Pool, D: CacheDev, G: Gate>(
    alloc: Global,
    rt: &impl Wait,
    arcs: &Cells,
    trace: &Trace,
    party: Party<HeapCell>,
    kept: &mut KeptBlocks,
    pool: &mut P,
    device: &mut D,
    gate: &G,
) -> Result<(Party<HeapCell>, Vec<Reply>), NoMemory>
    requires formed { IsFormed trace.now }
    requires config { arcs.now.config ≡ trace.now.config }
    requires one { trace.now.config.callers ≡ 1 }
    requires rows { arcs.now.row.parties ≡ parties_of arcs.now.config }
    requires number { party.number ≡ 0 }
    requires stands { Stands arcs.now party kept.old }
    requires named { AreNamed trace.now.blocks (map read_of kept.old) }
    requires joined { HasFeeder arcs.now (openings_of trace.now) party }
    requires plain { has_further trace.now.ops ≡ false }
    ensures stands { IfOk result (λ r. Stands arcs.now r.0 kept.new) }
    ensures did { IfOk result (λ r. DidLines arcs.now.config P.Pool trace.now.blocks trace.now.ops r.1.items
        (at party (map read_of kept.old) pool.old) (at r.0 (map read_of kept.new) pool.new)) }
    ensures asks { HasAll party → IfOk result (λ r. (calls : List Call) × AsksLines D.CacheDev arcs.now.config.shards trace.now.blocks (λ shard. now_of arcs.now.config shard party)
        (map read_of kept.old) trace.now.ops r.1.items calls device.old device.new) }
    ensures joined { IfOk result (λ r. HasFeeder arcs.now (openings_of trace.now) r.0) }
    ensures pool { KeepsPool P.Pool pool.old pool.new }
    ensures device { KeepsDevice D.CacheDev device.old device.new }
{
    let caller = party.number();
    let mut party = party;
    let mut replies = Vec::new(alloc);
    let blocks = trace.blocks.as_slice();
    let ops = trace.ops.as_slice();
    for (number, op) in ops.iter().enumerate() {
        if !is_of_caller(op, caller) {
            let (after, reply) = other_line(alloc, rt, arcs, party, op)?;
            party = after;
            replies.push(reply)?;
            continue;
        }
        gate.before(caller, number as u32);
        let reply = line(alloc, rt, arcs, &mut party, kept, pool, device, blocks, op)?;
        gate.after(caller, number as u32);
        replies.push(reply)?;
    }
    Ok((party, replies))
}

/// Runs a trace of one caller: its lines, one after another, over the pool and the cache device that are handed in, once these keys are restored.
fn run_over<P: Pool, D: CacheDev, G: Gate>(
    alloc: Global,
    rt: &impl Wait,
    trace: &Trace,
    restored: &[Restored],
    pool: &mut P,
    device: &mut D,
    gate: &G,
) -> Result<Ran, NoMemory>
    requires formed { IsFormed trace.now }
    requires one { trace.now.config.callers ≡ 1 }
    requires keys { HaveKeys restored.now }
    requires plain { has_further trace.now.ops ≡ false }
    ensures ran { IfOk result (λ ran. RanAlone P.Pool pool.old pool.new trace.now restored.now ran.replies.items ran.closed) }
    ensures asks { IfOk result (λ ran. (calls : List Call) × AsksLines D.CacheDev trace.now.config.shards trace.now.blocks (restored_shard trace.now.config restored.now) []
        trace.now.ops ran.replies.items calls device.old device.new) }
    ensures cells { IfOk result (λ ran. AreCellsOf trace.now (only_ended trace.now.config) ran.closed) }
    ensures whole { IfOk result (λ ran. ran.ending ≡ Ending.Whole) }
    ensures pool { KeepsPool P.Pool pool.old pool.new }
    ensures device { KeepsDevice D.CacheDev device.old device.new }
{
    let (arcs, parties) = open_cache(alloc, trace)?;
    let party = only_party(&arcs, parties);
    let party = restore_alone(alloc, rt, &arcs, party, restored)?;
    let mut kept = KeptBlocks::new(alloc);
    let (mut party, replies) = lines_alone(
        alloc, rt, &arcs, trace, party, &mut kept, pool, device, gate,
    )?;
    give_back_all(rt, &arcs, &mut party, kept);
    let party = end_alone(alloc, rt, &arcs, party)?;
    let closed = arcs.close(vec![in alloc; party]?)?;
    Ok(Ran {
        replies,
        closed,
        ending: Ending::Whole,
    })
}

/// Runs a trace of one caller over the pool that is handed in, and over the cache device, where it was started.
pub(crate) fn run_alone<P: Pool, D: CacheDev, G: Gate>(
    alloc: Global,
    rt: &impl Wait,
    trace: &Trace,
    restored: &[Restored],
    pool: &mut P,
    device: &mut Device<D>,
    gate: &G,
) -> Result<Ran, NoMemory>
    requires formed { IsFormed trace.now }
    requires one { trace.now.config.callers ≡ 1 }
    requires keys { HaveKeys restored.now }
    requires plain { has_further trace.now.ops ≡ false }
    ensures ran { IfOk result (λ ran. RanAlone P.Pool pool.old pool.new trace.now restored.now ran.replies.items ran.closed) }
    ensures read { IfOk result (λ ran. ReadsAlone P.Pool D.CacheDev pool.old trace.now restored.now ran.replies.items (lent_in device.old) (lent_in device.new)) }
    ensures cells { IfOk result (λ ran. AreCellsOf trace.now (only_ended trace.now.config) ran.closed) }
    ensures whole { IfOk result (λ ran. ran.ending ≡ Ending.Whole) }
    ensures pool { KeepsPool P.Pool pool.old pool.new }
    ensures device { WasLent D.CacheDev device.old device.new }
{
    match device {
        Device::Ready(l2) => run_over(alloc, rt, trace, restored, pool, l2.device(), gate),
        Device::None => run_over(alloc, rt, trace, restored, pool, &mut NoCache::new(), gate),
        Device::Short(_) => run_over(alloc, rt, trace, restored, pool, &mut NoCache::new(), gate),
    }
}
