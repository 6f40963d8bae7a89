//! One caller and every line: its own lines on the pool and the cache device that were handed in, and between them those that the feeder does.
ghost use Rattle.std.specs.Prelude.{◌≡◌, ◌≢◌, ◌⊎◌, ℕ, ◌<◌, ◌≤◌, ◌+◌, ◌^◌, ◌∷◌, [], IfOk, List, None, Option, Some, false, filter, length, map, slice_get, vec_len};
ghost use Rattle.vdev_io.specs.Calls.{KeepsPool};
ghost use Rattle.arc_core.specs.declared.served.Restored.{Restored};
ghost use Rattle.arc_table.specs.Geometry.{parties_of};
ghost use Rattle.dbuf_cells.specs.Turns.{dbuf_meanings};
ghost use Rattle.l2_dev.specs.Rebuilding.{HaveKeys};
ghost use Rattle.trace_text.specs.Grammar.{IsFormed, IsOperation};
ghost use Rattle.trace_text.specs.declared.op.Op.{Op};
ghost use Rattle.trace_text.specs.declared.op.Op.TheVariants as ops;
ghost use Rattle.trace_text.specs.declared.rebuilt.Rebuilt.{Rebuilt};
ghost use Rattle.trace_run.specs.Devices.{WasLent, lent_in};
ghost use Rattle.trace_run.specs.FeedSeries.{LeavesFed};
ghost use Rattle.trace_run.specs.FeedEvents.{FedJoined};
ghost use Rattle.trace_run.specs.Feeds.{IsIdleFeeder, MayBeFed};
ghost use Rattle.trace_run.specs.KeptBlocks.{Stands, read_of};
ghost use Rattle.trace_run.specs.Lines.{caller_of, has_further, has_sync, is_further, is_of_caller, is_sync};
ghost use Rattle.trace_run.specs.Meeting.{MayGoOn};
ghost use Rattle.trace_run.specs.Outcome.{HasRun};
ghost use Rattle.trace_run.specs.Restores.{found_keys};
ghost use Rattle.trace_run.specs.RunWork.{RunWork};
ghost use Rattle.trace_run.specs.Tally.{AreDeclared};
ghost use Rattle.trace_run.specs.callers.Beside.{WasInUse};
ghost use Rattle.trace_run.specs.callers.CallerLines.{at};
ghost use Rattle.trace_run.specs.callers.Callers.{AreAtStart};
ghost use Rattle.trace_run.specs.callers.Group.{LeavesDeclared, LeavesFront, LeavesPool};
ghost use Rattle.trace_run.specs.callers.GroupRun.{RanTogether};
ghost use Rattle.trace_run.specs.callers.Groups.{MaySync};
ghost use Rattle.trace_run.specs.callers.Together.{BetweenGroups, between_groups, report_of_closed};
ghost use Rattle.trace_run.specs.one_caller.Alone.{histories_of};
ghost use Rattle.trace_run.specs.one_caller.InTurn.{AreDoneInTurn, AreOwn, DidOtherLine, DidOwnLines, HaveComeInTurn, RunsInTurn, StepsInTurn};
ghost use Rattle.trace_run.specs.one_caller.LinesGone.{CameAlone};
ghost use Rattle.trace_run.specs.one_caller.OverShards.{AreNamed};

use crate::alone::run_alone;
use crate::device::Device;
use crate::feeder::feed_joined;
use crate::groups::{Came, Crew, Syncs, append, crew_of, end_line, first_place, goes_on};
use crate::kept_blocks::KeptBlocks;
use crate::lines::{all_lines, caller_of};
use crate::opening::open_cache;
use crate::ran::{Ending, Ran};
use crate::together::{close_crew, restore_crew};
use arc_core::Restored;
use arc_table::Party;
use blk_ptr::{NoMemory, Ptr};
use dbuf_cells::{Cells, HeapCell};
use std::alloc::Global;
use std::sync::Wait;
use trace_text::{Op, Reply, Trace};
use vdev_io::{CacheDev, Gate, NoCache, Pool};

/// The number of the first of these lines from this one on that is no caller's, or how many lines there are.
fn own_end(ops: &[Op], from: usize) -> usize
    requires { from ≤ length ops.now }
    ensures range { (from ≤ result) × (result ≤ length ops.now) }
    ensures own { (k : ℕ) (op : Op) → from ≤ k → k < result → slice_get ops.now k ≡ Some op → caller_of op ≢ None }
    ensures end { (op : Op) → slice_get ops.now result ≡ Some op → caller_of op ≡ None }
{
    for to in from..ops.len() {
        if caller_of(&ops[to]).is_none() {
            return to;
        }
    }
    ops.len()
}

/// Does the lines of the caller over the cache device, where one was started, or over none.
fn lines_on<P: Pool, D: CacheDev, G: Gate>(
    alloc: Global,
    rt: &impl Wait,
    arcs: &Cells,
    party: &mut Party<HeapCell>,
    kept: &mut KeptBlocks,
    pool: &mut P,
    device: &mut Device<D>,
    blocks: &[Ptr],
    ops: &[Op],
    first: u32,
    gate: &G,
) -> Result<Vec<Reply>, NoMemory>
    requires stands { Stands arcs.now party.old kept.old }
    requires declared { AreDeclared (length blocks.now) ops.now }
    requires named { AreNamed blocks.now (map read_of kept.old) }
    requires few { first + length ops.now < 2 ^ 32 }
    ensures stands { IfOk result (λ replies. Stands arcs.now party.new kept.new) }
    ensures did { IfOk result (λ replies. CameAlone P.Pool D.CacheDev arcs.now.config blocks.now (filter (is_of_caller party.old.number) ops.now) replies.items
        (at party.old (map read_of kept.old) pool.old) (at party.new (map read_of kept.new) pool.new) (lent_in device.old) (lent_in device.new)) }
    ensures pool { KeepsPool P.Pool pool.old pool.new }
    ensures device { WasLent D.CacheDev device.old device.new }
{
    match device {
        Device::Ready(l2) => all_lines(
            alloc,
            rt,
            arcs,
            party,
            kept,
            pool,
            l2.device(),
            blocks,
            ops,
            first,
            gate,
        ),
        Device::None | Device::Short(_) => all_lines(
            alloc,
            rt,
            arcs,
            party,
            kept,
            pool,
            &mut NoCache::new(),
            blocks,
            ops,
            first,
            gate,
        ),
    }
}

/// The caller does these lines, which are its own, one after another, on the pool and the cache device that were handed in. The feeder's party joins its party for that time.
fn own_lines<P: Pool, D: CacheDev, G: Gate>(
    alloc: Global,
    rt: &impl Wait,
    arcs: &Cells,
    crew: Crew<HeapCell>,
    pool: &mut P,
    device: &mut Device<D>,
    blocks: &[Ptr],
    ops: &[Op],
    first: u32,
    gate: &G,
) -> Result<(Crew<HeapCell>, Vec<Reply>), NoMemory>
    requires start { AreAtStart arcs.now blocks.now 0 crew.kept.items crew.parties.items }
    requires one { vec_len crew.parties ≡ 1 }
    requires callers { arcs.now.config.callers ≡ 1 }
    requires rows { arcs.now.row.parties ≡ parties_of arcs.now.config }
    requires feeder { IsIdleFeeder arcs.now crew.feeder }
    requires declared { AreDeclared (length blocks.now) ops.now }
    requires own { AreOwn ops.now }
    requires few { first + length ops.now < 2 ^ 32 }
    ensures did { IfOk result (λ done. DidOwnLines arcs.now P.Pool D.CacheDev blocks.now ops.now pool.old pool.new (lent_in device.old) (lent_in device.new) crew done.0 done.1.items) }
    ensures pool { KeepsPool P.Pool pool.old pool.new }
    ensures device { WasLent D.CacheDev device.old device.new }
{
    let Crew {
        feeder,
        mut parties,
        mut kept,
    } = crew;
    let Some(mut party) = parties.pop() else {
        unreachable!()
    };
    let Some(mut reads) = kept.pop() else {
        unreachable!()
    };
    arcs.join(&mut party, feeder);
    let replies = lines_on(
        alloc, rt, arcs, &mut party, &mut reads, pool, device, blocks, ops, first, gate,
    )?;
    let feeder = arcs.part(&mut party, 1);
    parties.push(party)?;
    kept.push(reads)?;
    let crew = Crew {
        feeder,
        parties,
        kept,
    };
    Ok((crew, replies))
}

/// Does a line `feed`, while the caller has joined the feeder.
fn feed_alone<D: CacheDev>(
    alloc: Global,
    rt: &impl Wait,
    arcs: &Cells,
    crew: Crew<HeapCell>,
    device: &mut Device<D>,
) -> Result<(Crew<HeapCell>, Reply), NoMemory>
    requires may { MayGoOn arcs.now [] crew.feeder crew.parties.items }
    requires feeder { IsIdleFeeder arcs.now crew.feeder }
    requires device { MayBeFed D.CacheDev arcs.now.config device.old }
    ensures fed { IfOk result (λ done. FedJoined dbuf_meanings D.CacheDev arcs.now done.1 device.old device.new crew.feeder crew.parties.items done.0.feeder done.0.parties.items) }
    ensures kept { IfOk result (λ done. done.0.kept ≡ crew.kept) }
    ensures device { MayBeFed D.CacheDev arcs.now.config device.new }
    ensures used { WasInUse D.CacheDev (ops.Feed ∷ []) device.old device.new }
{
    let Crew {
        feeder,
        parties,
        kept,
    } = crew;
    let (feeder, parties, reply) = feed_joined(alloc, rt, arcs, feeder, parties, device)?;
    let crew = Crew {
        feeder,
        parties,
        kept,
    };
    Ok((crew, reply))
}

/// Does a line that is no caller's. The lines end here where a sync stopped.
fn other_line<P: Pool, D: CacheDev>(
    alloc: Global,
    rt: &impl Wait,
    arcs: &Cells,
    crew: Crew<HeapCell>,
    op: &Op,
    syncs: Syncs,
    pool: &mut P,
    device: &mut Device<D>,
) -> Result<(Crew<HeapCell>, Syncs, Result<Reply, Ending>), NoMemory>
    requires nobody { caller_of op.now ≡ None }
    requires may { MayGoOn arcs.now [] crew.feeder crew.parties.items }
    requires feeder { IsIdleFeeder arcs.now crew.feeder }
    requires device { MayBeFed D.CacheDev arcs.now.config device.old }
    requires possible { IsOperation arcs.now.config.callers arcs.now.config.shards op.now }
    requires sync { (lines : ℕ) × (lines < 2 ^ 32) × MaySync P.Pool lines (between_groups pool.old syncs.group syncs.next) }
    ensures did { IfOk result (λ done. DidOtherLine arcs.now P.Pool D.CacheDev op.now (between_groups pool.old syncs.group syncs.next) (between_groups pool.new done.1.group done.1.next) device.old device.new crew done.0 done.2) }
    ensures later { IfOk result (λ done. syncs.next ≤ done.1.next) }
    ensures pool { LeavesFront P.Pool syncs.next pool.old pool.new }
    ensures still { is_sync op.now ≡ false → LeavesPool P.Pool pool.old pool.new }
    ensures used { WasInUse D.CacheDev (op.now ∷ []) device.old device.new }
    ensures device { MayBeFed D.CacheDev arcs.now.config device.new }
{
    match op {
        Op::Feed => {
            let (crew, reply) = feed_alone(alloc, rt, arcs, crew, device)?;
            Ok((crew, syncs, Ok(reply)))
        }
        Op::Txg { .. } | Op::Cap { .. } => end_line(alloc, rt, arcs, crew, op, syncs, pool),
        Op::Read { .. } | Op::Hold { .. } | Op::Drop { .. } => unreachable!(),
        Op::Get { .. } | Op::Put { .. } | Op::Patch { .. } | Op::Pin { .. } | Op::Unpin { .. } => {
            unreachable!()
        }
    }
}

/// Does the caller's next lines, up to one that is no caller's; or that one, where it is the next. The lines end there where a sync stopped.
fn next_lines<P: Pool, D: CacheDev, G: Gate>(
    alloc: Global,
    rt: &impl Wait,
    arcs: &Cells,
    trace: &Trace,
    crew: Crew<HeapCell>,
    syncs: Syncs,
    replies: &mut Vec<Reply>,
    pool: &mut P,
    device: &mut Device<D>,
    gate: &G,
) -> Result<(Crew<HeapCell>, Syncs, Ending), NoMemory>
    requires formed { IsFormed trace.now }
    requires config { arcs.now.config ≡ trace.now.config }
    requires one { arcs.now.config.callers ≡ 1 }
    requires rows { arcs.now.row.parties ≡ parties_of arcs.now.config }
    requires device { MayBeFed D.CacheDev arcs.now.config device.old }
    requires between { (start : BetweenGroups P) × (restored : List Restored) × (was : Device D) × (work : RunWork)
        × HaveComeInTurn arcs.now restored P.Pool D.CacheDev trace.now start (between_groups pool.old syncs.group syncs.next) was device.old replies.old.items work crew }
    requires more { vec_len replies.old < length trace.now.ops }
    ensures did { (start : BetweenGroups P) (restored : List Restored) (was : Device D) (work : RunWork)
        → HaveComeInTurn arcs.now restored P.Pool D.CacheDev trace.now start (between_groups pool.old syncs.group syncs.next) was device.old replies.old.items work crew
        → IfOk result (λ done. StepsInTurn arcs.now restored P.Pool D.CacheDev trace.now start (between_groups pool.new done.1.group done.1.next) was device.new replies.old.items replies.new.items done.2 done.0) }
    ensures later { IfOk result (λ done. syncs.next ≤ done.1.next) }
    ensures pool { LeavesFront P.Pool syncs.next pool.old pool.new }
    ensures still { has_sync trace.now.ops ≡ false → LeavesPool P.Pool pool.old pool.new }
    ensures used { WasInUse D.CacheDev trace.now.ops device.old device.new }
    ensures device { MayBeFed D.CacheDev arcs.now.config device.new }
{
    let ops = trace.ops.as_slice();
    let first = replies.len();
    let to = own_end(ops, first);
    if first < to {
        let blocks = trace.blocks.as_slice();
        let lines = &ops[first..to];
        let (crew, answered) = own_lines(
            alloc,
            rt,
            arcs,
            crew,
            pool,
            device,
            blocks,
            lines,
            first as u32,
            gate,
        )?;
        append(replies, answered)?;
        return Ok((crew, syncs, Ending::Whole));
    }
    let (crew, syncs, came) = other_line(alloc, rt, arcs, crew, &ops[first], syncs, pool, device)?;
    match came {
        Ok(reply) => {
            replies.push(reply)?;
            Ok((crew, syncs, Ending::Whole))
        }
        Err(ending) => Ok((crew, syncs, ending)),
    }
}

/// Does all lines of a trace of one caller, one after another, up to a sync that stops.
fn all_in_turn<P: Pool, D: CacheDev, G: Gate>(
    alloc: Global,
    rt: &impl Wait,
    arcs: &Cells,
    trace: &Trace,
    crew: Crew<HeapCell>,
    syncs: Syncs,
    pool: &mut P,
    device: &mut Device<D>,
    gate: &G,
) -> Result<Came<HeapCell>, NoMemory>
    requires formed { IsFormed trace.now }
    requires config { arcs.now.config ≡ trace.now.config }
    requires one { arcs.now.config.callers ≡ 1 }
    requires rows { arcs.now.row.parties ≡ parties_of arcs.now.config }
    requires device { MayBeFed D.CacheDev arcs.now.config device.old }
    requires between { (restored : List Restored) × (work : RunWork)
        × HaveComeInTurn arcs.now restored P.Pool D.CacheDev trace.now (between_groups pool.old syncs.group syncs.next) (between_groups pool.old syncs.group syncs.next) device.old device.old [] work crew }
    ensures done { (restored : List Restored) (work : RunWork)
        → HaveComeInTurn arcs.now restored P.Pool D.CacheDev trace.now (between_groups pool.old syncs.group syncs.next) (between_groups pool.old syncs.group syncs.next) device.old device.old [] work crew
        → IfOk result (λ came. (all : RunWork) × AreDoneInTurn arcs.now restored P.Pool D.CacheDev trace.now (between_groups pool.old syncs.group syncs.next) pool.new device.old device.new came.ending came.replies.items all came.crew) }
    ensures pool { LeavesFront P.Pool syncs.next pool.old pool.new }
    ensures still { has_sync trace.now.ops ≡ false → LeavesPool P.Pool pool.old pool.new }
    ensures used { WasInUse D.CacheDev trace.now.ops device.old device.new }
{
    let mut crew = crew;
    let mut syncs = syncs;
    let mut replies = Vec::new(alloc);
    while replies.len() < trace.ops.as_slice().len() {
        let (after, later, ending) = next_lines(
            alloc,
            rt,
            arcs,
            trace,
            crew,
            syncs,
            &mut replies,
            pool,
            device,
            gate,
        )?;
        crew = after;
        syncs = later;
        if !goes_on(ending) {
            return Ok(Came {
                crew,
                replies,
                ending,
            });
        }
    }
    Ok(Came {
        crew,
        replies,
        ending: Ending::Whole,
    })
}

/// Whether an operation is on an object, or a sync, or a feed.
fn is_further(op: &Op) -> bool
    ensures { result ≡ is_further op.now }
{
    match op {
        Op::Read { .. } | Op::Hold { .. } | Op::Drop { .. } | Op::Cap { .. } => false,
        Op::Get { .. } | Op::Put { .. } | Op::Patch { .. } | Op::Pin { .. } | Op::Unpin { .. } => {
            true
        }
        Op::Feed | Op::Txg { .. } => true,
    }
}

/// Whether one of these operations is.
fn has_further(ops: &[Op]) -> bool
    ensures { result ≡ has_further ops.now }
{
    ops.iter().any(|op| is_further(op))
}

/// Runs a trace of one caller with any lines: one after another, over the pool and the cache device that are handed in, once these keys are
/// restored. Where a sync stops, no line behind it is done.
fn run_one<P: Pool, D: CacheDev, G: Gate>(
    alloc: Global,
    rt: &impl Wait,
    trace: &Trace,
    restored: &[Restored],
    pool: &mut P,
    device: &mut Device<D>,
    gate: &G,
) -> Result<Ran, NoMemory>
    requires formed { IsFormed trace.now }
    requires one { trace.now.config.callers ≡ 1 }
    requires keys { HaveKeys restored.now }
    requires device { MayBeFed D.CacheDev trace.now.config device.old }
    ensures ran { IfOk result (λ ran. (work : RunWork) × (together : RanTogether P.Pool D.CacheDev pool.old pool.new (lent_in device.old) (lent_in device.new) trace.now ran.ending restored.now ran.replies.items work ran.closed)
        × ((rebuilt : Option Rebuilt) → found_keys rebuilt ≡ restored.now
        → RunsInTurn P.Pool D.CacheDev pool.old pool.new (lent_in device.old) (lent_in device.new) together.place trace.now ran.ending work together.explained.owner ran.closed.cells (report_of_closed ran.ending rebuilt ran.replies.items ran.closed))
        × LeavesFed D.CacheDev trace.now.config restored.now work.feeds device.old device.new (histories_of ran.closed)) }
    ensures pool { LeavesDeclared P.Pool trace.now.blocks pool.old pool.new }
    ensures still { has_sync trace.now.ops ≡ false → LeavesPool P.Pool pool.old pool.new }
    ensures device { WasInUse D.CacheDev trace.now.ops device.old device.new }
{
    let (arcs, parties) = open_cache(alloc, trace)?;
    let crew = crew_of(alloc, parties)?;
    let crew = restore_crew(alloc, rt, &arcs, crew, restored)?;
    let syncs = Syncs {
        group: 1,
        next: first_place(trace.blocks.as_slice(), pool.len()),
    };
    let Came {
        crew,
        replies,
        ending,
    } = all_in_turn(alloc, rt, &arcs, trace, crew, syncs, pool, device, gate)?;
    let closed = close_crew(alloc, rt, arcs, crew)?;
    Ok(Ran {
        replies,
        closed,
        ending,
    })
}

/// Runs a trace of one caller. Where no line is on an object, and there is no sync and no feed, its report is a plain function.
pub(crate) fn run_single<P: Pool, D: CacheDev, G: Gate>(
    alloc: Global,
    rt: &impl Wait,
    trace: &Trace,
    restored: &[Restored],
    pool: &mut P,
    device: &mut Device<D>,
    gate: &G,
) -> Result<Ran, NoMemory>
    requires formed { IsFormed trace.now }
    requires one { trace.now.config.callers ≡ 1 }
    requires keys { HaveKeys restored.now }
    requires device { MayBeFed D.CacheDev trace.now.config device.old }
    ensures ran { IfOk result (λ ran. (rebuilt : Option Rebuilt) → found_keys rebuilt ≡ restored.now
        → (run : HasRun P.Pool D.CacheDev pool.old pool.new (lent_in device.old) (lent_in device.new) trace.now ran.ending ran.closed (report_of_closed ran.ending rebuilt ran.replies.items ran.closed))
        × LeavesFed D.CacheDev trace.now.config restored.now run.work.feeds device.old device.new (histories_of ran.closed)) }
    ensures pool { LeavesDeclared P.Pool trace.now.blocks pool.old pool.new }
    ensures still { has_sync trace.now.ops ≡ false → P.told pool.new ≡ P.told pool.old }
    ensures device { WasInUse D.CacheDev trace.now.ops device.old device.new }
{
    if has_further(trace.ops.as_slice()) {
        let ran = run_one(alloc, rt, trace, restored, pool, device, gate)?;
        return Ok(ran);
    }
    let ran = run_alone(alloc, rt, trace, restored, pool, device, gate)?;
    Ok(ran)
}
