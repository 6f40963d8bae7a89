//! Several callers, group by group: the lines of a group at once, and then the line that ends it.
ghost use Rattle.std.specs.Prelude.{◌≡◌, ◌⊎◌, ℕ, ◌<◌, ◌≤◌, ◌+◌, ◌%◌, ◌^◌, ◌++◌, ◌∷◌, [], IfOk, List, OnOk, Option, Some, false, length, slice_get, true, vec_len};
ghost use Rattle.std.specs.List.{AllByRecursion};
ghost use Rattle.arc_core.specs.declared.served.Restored.{Restored};
ghost use Rattle.arc_table.specs.Geometry.{parties_of};
ghost use Rattle.arc_table.specs.declared.view.Known.{Known};
ghost use Rattle.dbuf_cells.specs.Turns.{OnHeap, dbuf_meanings};
ghost use Rattle.turn_table.specs.Places.{Place};
ghost use Rattle.blk_ptr.specs.Key.{IsValid, key_end};
ghost use Rattle.blk_ptr.specs.Size.{sector};
ghost use Rattle.trace_text.specs.Grammar.{IsFormed, IsOperation};
ghost use Rattle.trace_text.specs.declared.op.Op.{Op};
ghost use Rattle.trace_text.specs.declared.reply.Reply.{Reply};
ghost use Rattle.trace_run.specs.callers.Callers.{AreAtStart};
ghost use Rattle.trace_run.specs.Feeds.{IsIdleFeeder, MayBeFed};
ghost use Rattle.trace_run.specs.RunWork.{RunWork};
ghost use Rattle.trace_run.specs.callers.Beside.{TriesBeside, WasInUse};
ghost use Rattle.trace_run.specs.callers.InOrder.{AreInGroup};
ghost use Rattle.trace_run.specs.callers.Group.{IsFork, LeavesFront, LeavesPool};
ghost use Rattle.trace_run.specs.callers.Groups.{AreBetween, DidEndLine, DidLinesAtOnce, DidSync, AreDone, KeepNothing, MaySync, StepsOn, goes_on};
ghost use Rattle.trace_run.specs.Meeting.{MayGoOn};
ghost use Rattle.trace_run.specs.Lines.{has_sync, is_sync};
ghost use Rattle.trace_run.specs.Tally.{AreDeclared};
ghost use Rattle.trace_run.specs.callers.Together.{IsFirstPlace, BetweenGroups, ends_group, between_groups};

use crate::device::Device;
use crate::group::{Worked, forks, run_group};
use crate::in_order::in_order;
use crate::kept_blocks::KeptBlocks;
use crate::ran::Ending;
use crate::resizing::resize_joined;
use crate::syncing::{AfterSync, sync_joined};
use arc_core::Keeps;
use arc_table::Party;
use blk_ptr::{NoMemory, Ptr};
use dbuf_cells::{Cells, HeapCell};
use std::alloc::Global;
use std::sync::Wait;
use std::thread::Threads;
use trace_text::{Op, Reply, Trace};
use txg_sync::SyncFault;
use vdev_io::{CacheDev, Gate, IoFault, Pool};

/// Several callers between two groups.
#[derive(Drop)]
pub(crate) struct Crew<C: Keeps> {
    /// The feeder's party.
    pub(crate) feeder: Party<C>,
    /// The callers' parties, by their numbers.
    pub(crate) parties: Vec<Party<C>>,
    /// The reads that each still keeps.
    pub(crate) kept: Vec<KeptBlocks>,
}

/// What several callers came to by the groups of a trace.
#[derive(Drop)]
pub(crate) struct Came<C: Keeps> {
    /// The callers behind the last group that was done.
    pub(crate) crew: Crew<C>,
    /// The replies to the lines that were answered, in their order.
    pub(crate) replies: Vec<Reply>,
    /// How the lines ended.
    pub(crate) ending: Ending,
}

/// No reads for each of so many callers.
fn none_kept(alloc: Global, callers: usize) -> Result<Vec<KeptBlocks>, NoMemory>
    ensures none { IfOk result (λ kept. KeepNothing kept.items) }
    ensures count { IfOk result (λ kept. vec_len kept ≡ callers) }
{
    let mut kept = Vec::new(alloc);
    for _ in 0..callers {
        kept.push(KeptBlocks::new(alloc))?;
    }
    Ok(kept)
}

/// The callers of a new cache, by its parties, of which the feeder's is the last.
pub(crate) fn crew_of<C: Keeps>(
    alloc: Global,
    mut parties: Vec<Party<C>>,
) -> Result<Crew<C>, NoMemory>
    requires { 0 < vec_len parties }
    ensures parties { IfOk result (λ crew. parties.items ≡ crew.parties.items ++ crew.feeder ∷ []) }
    ensures none { IfOk result (λ crew. KeepNothing crew.kept.items) }
    ensures count { IfOk result (λ crew. vec_len crew.kept ≡ vec_len crew.parties) }
{
    let Some(feeder) = parties.pop() else {
        unreachable!()
    };
    let kept = none_kept(alloc, parties.len())?;
    Ok(Crew {
        feeder,
        parties,
        kept,
    })
}

/// Whether a line ends its group.
fn ends_group(op: &Op) -> bool
    ensures { result ≡ ends_group op.now }
{
    match *op {
        Op::Read { .. } | Op::Hold { .. } | Op::Drop { .. } | Op::Feed => false,
        Op::Get { .. } | Op::Put { .. } | Op::Patch { .. } | Op::Pin { .. } | Op::Unpin { .. } => {
            false
        }
        Op::Txg { .. } | Op::Cap { .. } => true,
    }
}

/// The number of the first of these lines from this one on that ends its group, or how many lines there are.
fn group_end(ops: &[Op], from: usize) -> usize
    requires { from ≤ length ops.now }
    ensures range { (from ≤ result) × (result ≤ length ops.now) }
    ensures inside { (k : ℕ) (op : Op) → from ≤ k → k < result → slice_get ops.now k ≡ Some op → ends_group op ≡ false }
    ensures end { (op : Op) → slice_get ops.now result ≡ Some op → ends_group op ≡ true }
{
    for to in from..ops.len() {
        if ends_group(&ops[to]) {
            return to;
        }
    }
    ops.len()
}

/// The callers do the lines of a group at once, each on its forks of the pool and of the cache device, and beside them the feeder the lines `feed`. The
/// replies stand in the order of the lines.
fn lines_at_once<R: Threads + Wait + Sync, P: Pool, D: CacheDev, G: Gate>(
    alloc: Global,
    rt: &R,
    arcs: &Cells,
    crew: Crew<HeapCell>,
    forks: Vec<P>,
    pool: &mut P,
    device: &mut Device<D>,
    blocks: &[Ptr],
    ops: &[Op],
    first: u32,
    gate: &G,
) -> Result<(Crew<HeapCell>, Vec<Reply>), NoMemory>
    requires start { AreAtStart arcs.now blocks.now 0 crew.kept.items crew.parties.items }
    requires forks { AllByRecursion (IsFork P.Pool pool.old) forks.items }
    requires same { vec_len forks ≡ vec_len crew.parties }
    requires declared { AreDeclared (length blocks.now) ops.now }
    requires group { AreInGroup (vec_len crew.parties) ops.now }
    requires feeder { IsIdleFeeder arcs.now crew.feeder }
    requires device { MayBeFed D.CacheDev arcs.now.config device.old }
    requires few { first + length ops.now < 2 ^ 32 }
    ensures did { IfOk result (λ done. DidLinesAtOnce dbuf_meanings arcs.now P.Pool D.CacheDev blocks.now ops.now pool.old pool.new device.old device.new crew done.0 done.1.items) }
    ensures tried { (p : Place (Known OnHeap)) × TriesBeside dbuf_meanings D.CacheDev arcs.now ops.now device.old device.new crew.feeder p }
    ensures feeder { IfOk result (λ done. IsIdleFeeder arcs.now done.0.feeder) }
    ensures device { MayBeFed D.CacheDev arcs.now.config device.new }
    ensures pool { LeavesPool P.Pool pool.old pool.new }
{
    let Crew {
        mut feeder,
        parties,
        kept,
    } = crew;
    let (worked, fed) = run_group(
        alloc,
        rt,
        arcs,
        parties,
        kept,
        &mut feeder,
        forks,
        pool,
        device,
        blocks,
        ops,
        first,
        gate,
    )?;
    let Worked {
        parties,
        kept,
        replies,
    } = worked;
    let replies = in_order(alloc, ops, replies, fed)?;
    let crew = Crew {
        feeder,
        parties,
        kept,
    };
    Ok((crew, replies))
}

/// Where the syncs of a run stand.
#[derive(Clone, Copy)]
pub(crate) struct Syncs {
    /// The number of the next group, counted from 1: the birth of the blocks that its sync writes.
    pub(crate) group: u64,
    /// The place from which it writes.
    pub(crate) next: u64,
}

/// The first byte behind a block whose key names one of a pool of this length; 0 where it names none.
fn end_of_valid(ptr: &Ptr, pool_len: u64) -> u64
    ensures valid { IsValid pool_len ptr.now.key → result ≡ key_end ptr.now.key }
    ensures which { (result ≡ 0) ⊎ (IsValid pool_len ptr.now.key × (result ≡ key_end ptr.now.key)) }
{
    match ptr.key.check(pool_len) {
        Ok(key) => key.offset + key.size,
        Err(_) => 0,
    }
}

/// The place of the first sync: behind the declared blocks whose keys name a block of a pool of this length.
pub(crate) fn first_place(blocks: &[Ptr], pool_len: u64) -> u64
    ensures place { IsFirstPlace pool_len blocks.now result }
    ensures aligned { result % sector ≡ 0 }
    ensures inside { result ≤ pool_len }
{
    let mut place = 0;
    for ptr in blocks {
        place = place.max(end_of_valid(ptr, pool_len));
    }
    place
}

/// Does a line `txg`, once all callers have come back: its reply, or how the lines end where the sync stopped.
fn txg_line<P: Pool>(
    alloc: Global,
    rt: &impl Wait,
    arcs: &Cells,
    crew: Crew<HeapCell>,
    t: u64,
    syncs: Syncs,
    pool: &mut P,
) -> Result<(Crew<HeapCell>, Syncs, Result<Reply, Ending>), NoMemory>
    requires may { MayGoOn arcs.now [] crew.feeder crew.parties.items }
    requires feeder { crew.feeder.number ≡ arcs.now.config.callers }
    requires sync { (lines : ℕ) × (lines < 2 ^ 32) × MaySync P.Pool lines (between_groups pool.old syncs.group syncs.next) }
    ensures did { IfOk result (λ done. DidSync arcs.now P.Pool t (between_groups pool.old syncs.group syncs.next) (between_groups pool.new done.1.group done.1.next) crew done.0 done.2) }
    ensures kept { IfOk result (λ done. done.0.kept ≡ crew.kept) }
    ensures later { IfOk result (λ done. syncs.next ≤ done.1.next) }
    ensures pool { LeavesFront P.Pool syncs.next pool.old pool.new }
{
    let Crew {
        feeder,
        parties,
        kept,
    } = crew;
    let Syncs { group, next } = syncs;
    let AfterSync {
        feeder,
        callers,
        came,
    } = sync_joined(alloc, rt, arcs, feeder, parties, group, t, pool, next)?;
    let crew = Crew {
        feeder,
        parties: callers,
        kept,
    };
    match came {
        Ok(synced) => {
            let syncs = Syncs {
                group: group + 1,
                next: synced.next,
            };
            let reply = Reply::Synced {
                group,
                blocks: synced.blocks,
                bytes: synced.bytes,
            };
            Ok((crew, syncs, Ok(reply)))
        }
        Err(SyncFault::PoolFault) => Ok((crew, syncs, Err(Ending::Sync))),
        Err(SyncFault::PoolFull { need, left }) => {
            Ok((crew, syncs, Err(Ending::Full { need, left })))
        }
        Err(SyncFault::NoMemory) => Err(NoMemory),
    }
}

/// Does the line that ends a group, once all callers have come back: its reply, or how the lines end where a sync stops.
pub(crate) fn end_line<P: Pool>(
    alloc: Global,
    rt: &impl Wait,
    arcs: &Cells,
    crew: Crew<HeapCell>,
    op: &Op,
    syncs: Syncs,
    pool: &mut P,
) -> Result<(Crew<HeapCell>, Syncs, Result<Reply, Ending>), NoMemory>
    requires may { MayGoOn arcs.now [] crew.feeder crew.parties.items }
    requires feeder { crew.feeder.number ≡ arcs.now.config.callers }
    requires possible { IsOperation arcs.now.config.callers arcs.now.config.shards op.now }
    requires ends { ends_group op.now ≡ true }
    requires sync { (lines : ℕ) × (lines < 2 ^ 32) × MaySync P.Pool lines (between_groups pool.old syncs.group syncs.next) }
    ensures did { IfOk result (λ done. DidEndLine arcs.now P.Pool op.now (between_groups pool.old syncs.group syncs.next) (between_groups pool.new done.1.group done.1.next) crew done.0 done.2) }
    ensures later { IfOk result (λ done. syncs.next ≤ done.1.next) }
    ensures pool { LeavesFront P.Pool syncs.next pool.old pool.new }
    ensures still { is_sync op.now ≡ false → LeavesPool P.Pool pool.old pool.new }
{
    match *op {
        Op::Cap { c } => {
            let Crew {
                feeder,
                parties,
                kept,
            } = crew;
            let (feeder, parties) = resize_joined(alloc, rt, arcs, feeder, parties, c)?;
            let crew = Crew {
                feeder,
                parties,
                kept,
            };
            let syncs = Syncs {
                group: syncs.group + 1,
                next: syncs.next,
            };
            Ok((crew, syncs, Ok(Reply::Capped { c })))
        }
        Op::Txg { t } => txg_line(alloc, rt, arcs, crew, t, syncs, pool),
        Op::Read { .. } | Op::Hold { .. } | Op::Drop { .. } | Op::Feed => unreachable!(),
        Op::Get { .. } | Op::Put { .. } | Op::Patch { .. } | Op::Pin { .. } | Op::Unpin { .. } => {
            unreachable!()
        }
    }
}

/// Puts replies behind others, one by one.
fn push_all(replies: &mut Vec<Reply>, more: Vec<Reply>) -> Result<(), NoMemory>
    ensures { OnOk result (replies.new.items ≡ replies.old.items ++ more.items) }
{
    for reply in more {
        replies.push(reply)?;
    }
    Ok(())
}

/// Puts replies behind others. Those of a first group, which may be all of a trace, are not copied.
pub(crate) fn append(replies: &mut Vec<Reply>, more: Vec<Reply>) -> Result<(), NoMemory>
    ensures { OnOk result (replies.new.items ≡ replies.old.items ++ more.items) }
{
    if replies.is_empty() {
        *replies = more;
        return Ok(());
    }
    push_all(replies, more)
}

/// Does the next group of a trace, whose lines before it are answered: its lines at once, and then the line that ends it. The lines end here where a fork of
/// the pool failed, and then none of the group is begun; or where a sync stopped.
fn next_group<R: Threads + Wait + Sync, P: Pool, D: CacheDev, G: Gate>(
    alloc: Global,
    rt: &R,
    arcs: &Cells,
    trace: &Trace,
    crew: Crew<HeapCell>,
    syncs: Syncs,
    replies: &mut Vec<Reply>,
    pool: &mut P,
    device: &mut Device<D>,
    gate: &G,
) -> Result<(Crew<HeapCell>, Syncs, Ending), NoMemory>
    requires formed { IsFormed trace.now }
    requires config { arcs.now.config ≡ trace.now.config }
    requires rows { arcs.now.row.parties ≡ parties_of arcs.now.config }
    requires device { MayBeFed D.CacheDev arcs.now.config device.old }
    requires between { (start : BetweenGroups P) × (restored : List Restored) × (was : Device D) × (work : RunWork)
        × AreBetween arcs.now restored P.Pool D.CacheDev trace.now start (between_groups pool.old syncs.group syncs.next) was device.old replies.old.items work crew }
    requires more { vec_len replies.old < length trace.now.ops }
    ensures did { (start : BetweenGroups P) (restored : List Restored) (was : Device D) (work : RunWork)
        → AreBetween arcs.now restored P.Pool D.CacheDev trace.now start (between_groups pool.old syncs.group syncs.next) was device.old replies.old.items work crew
        → IfOk result (λ done. StepsOn arcs.now restored P.Pool D.CacheDev trace.now start (between_groups pool.new done.1.group done.1.next) was device.new replies.old.items replies.new.items done.2 done.0) }
    ensures later { IfOk result (λ done. syncs.next ≤ done.1.next) }
    ensures pool { LeavesFront P.Pool syncs.next pool.old pool.new }
    ensures still { has_sync trace.now.ops ≡ false → LeavesPool P.Pool pool.old pool.new }
    ensures used { WasInUse D.CacheDev trace.now.ops device.old device.new }
    ensures device { MayBeFed D.CacheDev arcs.now.config device.new }
{
    let blocks = trace.blocks.as_slice();
    let ops = trace.ops.as_slice();
    let first = replies.len();
    let to = group_end(ops, first);
    let forks = match forks(alloc, pool, trace.config.callers) {
        Ok(forks) => forks,
        Err(IoFault::Failed) => return Ok((crew, syncs, Ending::Fork)),
        Err(IoFault::NoMemory) => return Err(NoMemory),
    };
    let (crew, answered) = lines_at_once(
        alloc,
        rt,
        arcs,
        crew,
        forks,
        pool,
        device,
        blocks,
        &ops[first..to],
        first as u32,
        gate,
    )?;
    append(replies, answered)?;
    let Some(op) = ops.get(to) else {
        return Ok((crew, syncs, Ending::Whole));
    };
    let (crew, syncs, came) = end_line(alloc, rt, arcs, crew, op, syncs, pool)?;
    match came {
        Ok(reply) => {
            replies.push(reply)?;
            Ok((crew, syncs, Ending::Whole))
        }
        Err(ending) => Ok((crew, syncs, ending)),
    }
}

/// Whether the lines go on behind a group that came to this.
pub(crate) fn goes_on(ending: Ending) -> bool
    ensures { result ≡ goes_on ending }
{
    match ending {
        Ending::Whole => true,
        Ending::Fork | Ending::Sync | Ending::Full { .. } => false,
    }
}

/// Does all groups of a trace, one after another, up to one for which a fork of the pool fails, or whose sync stops.
pub(crate) fn all_groups<R: Threads + Wait + Sync, P: Pool, D: CacheDev, G: Gate>(
    alloc: Global,
    rt: &R,
    arcs: &Cells,
    trace: &Trace,
    crew: Crew<HeapCell>,
    syncs: Syncs,
    pool: &mut P,
    device: &mut Device<D>,
    gate: &G,
) -> Result<Came<HeapCell>, NoMemory>
    requires formed { IsFormed trace.now }
    requires config { arcs.now.config ≡ trace.now.config }
    requires rows { arcs.now.row.parties ≡ parties_of arcs.now.config }
    requires device { MayBeFed D.CacheDev arcs.now.config device.old }
    requires between { (restored : List Restored) × (work : RunWork)
        × AreBetween arcs.now restored P.Pool D.CacheDev trace.now (between_groups pool.old syncs.group syncs.next) (between_groups pool.old syncs.group syncs.next) device.old device.old [] work crew }
    ensures done { (restored : List Restored) (work : RunWork)
        → AreBetween arcs.now restored P.Pool D.CacheDev trace.now (between_groups pool.old syncs.group syncs.next) (between_groups pool.old syncs.group syncs.next) device.old device.old [] work crew
        → IfOk result (λ came. (all : RunWork) × AreDone arcs.now restored P.Pool D.CacheDev trace.now (between_groups pool.old syncs.group syncs.next) pool.new device.old device.new came.ending came.replies.items all came.crew) }
    ensures pool { LeavesFront P.Pool syncs.next pool.old pool.new }
    ensures still { has_sync trace.now.ops ≡ false → LeavesPool P.Pool pool.old pool.new }
    ensures used { WasInUse D.CacheDev trace.now.ops device.old device.new }
{
    let mut crew = crew;
    let mut syncs = syncs;
    let mut replies = Vec::new(alloc);
    while replies.len() < trace.ops.as_slice().len() {
        let (after, later, ending) = next_group(
            alloc,
            rt,
            arcs,
            trace,
            crew,
            syncs,
            &mut replies,
            pool,
            device,
            gate,
        )?;
        crew = after;
        syncs = later;
        if !goes_on(ending) {
            return Ok(Came {
                crew,
                replies,
                ending,
            });
        }
    }
    Ok(Came {
        crew,
        replies,
        ending: Ending::Whole,
    })
}
