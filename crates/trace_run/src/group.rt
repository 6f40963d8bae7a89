//! The work of several callers at once, each by its own lines, with its own party and its own forks of the pool and of the cache device; and of the feeder
//! beside them.
ghost use Rattle.std.specs.Prelude.{All, ◌≡◌, ℕ, suc, ◌<◌, ◌≤◌, ◌+◌, ◌^◌, ◌++◌, ◌∷◌, [], IfOk, IsErrOf, List, OnErr, OnOk, filter, length, map, vec_len};
ghost use Rattle.std.specs.List.{AllByRecursion, AllZip};
ghost use Rattle.trace_text.specs.declared.reply.Reply.{Reply};
ghost use Rattle.vdev_io.specs.Faults.{CountsIoFault, Rose, counted_more, last_count, sum_of_counts};
ghost use Rattle.vdev_io.specs.declared.fault.IoFault.{IoFault};
ghost use Rattle.dbuf_cells.specs.Turns.{dbuf_meanings};
ghost use Rattle.trace_run.specs.Devices.{WasLent, lent_in};
ghost use Rattle.trace_run.specs.KeptBlocks.{Stands, read_of};
ghost use Rattle.trace_run.specs.Lines.{is_of_caller};
ghost use Rattle.trace_run.specs.callers.CallerLines.{at};
ghost use Rattle.trace_run.specs.Feeds.{DoesFeeds, IsIdleFeeder, MayBeFed, TriesFeeds, is_feed};
ghost use Rattle.trace_run.specs.callers.Beside.{TriesBeside};
ghost use Rattle.trace_run.specs.callers.DeviceForks.{TakesForkBack, TakesForksBack};
ghost use Rattle.trace_run.specs.one_caller.OverShards.{AreNamed};
ghost use Rattle.trace_run.specs.callers.Callers.{Absorbs, AbsorbsAll, AreAtStart, AreEnlisted, CameTo, HasTried, HaveComeBack, IsReady, Replied};
ghost use Rattle.trace_run.specs.callers.Group.{DidGroup, IsFork, LeavesPool};
ghost use Rattle.trace_run.specs.Tally.{AreDeclared};

use crate::device::Device;
use crate::device_forks::{device_forks, take_fork_back};
use crate::feeder::{feed_lines, has_feed};
use crate::kept_blocks::KeptBlocks;
use crate::lines::all_lines;
use arc_core::Keeps;
use arc_table::Party;
use blk_ptr::{NoMemory, Ptr};
use dbuf_cells::{Cells, HeapCell};
use std::alloc::Global;
use std::sync::Wait;
use std::thread;
use std::thread::Threads;
use trace_text::{Op, Reply};
use vdev_io::{CacheDev, Gate, IoFault, NoCache, Pool};

/// The most callers that a trace may have.
const MOST_CALLERS: usize = 16;

/// A caller at work: its party, the reads that it keeps, its fork of the pool, its fork of the cache device, if it has one, and the replies to
/// its lines once they are done.
#[derive(Drop)]
struct Caller<C: Keeps, P: Pool, D: CacheDev> {
    party: Party<C>,
    kept: KeptBlocks,
    pool: P,
    device: Option<D>,
    replies: Result<Vec<Reply>, NoMemory>,
}

/// What callers that worked at once come to, by their numbers.
#[derive(Drop)]
pub(crate) struct Worked<C: Keeps> {
    /// Their parties.
    pub(crate) parties: Vec<Party<C>>,
    /// The reads that each still keeps.
    pub(crate) kept: Vec<KeptBlocks>,
    /// The replies to the lines of each.
    pub(crate) replies: Vec<Vec<Reply>>,
}

/// Takes forks of a pool back, one after another.
fn absorb_all<P: Pool>(pool: &mut P, forks: Vec<P>)
    ensures { AbsorbsAll P.Pool forks.items pool.old pool.new }
{
    for fork in forks {
        pool.absorb(fork);
    }
}

/// Makes one fork more.
fn one_fork<P: Pool>(alloc: Global, pool: &mut P, forks: &mut Vec<P>) -> Result<(), IoFault>
    ensures made { OnOk result ((fork : P) × (forks.new.items ≡ forks.old.items ++ fork ∷ []) × IsFork P.Pool pool.old fork) }
    ensures none { OnErr result (forks.new.items ≡ forks.old.items) }
    ensures pool { LeavesPool P.Pool pool.old pool.new }
    ensures reads { P.reads pool.new ≡ P.reads pool.old }
    ensures others { P.other_calls pool.new ≡ sum_of_counts (P.other_calls pool.old) 1 }
    ensures faults { CountsIoFault (P.faults pool.old) (P.faults pool.new) result }
{
    let fork = pool.fork(alloc)?;
    match forks.push(fork) {
        Ok(()) => Ok(()),
        Err(_) => Err(IoFault::NoMemory),
    }
}

/// A fork of a pool for each of so many callers. Where one can't be made, those that were are taken back, and only the pool's count of faults
/// has changed: it has one more where the pool failed, which is asked no more then.
pub(crate) fn forks<P: Pool>(alloc: Global, pool: &mut P, callers: u32) -> Result<Vec<P>, IoFault>
    ensures forks { IfOk result (λ forks. AllByRecursion (IsFork P.Pool pool.new) forks.items) }
    ensures count { IfOk result (λ forks. vec_len forks ≡ callers) }
    ensures pool { LeavesPool P.Pool pool.old pool.new }
    ensures others { OnOk result (P.other_calls pool.new ≡ counted_more callers (P.other_calls pool.old)) }
    ensures unread { OnOk result (P.reads pool.new ≡ P.reads pool.old) }
    ensures reads { P.reads pool.old ≤ last_count → P.reads pool.new ≡ P.reads pool.old }
    ensures unfailed { OnOk result (P.faults pool.new ≡ P.faults pool.old) }
    ensures failed { IsErrOf result IoFault.Failed → P.faults pool.old < last_count → P.faults pool.new ≡ P.faults pool.old + 1 }
    ensures rose { IsErrOf result IoFault.Failed → Rose (P.faults pool.old) (P.faults pool.new) }
    ensures made { OnErr result ((made : ℕ) × (made < callers) × (P.other_calls pool.new ≡ counted_more (suc made) (P.other_calls pool.old))) }
{
    let mut forks = Vec::new(alloc);
    for _ in 0..callers {
        if let Err(fault) = one_fork(alloc, pool, &mut forks) {
            absorb_all(pool, forks);
            return Err(fault);
        }
    }
    Ok(forks)
}

/// Makes a caller of each party, the reads that it keeps, and its forks.
fn enlist<C: Keeps, P: Pool, D: CacheDev>(
    alloc: Global,
    parties: Vec<Party<C>>,
    kept: Vec<KeptBlocks>,
    forks: Vec<P>,
    devices: Vec<Option<D>>,
) -> Result<Vec<Caller<C, P, D>>, NoMemory>
    requires kept { vec_len kept ≡ vec_len parties }
    requires forks { vec_len forks ≡ vec_len parties }
    requires devices { vec_len devices ≡ vec_len parties }
    ensures enlisted { IfOk result (λ callers. AreEnlisted parties.items kept.items forks.items callers.items) }
    ensures devices { IfOk result (λ callers. map (λ caller. caller.device) callers.items ≡ devices.items) }
{
    let mut callers = Vec::with_capacity(alloc, parties.len())?;
    let mut kept = kept.into_iter();
    let mut forks = forks.into_iter();
    let mut devices = devices.into_iter();
    for party in parties {
        let Some(reads) = kept.next() else {
            unreachable!()
        };
        let Some(pool) = forks.next() else {
            unreachable!()
        };
        let Some(device) = devices.next() else {
            unreachable!()
        };
        callers.push(Caller {
            party,
            kept: reads,
            pool,
            device,
            replies: Ok(Vec::new(alloc)),
        })?;
    }
    Ok(callers)
}

/// Does the lines of a caller over the cache device that it was given, or over none.
fn lines_over<P: Pool, D: CacheDev, G: Gate>(
    alloc: Global,
    rt: &impl Wait,
    arcs: &Cells,
    party: &mut Party<HeapCell>,
    kept: &mut KeptBlocks,
    pool: &mut P,
    device: &mut Option<D>,
    blocks: &[Ptr],
    ops: &[Op],
    first: u32,
    gate: &G,
) -> Result<Vec<Reply>, NoMemory>
    requires stands { Stands arcs.now party.old kept.old }
    requires declared { AreDeclared (length blocks.now) ops.now }
    requires named { AreNamed blocks.now (map read_of kept.old) }
    requires few { first + length ops.now < 2 ^ 32 }
    ensures stands { IfOk result (λ replies. Stands arcs.now party.new kept.new) }
    ensures did { IfOk result (λ replies. CameTo P.Pool D.CacheDev arcs.now.config blocks.now (filter (is_of_caller party.old.number) ops.now) replies.items
        (at party.old (map read_of kept.old) pool.old) (at party.new (map read_of kept.new) pool.new) device.old device.new) }
{
    match device {
        Some(device) => all_lines(
            alloc, rt, arcs, party, kept, pool, device, blocks, ops, first, gate,
        ),
        None => all_lines(
            alloc,
            rt,
            arcs,
            party,
            kept,
            pool,
            &mut NoCache::new(),
            blocks,
            ops,
            first,
            gate,
        ),
    }
}

/// Does the lines of a caller.
fn work<P: Pool, D: CacheDev, G: Gate>(
    alloc: Global,
    rt: &impl Wait,
    arcs: &Cells,
    caller: &mut Caller<HeapCell, P, D>,
    blocks: &[Ptr],
    ops: &[Op],
    first: u32,
    gate: &G,
)
    requires ready { IsReady arcs.now blocks.now caller.old }
    requires declared { AreDeclared (length blocks.now) ops.now }
    requires few { first + length ops.now < 2 ^ 32 }
    ensures { HasTried arcs.now P.Pool D.CacheDev blocks.now ops.now caller.old caller.new }
{
    caller.replies = lines_over(
        alloc,
        rt,
        arcs,
        &mut caller.party,
        &mut caller.kept,
        &mut caller.pool,
        &mut caller.device,
        blocks,
        ops,
        first,
        gate,
    );
}

/// Does the lines of all callers, each in a thread of its own where one can be started.
fn work_all<R: Threads + Wait + Sync, P: Pool, D: CacheDev, G: Gate>(
    alloc: Global,
    rt: &R,
    arcs: &Cells,
    callers: &mut [Caller<HeapCell, P, D>],
    blocks: &[Ptr],
    ops: &[Op],
    first: u32,
    gate: &G,
)
    requires ready { All (IsReady arcs.now blocks.now) callers.old }
    requires declared { AreDeclared (length blocks.now) ops.now }
    requires few { first + length ops.now < 2 ^ 32 }
    ensures { AllZip (HasTried arcs.now P.Pool D.CacheDev blocks.now ops.now) callers.old callers.new }
{
    let each = |_: usize, caller: &mut Caller<HeapCell, P, D>|
        requires { IsReady arcs.now blocks.now caller.old × AreDeclared (length blocks.now) ops.now × (first + length ops.now < 2 ^ 32) }
        ensures { HasTried arcs.entry.now P.Pool D.CacheDev blocks.entry.now ops.entry.now caller.old caller.new }
    { work(alloc, rt, arcs, caller, blocks, ops, first, gate) };
    thread::for_each_mut(rt, callers, MOST_CALLERS, &each);
}

/// The same of callers in a vector.
fn work_lines<R: Threads + Wait + Sync, P: Pool, D: CacheDev, G: Gate>(
    alloc: Global,
    rt: &R,
    arcs: &Cells,
    callers: &mut Vec<Caller<HeapCell, P, D>>,
    blocks: &[Ptr],
    ops: &[Op],
    first: u32,
    gate: &G,
)
    requires ready { AllByRecursion (IsReady arcs.now blocks.now) callers.old.items }
    requires declared { AreDeclared (length blocks.now) ops.now }
    requires few { first + length ops.now < 2 ^ 32 }
    ensures { AllZip (HasTried arcs.now P.Pool D.CacheDev blocks.now ops.now) callers.old.items callers.new.items }
{
    work_all(alloc, rt, arcs, callers, blocks, ops, first, gate);
}

/// Does the lines of all callers, and beside them, in a thread of its own where one can be started, what the closure does.
fn work_beside<R: Threads + Wait + Sync, P: Pool, D: CacheDev, G: Gate, F>(
    alloc: Global,
    rt: &R,
    arcs: &Cells,
    callers: &mut Vec<Caller<HeapCell, P, D>>,
    blocks: &[Ptr],
    ops: &[Op],
    first: u32,
    gate: &G,
    feed: &mut F,
) -> Result<Vec<Reply>, NoMemory>
where
    F: FnMut() -> Result<Vec<Reply>, NoMemory> + Send,
    requires feed { F.pre feed.old }
    requires ready { AllByRecursion (IsReady arcs.now blocks.now) callers.old.items }
    requires declared { AreDeclared (length blocks.now) ops.now }
    requires few { first + length ops.now < 2 ^ 32 }
    ensures feed { F.step feed.old result feed.new }
    ensures worked { AllZip (HasTried arcs.now P.Pool D.CacheDev blocks.now ops.now) callers.old.items callers.new.items }
{
    let (replies, ()) = thread::join_mut(
        rt,
        feed,
        &mut ||
            requires { AllByRecursion (IsReady arcs.now blocks.now) callers.now.items × AreDeclared (length blocks.now) ops.now × (first + length ops.now < 2 ^ 32) }
            ensures { AllZip (HasTried arcs.entry.now P.Pool D.CacheDev blocks.entry.now ops.entry.now) callers.entry.now.items callers.exit.now.items }
        { work_lines(alloc, rt, arcs, callers, blocks, ops, first, gate) },
    );
    replies
}

/// Does the lines of all callers, and beside them the lines `feed`. Where there are none, no thread more is started.
fn work_and_feed<R: Threads + Wait + Sync, P: Pool, D: CacheDev, G: Gate>(
    alloc: Global,
    rt: &R,
    arcs: &Cells,
    callers: &mut Vec<Caller<HeapCell, P, D>>,
    feeder: &mut Party<HeapCell>,
    device: &mut Device<D>,
    blocks: &[Ptr],
    ops: &[Op],
    first: u32,
    gate: &G,
) -> Result<Vec<Reply>, NoMemory>
    requires ready { AllByRecursion (IsReady arcs.now blocks.now) callers.old.items }
    requires declared { AreDeclared (length blocks.now) ops.now }
    requires few { first + length ops.now < 2 ^ 32 }
    requires feeder { IsIdleFeeder arcs.now feeder.old }
    requires device { MayBeFed D.CacheDev arcs.now.config device.old }
    ensures worked { AllZip (HasTried arcs.now P.Pool D.CacheDev blocks.now ops.now) callers.old.items callers.new.items }
    ensures feeder { IsIdleFeeder arcs.now feeder.new }
    ensures device { MayBeFed D.CacheDev arcs.now.config device.new }
    ensures tried { TriesFeeds dbuf_meanings D.CacheDev arcs.now (filter is_feed ops.now) device.old device.new feeder.old feeder.new }
    ensures fed { IfOk result (λ replies. DoesFeeds dbuf_meanings D.CacheDev arcs.now (filter is_feed ops.now) replies.items device.old device.new feeder.old feeder.new) }
{
    if !has_feed(ops) {
        work_lines(alloc, rt, arcs, callers, blocks, ops, first, gate);
        return Ok(Vec::new(alloc));
    }
    let mut feed = ||
        requires { IsIdleFeeder arcs.now feeder.now × MayBeFed D.CacheDev arcs.now.config device.now }
        ensures feeder { IsIdleFeeder arcs.entry.now feeder.exit.now }
        ensures device { MayBeFed D.CacheDev arcs.entry.now.config device.exit.now }
        ensures tried { TriesFeeds dbuf_meanings D.CacheDev arcs.entry.now (filter is_feed ops.entry.now) device.entry.now device.exit.now feeder.entry.now feeder.exit.now }
        ensures fed { IfOk result (λ replies. DoesFeeds dbuf_meanings D.CacheDev arcs.entry.now (filter is_feed ops.entry.now) replies.items device.entry.now device.exit.now feeder.entry.now feeder.exit.now) }
    { feed_lines(alloc, rt, arcs, feeder, device, ops) };
    work_beside(
        alloc, rt, arcs, callers, blocks, ops, first, gate, &mut feed,
    )
}

/// Takes a caller back that has done its lines: the pool and the cache device take its forks.
fn take_back<C: Keeps, P: Pool, D: CacheDev>(
    caller: Caller<C, P, D>,
    pool: &mut P,
    device: &mut Device<D>,
    worked: &mut Worked<C>,
) -> Result<(), NoMemory>
    ensures absorbs { Absorbs P.Pool caller.pool pool.old pool.new }
    ensures back { TakesForkBack D.CacheDev caller.device (lent_in device.old) (lent_in device.new) }
    ensures device { WasLent D.CacheDev device.old device.new }
    ensures replied { OnOk result ((replies : List Reply) × (map (λ v. v.items) worked.new.replies.items ≡ map (λ v. v.items) worked.old.replies.items ++ replies ∷ []) × Replied caller replies) }
    ensures party { OnOk result (worked.new.parties.items ≡ worked.old.parties.items ++ caller.party ∷ []) }
    ensures kept { OnOk result (worked.new.kept.items ≡ worked.old.kept.items ++ caller.kept ∷ []) }
{
    let Caller {
        party,
        kept,
        pool: fork,
        device: device_fork,
        replies,
    } = caller;
    pool.absorb(fork);
    take_fork_back(device, device_fork);
    let replies = replies?;
    worked.parties.push(party)?;
    worked.kept.push(kept)?;
    worked.replies.push(replies)?;
    Ok(())
}

/// Takes all callers back that have done their lines. The pool and the device take each fork, also where some caller was short of memory.
fn take_all_back<C: Keeps, P: Pool, D: CacheDev>(
    alloc: Global,
    callers: Vec<Caller<C, P, D>>,
    pool: &mut P,
    device: &mut Device<D>,
) -> Result<Worked<C>, NoMemory>
    ensures absorbs { AbsorbsAll P.Pool (map (λ caller. caller.pool) callers.items) pool.old pool.new }
    ensures back { TakesForksBack D.CacheDev (map (λ caller. caller.device) callers.items) (lent_in device.old) (lent_in device.new) }
    ensures device { WasLent D.CacheDev device.old device.new }
    ensures came { IfOk result (λ worked. HaveComeBack callers.items (map (λ v. v.items) worked.replies.items) worked.parties.items worked.kept.items) }
{
    let mut worked = Worked {
        parties: Vec::new(alloc),
        kept: Vec::new(alloc),
        replies: Vec::new(alloc),
    };
    let mut short = false;
    for caller in callers {
        if take_back(caller, pool, device, &mut worked).is_err() {
            short = true;
        }
    }
    if short {
        return Err(NoMemory);
    }
    Ok(worked)
}

/// Lets callers work at once, each by its own lines among these, with its own party, the reads that it keeps and its own forks of the pool and of
/// the cache device; and beside them the feeder, by the lines `feed`, with its party and the device itself. Then these take their forks back, by their
/// numbers. The first of the lines has this number in the trace. The replies to the feeds are a list of their own.
pub(crate) fn run_group<R: Threads + Wait + Sync, P: Pool, D: CacheDev, G: Gate>(
    alloc: Global,
    rt: &R,
    arcs: &Cells,
    parties: Vec<Party<HeapCell>>,
    kept: Vec<KeptBlocks>,
    feeder: &mut Party<HeapCell>,
    forks: Vec<P>,
    pool: &mut P,
    device: &mut Device<D>,
    blocks: &[Ptr],
    ops: &[Op],
    first: u32,
    gate: &G,
) -> Result<(Worked<HeapCell>, Vec<Reply>), NoMemory>
    requires parties { AreAtStart arcs.now blocks.now 0 kept.items parties.items }
    requires feeder { IsIdleFeeder arcs.now feeder.old }
    requires device { MayBeFed D.CacheDev arcs.now.config device.old }
    requires forks { AllByRecursion (IsFork P.Pool pool.old) forks.items }
    requires same { vec_len forks ≡ vec_len parties }
    requires declared { AreDeclared (length blocks.now) ops.now }
    requires few { first + length ops.now < 2 ^ 32 }
    ensures did { IfOk result (λ done. DidGroup dbuf_meanings arcs.now P.Pool D.CacheDev blocks.now ops.now (length parties.items) pool.old pool.new device.old device.new
        kept.items parties.items feeder.old done.0.kept.items done.0.parties.items feeder.new (map (λ v. v.items) done.0.replies.items) done.1.items) }
    ensures tried { TriesBeside dbuf_meanings D.CacheDev arcs.now ops.now device.old device.new feeder.old feeder.new }
    ensures feeder { IsIdleFeeder arcs.now feeder.new }
    ensures device { MayBeFed D.CacheDev arcs.now.config device.new }
    ensures pool { LeavesPool P.Pool pool.old pool.new }
{
    let devices = device_forks(alloc, device, parties.len())?;
    let mut callers = enlist(alloc, parties, kept, forks, devices)?;
    let fed = work_and_feed(
        alloc,
        rt,
        arcs,
        &mut callers,
        feeder,
        device,
        blocks,
        ops,
        first,
        gate,
    );
    let worked = take_all_back(alloc, callers, pool, device)?;
    let fed = fed?;
    Ok((worked, fed))
}
