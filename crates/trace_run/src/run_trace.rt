//! The run of a trace, and its report.
ghost use Rattle.std.specs.Prelude.{◌≡◌, IfOk, false};
ghost use Rattle.l2_dev.specs.Rebuilding.{HaveKeys};
ghost use Rattle.trace_text.specs.Grammar.{IsFormed};
ghost use Rattle.trace_run.specs.Outcome.{HasRun, IsGenReport};
ghost use Rattle.trace_run.specs.Devices.{lent_in};
ghost use Rattle.trace_run.specs.FeedSeries.{LeavesFed};
ghost use Rattle.trace_run.specs.Feeds.{MayBeFed};
ghost use Rattle.trace_run.specs.Lines.{has_sync};
ghost use Rattle.trace_run.specs.callers.Beside.{WasInUse};
ghost use Rattle.trace_run.specs.callers.Group.{LeavesDeclared};
ghost use Rattle.trace_run.specs.callers.Together.{report_status};
ghost use Rattle.trace_run.specs.Restores.{found_keys};
ghost use Rattle.trace_run.specs.Words.{IsCommandInRange};
ghost use Rattle.trace_run.specs.declared.words.Command.TheVariants as command;

use crate::device::Device;
use crate::in_turn::run_single;
use crate::ran::Reported;
use crate::together::run_together;
use crate::zero_pool::ZeroPool;
use arc_core::Restored;
use blk_ptr::{NoMemory, SECTOR};
use std::alloc::Global;
use std::sync::Wait;
use std::thread::Threads;
use trace_text::{Rebuilt, Trace, gen_trace};
use vdev_io::{CacheDev, Gate, NoCache, Pool};

/// The keys that were found on the cache device.
fn found_keys(rebuilt: &Option<Rebuilt>) -> &[Restored]
    ensures { result.now ≡ found_keys rebuilt.now }
{
    match rebuilt {
        Some(rebuilt) => rebuilt.list.as_slice(),
        None => &[],
    }
}

/// Runs a trace and reports on it: one caller's on the pool and the cache device that are handed in, and several callers' each on forks of both.
/// This was found on that device.
pub(crate) fn run_trace<R: Threads + Wait + Sync, P: Pool, D: CacheDev, G: Gate>(
    alloc: Global,
    rt: &R,
    trace: &Trace,
    rebuilt: Option<Rebuilt>,
    pool: &mut P,
    device: &mut Device<D>,
    gate: &G,
) -> Result<Reported, NoMemory>
    requires formed { IsFormed trace.now }
    requires keys { HaveKeys (found_keys rebuilt) }
    requires device { MayBeFed D.CacheDev trace.now.config device.old }
    ensures run { IfOk result (λ told. (run : HasRun P.Pool D.CacheDev pool.old pool.new (lent_in device.old) (lent_in device.new) trace.now told.ending told.closed told.report)
        × LeavesFed D.CacheDev trace.now.config (found_keys rebuilt) run.work.feeds device.old device.new told.report.histories) }
    ensures rebuilt { IfOk result (λ told. told.report.rebuilt ≡ rebuilt) }
    ensures whole { IfOk result (λ told. told.report.short ≡ false) }
    ensures pool { LeavesDeclared P.Pool trace.now.blocks pool.old pool.new }
    ensures still { has_sync trace.now.ops ≡ false → P.told pool.new ≡ P.told pool.old }
    ensures device { WasInUse D.CacheDev trace.now.ops device.old device.new }
{
    let ran = if trace.config.callers == 1 {
        run_single(alloc, rt, trace, found_keys(&rebuilt), pool, device, gate)?
    } else {
        run_together(alloc, rt, trace, found_keys(&rebuilt), pool, device, gate)?
    };
    let reported = ran.report(alloc, rebuilt)?;
    Ok(reported)
}

/// Makes a trace, runs it over a pool of zero bytes, and reports on it with the replies left out.
pub(crate) fn run_generated_trace<R: Threads + Wait + Sync, G: Gate>(
    alloc: Global,
    rt: &R,
    seed: u32,
    blocks: u32,
    ops: u32,
    gate: &G,
) -> Result<Reported, NoMemory>
    requires { IsCommandInRange (command.Gen seed blocks ops) }
    ensures generated { IfOk result (λ told. IsGenReport seed blocks ops told.closed told.report) }
    ensures status { IfOk result (λ told. told.report.status ≡ report_status told.ending told.report.replies) }
{
    let trace = gen_trace(alloc, seed, blocks, ops)?;
    let mut pool = ZeroPool::new(u64::from(blocks) * SECTOR);
    let mut device = Device::<NoCache>::None;
    let mut reported = run_trace(alloc, rt, &trace, None, &mut pool, &mut device, gate)?;
    reported.report.short = true;
    Ok(reported)
}
