//! The top call: from the words and the source to the report on the sink.
ghost use Rattle.std.specs.Prelude.{◌≡◌, ◌<◌, ◌^◌, IfOk, IfErr, None, false, is_some, ◌+◌};
ghost use Rattle.trace_text.specs.Grammar.{IsFormed, longest_text};
ghost use Rattle.vdev_io.specs.Streams.{TakesAtMost};
ghost use Rattle.trace_run.specs.Outcome.{AnswersWords, AnswersSource, AnswersSink, DoesCommand, DoesRun, IfReported, IfUsage, IsDelivered, IsGenReport, IsGenStatus, IsReadStatus, TellsEnding, WasRead, has_report};
ghost use Rattle.trace_run.specs.callers.Group.{StaysPool};
ghost use Rattle.trace_run.specs.callers.Together.{report_status};
ghost use Rattle.trace_run.specs.States.{handed};
ghost use Rattle.vdev_io.specs.Streams.{sink_state, source_state};
ghost use Rattle.trace_run.specs.Words.{IsCommandInRange, texts};
ghost use Rattle.trace_run.specs.declared.words.Command.TheVariants as command;

use crate::bounded::with_bound;
use crate::check::run_check;
use crate::device::{Begun, begin, device_len};
use crate::paper::run_paper;
use crate::ran::{Ending, Reported};
use crate::run_trace::{run_generated_trace, run_trace};
use crate::status::{Outcome, Status};
use crate::words::Command;
use blk_ptr::NoMemory;
use std::alloc::Global;
use std::sync::Wait;
use std::thread::Threads;
use trace_text::{LONGEST_TEXT, Trace, TraceFault, read_trace, report_text};
use vdev_io::{CacheDev, Failed, Gate, Pool, ReadAllFault, Sink, Source, read_all, write_all};

/// Does what the words ask: `run` reads a trace from the source and runs it over the pool, `gen` makes a trace and runs it
/// over a pool of its own. Both write the report to the sink. `paper` reads a list of pages from the source, and writes to the sink
/// which of them are hits. `check` reads a log of events from the source, and writes to the sink whether it is legal.
///
/// The words are looked at first, then the source, then the trace in it. At [`Status::Usage`] nothing is touched; at
/// [`Status::BadTrace`] and [`Status::SourceFault`] nothing is run and nothing written. At [`Status::SinkFault`] the report is
/// there and a front of its text was written. [`Status::NoMemory`] may come wherever memory is taken, in
/// place of all but [`Status::Usage`].
pub fn run<R: Threads + Wait + Sync, S: Source, K: Sink, P: Pool, D: CacheDev, G: Gate>(
    alloc: Global,
    rt: &R,
    words: &[String],
    source: &mut S,
    sink: &mut K,
    pool: &mut P,
    cache: &mut Option<D>,
    gate: &G,
) -> Outcome
    // Usage comes exactly where the words are no command, with the first word that is wrong. Else the command did what it is to do:
    // a bad trace and a fault of the source come only with their causes, the report explains what was run, and its text is written.
    ensures answers { AnswersWords (texts words.now) (DoesCommand P.Pool D.CacheDev
        (handed S.Source K.Sink source.old sink.old pool.old cache.old) (handed S.Source K.Sink source.new sink.new pool.new cache.new) result.status result.report result.closed) result.status }

    // Where the words are refused nothing is touched, and where nothing is run the pool and the device aren't.
    ensures untouched { IfUsage result.status
        ((source.new ≡ source.old) × (sink.new ≡ sink.old) × (pool.new ≡ pool.old) × (cache.new ≡ cache.old) × (result.report ≡ None) × (result.closed ≡ None)) }

    // The pool has its length.
    ensures pool { StaysPool P.Pool pool.old pool.new }
{
    match Command::parse(words) {
        Ok(Command::Run { events }) => run_source(
            alloc, rt, events, source, sink, pool, cache, gate,
        ),
        Ok(Command::Gen { seed, blocks, ops }) => run_generated(
            alloc, rt, seed, blocks, ops, sink, gate,
        ),
        Ok(Command::Paper { c }) => untold(run_paper(alloc, c, source, sink)),
        Ok(Command::Check) => untold(run_check(alloc, source, sink)),
        Err(index) => untold(Status::Usage { index }),
    }
}

/// How a run ended that has no report.
fn untold(status: Status) -> Outcome
    ensures { (result.status ≡ status) × (result.report ≡ None) × (result.closed ≡ None) }
{
    Outcome {
        status,
        report: None,
        closed: None,
    }
}

/// Runs the trace that the source holds, and writes its report to the sink. The cache device is started before, and given back behind.
fn run_source<R: Threads + Wait + Sync, S: Source, K: Sink, P: Pool, D: CacheDev, G: Gate>(
    alloc: Global,
    rt: &R,
    events: bool,
    source: &mut S,
    sink: &mut K,
    pool: &mut P,
    cache: &mut Option<D>,
    gate: &G,
) -> Outcome
    ensures past_words { IfUsage result.status ⊥ }
    ensures does { DoesRun P.Pool D.CacheDev events
        (handed S.Source K.Sink source.old sink.old pool.old cache.old) (handed S.Source K.Sink source.new sink.new pool.new cache.new) result.status result.report result.closed }
    ensures pool { StaysPool P.Pool pool.old pool.new }
{
    let trace = match read_source(alloc, source) {
        Ok(trace) => trace,
        Err(status) => return untold(status),
    };
    let trace = with_bound(trace, device_len(cache));
    let Begun {
        mut device,
        rebuilt,
    } = match begin(alloc, cache.take()) {
        Ok(begun) => begun,
        Err(NoMemory) => return untold(Status::NoMemory),
    };
    let ran = run_trace(alloc, rt, &trace, rebuilt, pool, &mut device, gate);
    *cache = device.back();
    // Its memory serves the report's text.
    drop(trace);
    match ran {
        Ok(reported) => deliver(alloc, events, sink, reported),
        Err(NoMemory) => untold(Status::NoMemory),
    }
}

/// Makes a trace and runs it over a pool of its own, and writes the report to the sink.
fn run_generated<R: Threads + Wait + Sync, K: Sink, G: Gate>(
    alloc: Global,
    rt: &R,
    seed: u32,
    blocks: u32,
    ops: u32,
    sink: &mut K,
    gate: &G,
) -> Outcome
    requires { IsCommandInRange (command.Gen seed blocks ops) }
    ensures past_words { IfUsage result.status ⊥ }
    ensures fair { IsGenStatus result.status }
    ensures reported { IfReported result.report result.closed (IsGenReport seed blocks ops) }
    ensures sink { AnswersSink false (sink_state K.Sink sink.old) (sink_state K.Sink sink.new) result.status result.report }
    ensures present { is_some result.report ≡ has_report result.status }
{
    match run_generated_trace(alloc, rt, seed, blocks, ops, gate) {
        Ok(reported) => deliver(alloc, false, sink, reported),
        Err(NoMemory) => untold(Status::NoMemory),
    }
}

/// Reads the trace that a source holds.
fn read_source<S: Source>(alloc: Global, source: &mut S) -> Result<Trace, Status>
    ensures took { TakesAtMost (S.left source.old) (S.left source.new) (longest_text + 1) }
    ensures read { IfOk result (WasRead (source_state S.Source source.old) (source_state S.Source source.new)) }
    ensures formed { IfOk result IsFormed }
    ensures err { IfErr result (AnswersSource (source_state S.Source source.old) (source_state S.Source source.new)) }
    ensures which { IfErr result IsReadStatus }
{
    let text = match read_all(alloc, source, LONGEST_TEXT) {
        Ok(text) => text,
        Err(ReadAllFault::SourceFault) => return Err(Status::SourceFault),
        Err(ReadAllFault::NoMemory) => return Err(Status::NoMemory),
    };
    match read_trace(alloc, &text) {
        Ok(trace) => Ok(trace),
        Err(TraceFault::Bad { line, kind }) => Err(Status::BadTrace { line, kind }),
        Err(TraceFault::NoMemory) => Err(Status::NoMemory),
    }
}

/// Writes a report's text to the sink.
fn deliver<K: Sink>(alloc: Global, events: bool, sink: &mut K, reported: Reported) -> Outcome
    requires status { reported.report.status ≡ report_status reported.ending reported.report.replies }
    ensures sink { AnswersSink events (sink_state K.Sink sink.old) (sink_state K.Sink sink.new) result.status result.report }
    ensures present { is_some result.report ≡ has_report result.status }
    ensures same { IfReported result.report result.closed (λ closed told. (told ≡ reported.report) × (closed ≡ reported.closed)) }
    ensures which { IsDelivered result.status }
    ensures full { TellsEnding result.status reported.ending }
{
    let Reported {
        report,
        closed,
        ending,
    } = reported;
    let mut text = Vec::new(alloc);
    if let Err(NoMemory) = report_text(alloc, &report, events, &mut text) {
        return untold(Status::NoMemory);
    }
    let status = match (write_all(sink, &text), ending) {
        (Err(Failed), _) => Status::SinkFault,
        (Ok(()), Ending::Whole) if report.status == 0 => Status::Ok,
        (Ok(()), Ending::Whole) => Status::ReadsFailed,
        (Ok(()), Ending::Fork | Ending::Sync) => Status::PoolFault,
        (Ok(()), Ending::Full { need, left }) => Status::PoolFull { need, left },
    };
    Outcome {
        status,
        report: Some(report),
        closed: Some(closed),
    }
}
