//! What a text is: a trace, a list of pages, a log of events, or none, with the first line at fault.
ghost use Rattle.std.specs.Prelude.{◌≡◌, IfOk, length, sum_by};
ghost use Rattle.arc_lint.specs.Verdict.{IsVerdict};
ghost use Rattle.arc_lint.specs.declared.verdict.Format.TheVariants as formats;

use arc_check::{History, LogTextFault, read_events};
use arc_core::Config;
use blk_ptr::NoMemory;
use std::alloc::Global;
use trace_text::{Kind, TraceFault, read_pages, read_trace};

/// What a text is to be.
#[derive(Clone, Copy)]
pub(crate) enum Format {
    /// A trace.
    Trace,
    /// A list of pages.
    Pages,
    /// A log of events.
    Log,
}

/// What a trace declares.
#[derive(Clone, Copy)]
pub(crate) struct Declared {
    /// The sizes of the cache.
    pub(crate) config: Config,
    /// How many blocks there are.
    pub(crate) blocks: usize,
    /// How many blocks of objects are mapped.
    pub(crate) objects: usize,
    /// How many operations there are.
    pub(crate) ops: usize,
}

/// What a text is found to be.
#[derive(Clone, Copy)]
pub(crate) enum Verdict {
    /// A trace.
    Trace(Declared),
    /// A list of so many pages.
    Pages(usize),
    /// A log of so many events of a cache of these sizes.
    Log { config: Config, events: u128 },
    /// Not what it is to be. `line` is the first line at fault, counted from 1.
    Bad { line: u32, kind: Kind },
}

/// Looks at a text.
pub(crate) fn verdict_on(alloc: Global, format: Format, text: &[u8]) -> Result<Verdict, NoMemory>
    ensures { IfOk result (IsVerdict format text.now) }
{
    match format {
        Format::Trace => trace_verdict(alloc, text),
        Format::Pages => pages_verdict(alloc, text),
        Format::Log => log_verdict(alloc, text),
    }
}

/// Looks at a text that is to be a trace.
fn trace_verdict(alloc: Global, text: &[u8]) -> Result<Verdict, NoMemory>
    ensures { IfOk result (IsVerdict formats.Trace text.now) }
{
    match read_trace(alloc, text) {
        Ok(trace) => Ok(Verdict::Trace(Declared {
            config: trace.config,
            blocks: trace.blocks.len(),
            objects: trace.objects.len(),
            ops: trace.ops.len(),
        })),
        Err(TraceFault::Bad { line, kind }) => Ok(Verdict::Bad { line, kind }),
        Err(TraceFault::NoMemory) => Err(NoMemory),
    }
}

/// Looks at a text that is to be a list of pages.
fn pages_verdict(alloc: Global, text: &[u8]) -> Result<Verdict, NoMemory>
    ensures { IfOk result (IsVerdict formats.Pages text.now) }
{
    match read_pages(alloc, text) {
        Ok(pages) => Ok(Verdict::Pages(pages.len())),
        Err(TraceFault::Bad { line, kind }) => Ok(Verdict::Bad { line, kind }),
        Err(TraceFault::NoMemory) => Err(NoMemory),
    }
}

/// Looks at a text that is to be a log of events.
fn log_verdict(alloc: Global, text: &[u8]) -> Result<Verdict, NoMemory>
    ensures { IfOk result (IsVerdict formats.Log text.now) }
{
    match read_events(alloc, text) {
        Ok(log) => Ok(Verdict::Log {
            config: log.config,
            events: events_in(log.histories.as_slice()),
        }),
        Err(LogTextFault::Bad { line, kind }) => Ok(Verdict::Bad { line, kind }),
        Err(LogTextFault::NoMemory) => Err(NoMemory),
    }
}

/// How many events the shards have in all.
fn events_in(histories: &[History]) -> u128
    ensures { result ≡ sum_by length histories.now }
{
    let mut events = 0;
    for history in histories {
        events += history.len() as u128;
    }
    events
}
