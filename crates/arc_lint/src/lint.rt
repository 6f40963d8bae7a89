//! A look at a text, from the source to what is told on the sink.
ghost use Rattle.std.specs.Prelude.{◌+◌};
ghost use Rattle.trace_text.specs.Grammar.{longest_text};
ghost use Rattle.arc_lint.specs.Answers.{Answers};
ghost use Rattle.vdev_io.specs.Streams.{TakesAtMost, sink_state, source_state};

use crate::ended::Ended;
use crate::print::verdict_text;
use crate::verdict::{Format, Verdict, verdict_on};
use std::alloc::Global;
use trace_text::LONGEST_TEXT;
use vdev_io::{Failed, ReadAllFault, Sink, Source, read_all, write_all};

/// Reads the source, and writes to the sink what its text declares, or its first line at fault: the one that `read_trace`,
/// `read_pages` or `read_events` tells. At [`Ended::SourceFault`] and [`Ended::NoMemory`] nothing is written, and at [`Ended::SinkFault`] a front of it was.
pub(crate) fn lint<S: Source, K: Sink>(
    alloc: Global,
    format: Format,
    source: &mut S,
    sink: &mut K,
) -> Ended
    ensures took { TakesAtMost (S.left source.old) (S.left source.new) (longest_text + 1) }
    ensures answers { Answers format (source_state S.Source source.old) (source_state S.Source source.new)
        (sink_state K.Sink sink.old) (sink_state K.Sink sink.new) result }
{
    let text = match read_all(alloc, source, LONGEST_TEXT) {
        Ok(text) => text,
        Err(ReadAllFault::SourceFault) => return Ended::SourceFault,
        Err(ReadAllFault::NoMemory) => return Ended::NoMemory,
    };
    let Ok(verdict) = verdict_on(alloc, format, &text) else {
        return Ended::NoMemory;
    };
    let Ok(told) = verdict_text(alloc, format, &text, verdict) else {
        return Ended::NoMemory;
    };
    match (write_all(sink, &told), verdict) {
        (Err(Failed), _) => Ended::SinkFault,
        (Ok(()), Verdict::Bad { .. }) => Ended::Faulty,
        (Ok(()), _) => Ended::Fine,
    }
}
