//! The command `paper`: which pages of a list are hits.
ghost use Rattle.std.specs.Prelude.{◌≡◌, ◌+◌, ◌≤◌, IfErr, IfOk};
ghost use Rattle.arc_paper.specs.Cache.{IsCapacity};
ghost use Rattle.trace_text.specs.Grammar.{longest_text};
ghost use Rattle.vdev_io.specs.Streams.{TakesAtMost};
ghost use Rattle.vdev_io.specs.Streams.{sink_state, source_state};
ghost use Rattle.trace_run.specs.Outcome.{AnswersPages, AnswersPageSource, IfUsage, IsReadStatus, WerePagesRead};

use crate::status::Status;
use arc_paper::paper_text;
use std::alloc::Global;
use trace_text::{LONGEST_TEXT, TraceFault, read_pages};
use vdev_io::{Failed, ReadAllFault, Sink, Source, read_all, write_all};

/// Reads a list of pages from the source, and writes to the sink which of them are hits of a cache for `c` pages.
pub(crate) fn run_paper<S: Source, K: Sink>(
    alloc: Global,
    c: u32,
    source: &mut S,
    sink: &mut K,
) -> Status
    requires { IsCapacity c }
    ensures past_words { IfUsage result ⊥ }
    ensures took { TakesAtMost (S.left source.old) (S.left source.new) (longest_text + 1) }
    ensures answers { AnswersPages c (source_state S.Source source.old) (source_state S.Source source.new)
        (sink_state K.Sink sink.old) (sink_state K.Sink sink.new) result }
{
    let pages = match pages_of(alloc, source) {
        Ok(pages) => pages,
        Err(status) => return status,
    };
    let mut text = Vec::new(alloc);
    if paper_text(alloc, c, &pages, &mut text).is_err() {
        return Status::NoMemory;
    }
    match write_all(sink, &text) {
        Err(Failed) => Status::SinkFault,
        Ok(()) => Status::Ok,
    }
}

/// Reads the list of pages that a source holds.
fn pages_of<S: Source>(alloc: Global, source: &mut S) -> Result<Vec<u64>, Status>
    ensures took { TakesAtMost (S.left source.old) (S.left source.new) (longest_text + 1) }
    ensures read { IfOk result (λ pages. WerePagesRead (source_state S.Source source.old) (source_state S.Source source.new) pages.items) }
    ensures err { IfErr result (AnswersPageSource (source_state S.Source source.old) (source_state S.Source source.new)) }
    ensures which { IfErr result IsReadStatus }
{
    let text = match read_all(alloc, source, LONGEST_TEXT) {
        Ok(text) => text,
        Err(ReadAllFault::SourceFault) => return Err(Status::SourceFault),
        Err(ReadAllFault::NoMemory) => return Err(Status::NoMemory),
    };
    match read_pages(alloc, &text) {
        Ok(pages) => Ok(pages),
        Err(TraceFault::Bad { line, kind }) => Err(Status::BadTrace { line, kind }),
        Err(TraceFault::NoMemory) => Err(Status::NoMemory),
    }
}
