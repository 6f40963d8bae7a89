//! The command `check`: whether a log of events may have happened.
ghost use Rattle.std.specs.Prelude.{◌≡◌, ◌+◌, ◌++◌, IfErr, IfOk, OnOk, length, string_bytes, sum_by};
ghost use Rattle.arc_check.specs.LogText.{IsLog};
ghost use Rattle.trace_text.specs.EndText.{end_lines};
ghost use Rattle.trace_text.specs.Grammar.{longest_text};
ghost use Rattle.trace_run.specs.CheckText.{check_text, illegal_text, legal_text};
ghost use Rattle.vdev_io.specs.Streams.{TakesAtMost};
ghost use Rattle.vdev_io.specs.Streams.{sink_state, source_state};
ghost use Rattle.trace_run.specs.Outcome.{AnswersLog, AnswersLogSource, IfUsage, IsReadStatus, WasLogRead};

use crate::status::Status;
use arc_check::{History, Log, LogTextFault, Verdict, check, read_events};
use std::alloc::{AllocError, Global};
use std::fmt::Write;
use trace_text::{LONGEST_TEXT, ShardEnd};
use vdev_io::{Failed, ReadAllFault, Sink, Source, read_all, write_all};

/// Reads a log of events from the source, and writes to the sink whether each shard's history is legal, with what the shards end with, or
/// else the first event that may not come where it stands.
pub(crate) fn run_check<S: Source, K: Sink>(alloc: Global, source: &mut S, sink: &mut K) -> Status
    ensures past_words { IfUsage result ⊥ }
    ensures took { TakesAtMost (S.left source.old) (S.left source.new) (longest_text + 1) }
    ensures answers { AnswersLog (source_state S.Source source.old) (source_state S.Source source.new)
        (sink_state K.Sink sink.old) (sink_state K.Sink sink.new) result }
{
    let log = match log_of(alloc, source) {
        Ok(log) => log,
        Err(status) => return status,
    };
    let Ok(verdict) = check(alloc, &log) else {
        return Status::NoMemory;
    };
    let Ok(text) = check_text(alloc, &log, &verdict) else {
        return Status::NoMemory;
    };
    match (write_all(sink, text.as_bytes()), &verdict) {
        (Err(Failed), _) => Status::SinkFault,
        (Ok(()), Verdict::Legal { .. }) => Status::Ok,
        (Ok(()), Verdict::Illegal { shard, index }) => Status::Illegal {
            shard: *shard,
            index: *index,
        },
    }
}

/// Reads the log of events that a source holds.
fn log_of<S: Source>(alloc: Global, source: &mut S) -> Result<Log, Status>
    ensures took { TakesAtMost (S.left source.old) (S.left source.new) (longest_text + 1) }
    ensures read { IfOk result (WasLogRead (source_state S.Source source.old) (source_state S.Source source.new)) }
    ensures formed { IfOk result IsLog }
    ensures err { IfErr result (AnswersLogSource (source_state S.Source source.old) (source_state S.Source source.new)) }
    ensures which { IfErr result IsReadStatus }
{
    let text = match read_all(alloc, source, LONGEST_TEXT) {
        Ok(text) => text,
        Err(ReadAllFault::SourceFault) => return Err(Status::SourceFault),
        Err(ReadAllFault::NoMemory) => return Err(Status::NoMemory),
    };
    match read_events(alloc, &text) {
        Ok(log) => Ok(log),
        Err(LogTextFault::Bad { line, kind }) => Err(Status::BadTrace { line, kind }),
        Err(LogTextFault::NoMemory) => Err(Status::NoMemory),
    }
}

/// The text of a verdict on a log.
fn check_text(alloc: Global, log: &Log, verdict: &Verdict) -> Result<String, AllocError>
    ensures { IfOk result (λ text. string_bytes text ≡ check_text log.now verdict.now) }
{
    match verdict {
        Verdict::Legal { ends } => legal_text(
            alloc,
            events_in(log.histories.as_slice()),
            ends.as_slice(),
        ),
        Verdict::Illegal { shard, index } => illegal_text(alloc, *shard, *index),
    }
}

/// The text of legal histories: how many events they have, and what the shards end with.
fn legal_text(alloc: Global, events: u128, ends: &[ShardEnd]) -> Result<String, AllocError>
    ensures { IfOk result (λ text. string_bytes text ≡ legal_text events ends.now) }
{
    let mut text = String::new(alloc);
    write!(text, "check ok {events}\n")?;
    write_ends(&mut text, ends)?;
    text.push_str("end 0\n")?;
    Ok(text)
}

/// The text that tells the first event that may not come.
fn illegal_text(alloc: Global, shard: u32, index: u64) -> Result<String, AllocError>
    ensures { IfOk result (λ text. string_bytes text ≡ illegal_text shard index) }
{
    let mut text = String::new(alloc);
    write!(text, "check bad {shard} {index}\n")?;
    text.push_str("end 10\n")?;
    Ok(text)
}

/// Appends a line for what each shard ends with.
fn write_ends(text: &mut String, ends: &[ShardEnd]) -> Result<(), AllocError>
    ensures { OnOk result (string_bytes text.new ≡ string_bytes text.old ++ end_lines 0 ends.now) }
{
    for (shard, end) in ends.iter().enumerate() {
        write!(text, "shard {shard} {end}\n")?;
    }
    Ok(())
}

/// How many events the shards have in all.
fn events_in(histories: &[History]) -> u128
    ensures { result ≡ sum_by length histories.now }
{
    let mut events = 0;
    for history in histories {
        events += history.len() as u128;
    }
    events
}
