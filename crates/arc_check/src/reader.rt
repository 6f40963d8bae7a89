//! Reads a log, line by line.
ghost use Rattle.std.specs.Prelude.{◌≡◌, ◌+◌, ◌≤◌, ◌==◌, IfErr, IfOk, count_by, length, take};
ghost use Rattle.trace_text.specs.Grammar.{lines_of, longest_text};
ghost use Rattle.arc_check.specs.LogText.{AddAllToLog, IsLogCause, IsLog, IsLogText, empty_log};
ghost use Rattle.arc_check.specs.Reading.{IsFaultAt, IsLinesCause};

use crate::draft::Draft;
use crate::log::{Log, LogTextFault};
use crate::words::LineFault;
use blk_ptr::NoMemory;
use std::alloc::Global;
use trace_text::{Kind, Parts};

/// The most bytes of a text.
const LONGEST_TEXT: usize = 67_108_864;

/// Reads a log of events. Its text and its faults are those of `specs/LogText.antt`: an `Ok` is a log that the text is, and a `Bad` names
/// the first line at fault and what is wrong with it. A log that is read has a configuration in its ranges, and a history for each of its
/// shards. Each line is split once, as its fields are read, and none is copied; only the name of its event is looked for first.
pub fn read_events(alloc: Global, bytes: &[u8]) -> Result<Log, LogTextFault>
    ensures read { IfOk result (IsLogText bytes.now) }
    ensures formed { IfOk result IsLog }
    ensures fault { IfErr result (IsLogCause bytes.now) }
{
    if bytes.len() > LONGEST_TEXT {
        return Err(LogTextFault::Bad {
            line: line_past(bytes),
            kind: Kind::Length,
        });
    }
    let draft = read_lines(alloc, bytes)?;
    match draft.into_log() {
        Ok(Some(log)) => Ok(log),
        Ok(None) => Err(LogTextFault::Bad {
            line: 1,
            kind: Kind::First,
        }),
        Err(NoMemory) => Err(LogTextFault::NoMemory),
    }
}

/// The number of the line that holds the first byte past the longest text.
fn line_past(bytes: &[u8]) -> u32
    requires { longest_text ≤ length bytes.now }
    ensures { result ≡ count_by (λ b. b == 10) (take longest_text bytes.now) + 1 }
{
    newlines_of(&bytes[..LONGEST_TEXT]) as u32 + 1
}

/// How many newlines there are.
fn newlines_of(bytes: &[u8]) -> usize
    ensures counted { result ≡ count_by (λ b. b == 10) bytes.now }
    ensures bound { result ≤ length bytes.now }
{
    bytes.iter().filter(|byte| **byte == b'\n').count()
}

/// What all lines of a text say, or the first fault of one.
fn read_lines(alloc: Global, text: &[u8]) -> Result<Draft, LogTextFault>
    requires { length text.now ≤ longest_text }
    ensures read { IfOk result (AddAllToLog empty_log (lines_of text.now)) }
    ensures fault { IfErr result (IsLinesCause (lines_of text.now)) }
{
    let mut draft = Draft::new(alloc);
    let mut lines = Parts::new(text, b'\n');
    let mut number = 0;
    while let Some(line) = lines.next() {
        number += 1;
        if let Err(fault) = draft.add(line) {
            return Err(fault_at(number, fault));
        }
    }
    Ok(draft)
}

/// A line's fault, with the line's number.
fn fault_at(line: u32, fault: LineFault) -> LogTextFault
    ensures { IsFaultAt line fault result }
{
    match fault {
        LineFault::Wrong(kind) => LogTextFault::Bad { line, kind },
        LineFault::NoMemory => LogTextFault::NoMemory,
    }
}
