//! Reads a trace, line by line.
ghost use Rattle.std.specs.Prelude.{◌≡◌, ◌+◌, ◌≤◌, ◌==◌, IfErr, IfOk, count_by, length, take};
ghost use Rattle.trace_text.specs.Grammar.{AddAll, IsCause, IsFormed, IsTraceText, lines_of, longest_text, nothing};
ghost use Rattle.trace_text.specs.Reading.{IsFaultAt, IsLinesCause};

use crate::draft::Draft;
use crate::fault::{Kind, TraceFault};
use crate::parts::Parts;
use crate::trace::Trace;
use crate::words::LineFault;
use std::alloc::Global;

/// The most bytes of a text.
pub const LONGEST_TEXT: usize = 67_108_864;

/// Reads a trace. Its text and its faults are those of `specs/Grammar.antt`:
/// an `Ok` is the one trace that the text is, and a `Bad` names the first line at fault and what is wrong with it.
/// Each line is split once, as its fields are read, and none is copied. Only one at fault is split once more, for its shape.
pub fn read_trace(alloc: Global, bytes: &[u8]) -> Result<Trace, TraceFault>
    ensures read { IfOk result (IsTraceText bytes.now) }
    ensures formed { IfOk result IsFormed }
    ensures fault { IfErr result (IsCause bytes.now) }
{
    if bytes.len() > LONGEST_TEXT {
        return Err(TraceFault::Bad {
            line: line_past(bytes),
            kind: Kind::Length,
        });
    }
    match read_lines(alloc, bytes)?.into_trace() {
        Some(trace) => Ok(trace),
        None => Err(TraceFault::Bad {
            line: 1,
            kind: Kind::First,
        }),
    }
}

/// The number of the line that holds the first byte past the longest text.
pub(crate) fn line_past(bytes: &[u8]) -> u32
    requires { longest_text ≤ length bytes.now }
    ensures { result ≡ count_by (λ b. b == 10) (take longest_text bytes.now) + 1 }
{
    newlines_of(&bytes[..LONGEST_TEXT]) as u32 + 1
}

/// How many newlines there are.
fn newlines_of(bytes: &[u8]) -> usize
    ensures counted { result ≡ count_by (λ b. b == 10) bytes.now }
    ensures bound { result ≤ length bytes.now }
{
    bytes.iter().filter(|byte| **byte == b'\n').count()
}

/// What all lines of a text say, or the first fault of one.
fn read_lines(alloc: Global, text: &[u8]) -> Result<Draft, TraceFault>
    requires { length text.now ≤ longest_text }
    ensures read { IfOk result (AddAll nothing (lines_of text.now)) }
    ensures fault { IfErr result (IsLinesCause (lines_of text.now)) }
{
    let mut draft = Draft::new(alloc);
    let mut lines = Parts::new(text, b'\n');
    let mut number = 0;
    while let Some(line) = lines.next() {
        number += 1;
        if let Err(fault) = draft.add(line) {
            return Err(fault_at(number, fault));
        }
    }
    Ok(draft)
}

/// A line's fault, with the line's number.
pub(crate) fn fault_at(line: u32, fault: LineFault) -> TraceFault
    ensures { IsFaultAt line fault result }
{
    match fault {
        LineFault::Wrong(kind) => TraceFault::Bad { line, kind },
        LineFault::NoMemory => TraceFault::NoMemory,
    }
}
