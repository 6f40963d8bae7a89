//! Appends the text of a report.
ghost use Rattle.std.specs.Prelude.{◌≡◌, ◌++◌, OnOk, OnErr, IfOk, codes, decimal, string_bytes};
ghost use Rattle.trace_text.specs.EndText.{io_line};
ghost use Rattle.trace_text.specs.RebuiltText.{rebuilt_line};
ghost use Rattle.trace_text.specs.ReportText.{count_line, last_lines, reply_lines, reply_text, status_line, report_text};

use crate::counting::counts_of;
use crate::items::History;
use crate::print_events::{write_ends, write_histories};
use crate::print_reply::write_reply;
use crate::rebuilt::Rebuilt;
use crate::reply::Reply;
use crate::report::Report;
use crate::totals::Totals;
use blk_ptr::NoMemory;
use itoa::Buffer;
use std::alloc::{AllocError, Global};
use std::fmt::Write;

/// Appends the text of a report, with a line for each event where `events` asks for them. After [`NoMemory`] `out` is as before.
pub fn report_text(
    alloc: Global,
    report: &Report,
    events: bool,
    out: &mut Vec<u8>,
) -> Result<(), NoMemory>
    ensures ok { OnOk result (out.new.items ≡ out.old.items ++ report_text report.now events) }
    ensures err { OnErr result (out.new.items ≡ out.old.items) }
{
    let text = written(alloc, report, events)?;
    if out.is_empty() {
        *out = text;
    } else {
        out.extend_from_slice(text.as_slice())?;
    }
    Ok(())
}

/// The text of a report.
fn written(alloc: Global, report: &Report, events: bool) -> Result<Vec<u8>, AllocError>
    ensures { IfOk result (λ text. text.items ≡ report_text report.now events) }
{
    let mut text = Vec::from_slice(alloc, b"arc 1\n")?;
    if !report.short {
        write_replies(&mut text, report.replies.as_slice())?;
    }
    if events {
        write_histories(alloc, &mut text, report.histories.as_slice())?;
    }
    let mut last = String::new(alloc);
    write_last(&mut last, report)?;
    text.extend_from_slice(last.as_bytes())?;
    Ok(text)
}

/// Appends the lines behind the events.
fn write_last(text: &mut String, report: &Report) -> Result<(), AllocError>
    ensures { OnOk result (string_bytes text.new ≡ string_bytes text.old ++ last_lines report.now) }
{
    write_ends(text, report.ends.as_slice())?;
    write_counts(text, report.histories.as_slice())?;
    write_io(text, report.io)?;
    write_rebuilt(text, &report.rebuilt)?;
    write_status(text, report.status)?;
    Ok(())
}

/// Appends the line of what the events of all shards are counted as.
fn write_counts(text: &mut String, histories: &[History]) -> Result<(), AllocError>
    ensures { OnOk result (string_bytes text.new ≡ string_bytes text.old ++ count_line histories.now) }
{
    write!(text, "count {}\n", counts_of(histories))?;
    Ok(())
}

/// Appends the line of the status.
fn write_status(text: &mut String, status: u8) -> Result<(), AllocError>
    ensures { OnOk result (string_bytes text.new ≡ string_bytes text.old ++ status_line status) }
{
    write!(text, "end {status}\n")?;
    Ok(())
}

/// Appends a line for each reply, with its number.
fn write_replies(text: &mut Vec<u8>, replies: &[Reply]) -> Result<(), AllocError>
    ensures { OnOk result (text.new.items ≡ text.old.items ++ reply_lines 0 replies.now) }
{
    for (number, reply) in replies.iter().enumerate() {
        write_line(text, number, reply)?;
    }
    Ok(())
}

/// Appends the line of the reply of this number.
fn write_line(text: &mut Vec<u8>, number: usize, reply: &Reply) -> Result<(), AllocError>
    ensures { OnOk result (text.new.items ≡ text.old.items ++ decimal number ++ codes " " ++ reply_text reply.now ++ codes "\n") }
{
    let mut digits = Buffer::new();
    text.extend_from_slice(digits.format(number).as_bytes())?;
    text.push(b' ')?;
    write_reply(text, reply)?;
    text.push(b'\n')?;
    Ok(())
}

/// Appends the line of the workers' reads, where there were workers.
fn write_io(text: &mut String, io: Option<Totals>) -> Result<(), AllocError>
    ensures { OnOk result (string_bytes text.new ≡ string_bytes text.old ++ io_line io) }
{
    if let Some(totals) = io {
        write!(text, "io {totals}\n")?;
    }
    Ok(())
}

/// Appends the line of what a start found on the cache device, where there is one.
fn write_rebuilt(text: &mut String, rebuilt: &Option<Rebuilt>) -> Result<(), AllocError>
    ensures { OnOk result (string_bytes text.new ≡ string_bytes text.old ++ rebuilt_line rebuilt.now) }
{
    if let Some(rebuilt) = rebuilt {
        write!(text, "rebuilt {rebuilt}\n")?;
    }
    Ok(())
}
