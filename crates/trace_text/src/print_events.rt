//! Appends the lines of the events of all shards.
ghost use Rattle.std.specs.Prelude.{◌≡◌, ◌<◌, ◌^◌, ◌++◌, OnOk, length, string_bytes};
ghost use Rattle.trace_text.specs.EndText.{end_lines};
ghost use Rattle.trace_text.specs.EventText.{event_line, event_lines, history_lines};

use crate::ends::ShardEnd;
use crate::event_words::EventWords;
use crate::items::History;
use arc_core::{Event, Events};
use std::alloc::{AllocError, Global};
use std::fmt::Write;

/// Appends a line for each event of each shard.
pub(crate) fn write_histories(
    alloc: Global,
    text: &mut Vec<u8>,
    histories: &[History],
) -> Result<(), AllocError>
    ensures { OnOk result (text.new.items ≡ text.old.items ++ history_lines 0 histories.now) }
{
    let mut line = String::new(alloc);
    for (shard, history) in histories.iter().enumerate() {
        write_events(text, &mut line, shard, history.iter())?;
    }
    Ok(())
}

/// Appends a line for each event of a shard, with its number. Each is made in `line` first.
fn write_events(
    text: &mut Vec<u8>,
    line: &mut String,
    shard: usize,
    events: Events<'_>,
) -> Result<(), AllocError>
    requires { length events < 2 ^ 32 }
    ensures { OnOk result (text.new.items ≡ text.old.items ++ event_lines shard 0 events.entry) }
{
    for (number, event) in events.enumerate() {
        write_event(text, line, shard, number, &event)?;
    }
    Ok(())
}

/// Appends the line of an event, which is made in `line` first.
fn write_event(
    text: &mut Vec<u8>,
    line: &mut String,
    shard: usize,
    number: usize,
    event: &Event,
) -> Result<(), AllocError>
    ensures { OnOk result (text.new.items ≡ text.old.items ++ event_line shard number event.now) }
{
    line.clear();
    write!(line, "e {shard} {number} {}\n", EventWords(*event))?;
    text.extend_from_slice(line.as_bytes())
}

/// Appends a line for what each shard ends with.
pub(crate) fn write_ends(text: &mut String, ends: &[ShardEnd]) -> Result<(), AllocError>
    ensures { OnOk result (string_bytes text.new ≡ string_bytes text.old ++ end_lines 0 ends.now) }
{
    for (shard, end) in ends.iter().enumerate() {
        write!(text, "shard {shard} {end}\n")?;
    }
    Ok(())
}
