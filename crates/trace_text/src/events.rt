ghost use Rattle.std.specs.Prelude.{◌≡◌, ◌++◌, OnErr, OnOk};
ghost use Rattle.trace_text.specs.EventText.{event_line};

use crate::event_words::EventWords;
use arc_core::Event;
use blk_ptr::NoMemory;
use std::alloc::Global;

/// Appends the line of event number `i` of a shard, counted from 0. After [`NoMemory`] `out` is as before.
pub fn event_text(
    alloc: Global,
    shard: u32,
    i: u64,
    e: &Event,
    out: &mut Vec<u8>,
) -> Result<(), NoMemory>
    ensures ok { OnOk result (out.new.items ≡ out.old.items ++ event_line shard i e.now) }
    ensures err { OnErr result (out.new.items ≡ out.old.items) }
{
    let line = format!(in alloc; "e {shard} {i} {}\n", EventWords(*e))?;
    out.extend_from_slice(line.as_bytes())?;
    Ok(())
}
