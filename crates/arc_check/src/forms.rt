//! The form of each line of a log: its words, and what its fields say. A line is split once, as its fields are read; only the name of an
//! event is looked for first, and a line at fault is split once more, for its shape.
ghost use Rattle.std.specs.Prelude.{◌≡◌, ◌↔◌, ◌∷◌, IsTrue, MatchOption, None, Some, codes, length, slice_get};
ghost use Rattle.arc_core.specs.declared.config.Config.{Config};
ghost use Rattle.trace_text.specs.Grammar.{fields_of};
ghost use Rattle.arc_core.specs.Config.{IsConfig};
ghost use Rattle.arc_check.specs.LogText.{HasFields, log_field_count, name_text};
ghost use Rattle.arc_check.specs.Reading.{IsBoundsRead, IsLineRead, IsMadeRead, IsNameRead, IsSizesRead};

use crate::events::event_after;
use crate::fields::{LARGEST_PLAIN, name_of, next_below, next_number};
use crate::words::{Line, Made, Name};
use arc_core::{Bounds, Config};
use trace_text::{Kind, Parts};

/// The largest number of bytes of a cache or a feed, and of ticks of MINTIME.
const LARGEST_SIZE: u64 = 1 << 32;

/// The bounds of a feed where no line gives them (OpenZFS `L2ARC_WRITE_SIZE` and `L2ARC_HEADROOM`).
const DEFAULT_BOUNDS: Bounds = Bounds {
    write_max: 8_388_608,
    headroom: 2,
};

/// How many fields come after an event's name.
fn fields_after(name: Name) -> usize
    ensures { result ≡ log_field_count name }
{
    match name {
        Name::Pass | Name::Hit | Name::Miss => 5,
        Name::Arrive => 6,
        Name::Fail => 5,
        Name::Drop => 4,
        Name::Past | Name::Hand => 5,
        Name::Insert => 6,
        Name::Release => 5,
        Name::Pick => 4,
        Name::FeedEnd => 1,
        Name::Set | Name::Leave => 5,
        Name::Clear => 4,
        Name::Restore => 6,
        Name::Resize => 2,
    }
}

/// Whether a line has so many fields, and none of them is empty.
fn has_fields(count: usize, line: &[u8]) -> bool
    ensures { IsTrue result ↔ HasFields count (fields_of line.now) }
{
    let mut fields = Parts::new(line, b' ');
    let mut wanted = count;
    while let Some(field) = fields.next() {
        if field.is_empty() || wanted == 0 {
            return false;
        }
        wanted -= 1;
    }
    wanted == 0
}

/// The first line that counts: the sizes of the cache.
pub(crate) fn first_line(line: &[u8]) -> Result<Line, Kind>
    ensures { IsLineRead None (fields_of line.now) result }
{
    let mut fields = Parts::new(line, b' ');
    let first = fields.next().unwrap_or(b"");
    if first != b"arc".as_slice() {
        return Err(Kind::First);
    }
    match sizes(&mut fields) {
        Some(sizes) => Ok(Line::Sizes(sizes)),
        None if has_fields(8, line) => Err(Kind::Number),
        None => Err(Kind::Shape),
    }
}

/// A line after the first: the bounds of a feed, or an event.
pub(crate) fn next_line(config: Config, line: &[u8]) -> Result<Line, Kind>
    requires { IsConfig config }
    ensures { IsLineRead (Some config) (fields_of line.now) result }
{
    let mut fields = Parts::new(line, b' ');
    let first = fields.next().unwrap_or(b"");
    if first == b"l2".as_slice() {
        feed_line(line, &mut fields)
    } else if first == b"e".as_slice() {
        event_line(config, line, &mut fields)
    } else {
        Err(Kind::Word)
    }
}

/// The sizes of the cache: callers, shards, buckets, cells, `c`, MINTIME and the bytes of dbufs.
fn sizes(fields: &mut Parts<'_>) -> Option<Config>
    ensures { IsSizesRead fields.old result }
{
    let callers = next_number(fields, 1, 16)? as u32;
    let shards = next_number(fields, 1, 16)?;
    let buckets = next_number(fields, 1, 256)? as u32;
    let cells = next_number(fields, 1, 16)? as u32;
    let c = next_number(fields, 4096, LARGEST_SIZE)?;
    let mintime = next_number(fields, 0, LARGEST_SIZE)?;
    let dbuf_bytes = next_number(fields, 0, LARGEST_SIZE)?;
    if fields.next().is_some() {
        return None;
    }
    if shards * c > LARGEST_SIZE {
        return None;
    }
    Some(Config {
        callers,
        shards: shards as u32,
        buckets,
        cells,
        c,
        mintime,
        dbuf_bytes,
        bounds: DEFAULT_BOUNDS,
    })
}

/// The bounds of a feed: the most bytes that it picks, and its headroom.
fn bounds(fields: &mut Parts<'_>) -> Option<Bounds>
    ensures { IsBoundsRead fields.old result }
{
    let write_max = next_number(fields, 512, LARGEST_SIZE)?;
    let headroom = next_number(fields, 1, 64)?;
    if fields.next().is_some() {
        return None;
    }
    Some(Bounds {
        write_max,
        headroom,
    })
}

/// The line of a feed's bounds, where `fields` are those after its word.
fn feed_line(line: &[u8], fields: &mut Parts<'_>) -> Result<Line, Kind>
    requires { fields_of line.now ≡ codes "l2" ∷ fields.old }
    ensures { (config : Config) → IsLineRead (Some config) (fields_of line.now) result }
{
    match bounds(fields) {
        Some(bounds) => Ok(Line::Feed(bounds)),
        None if has_fields(3, line) => Err(Kind::Number),
        None => Err(Kind::Shape),
    }
}

/// The line of an event, where `fields` are those after its word.
fn event_line(config: Config, line: &[u8], fields: &mut Parts<'_>) -> Result<Line, Kind>
    requires ranged { IsConfig config }
    requires begun { fields_of line.now ≡ codes "e" ∷ fields.old }
    ensures { IsLineRead (Some config) (fields_of line.now) result }
{
    let name = name_in(line)?;
    match made(config, name, fields) {
        Some(made) => Ok(Line::Made(made)),
        None if has_fields(4 + fields_after(name), line) => Err(Kind::Number),
        None => Err(Kind::Shape),
    }
}

/// The fourth field of a line.
fn fourth(line: &[u8]) -> Option<&[u8]>
    ensures { MatchOption result (slice_get (fields_of line.now) 3 ≡ None) (λ field. slice_get (fields_of line.now) 3 ≡ Some field.now) }
{
    let mut fields = Parts::new(line, b' ');
    let _word = fields.next()?;
    let _shard = fields.next()?;
    let _index = fields.next()?;
    fields.next()
}

/// The name of the event of a line, which is the fourth field.
fn name_in(line: &[u8]) -> Result<Name, Kind>
    ensures { IsNameRead (fields_of line.now) result }
{
    let Some(named) = fourth(line) else {
        return Err(Kind::Shape);
    };
    match name_of(named) {
        Some(name) => Ok(name),
        None => Err(Kind::Word),
    }
}

/// An event with its place, whose line has this name of an event.
fn made(config: Config, name: Name, fields: &mut Parts<'_>) -> Option<Made>
    requires { IsConfig config }
    ensures { slice_get fields.old 2 ≡ Some (name_text name) → IsMadeRead config name fields.old result }
{
    let shard = next_below(fields, config.shards)?;
    let index = next_number(fields, 0, LARGEST_PLAIN)?;
    let _named = fields.next()?;
    let parties = config.callers + 1 + config.cells;
    let event = event_after(parties, name, fields)?;
    if fields.next().is_some() {
        return None;
    }
    Some(Made {
        shard,
        index,
        event,
    })
}
