//! The form of each line of a trace: its first word, and what its fields say. A line is split once, as its fields are read: so one that
//! has too few fields or too many is found out on the way, and then its fault is the shape, whatever was told of a field.
ghost use Rattle.std.specs.Prelude.{◌≡◌, ◌<◌, ◌≤◌, ◌∷◌, IfOk, MatchResult, length};
ghost use Rattle.trace_text.specs.Grammar.{IsInOrder, Spell, field_count, word_text};
ghost use Rattle.trace_text.specs.Reading.{IsFormRead};
ghost use Rattle.trace_text.specs.declared.words.Word.TheVariants as words;

use crate::bounds::DEFAULT_BOUNDS;
use crate::fault::Kind;
use crate::fields::{LARGEST_PLAIN, next_below, next_digest, next_number, no_more};
use crate::op::Op;
use crate::parts::Parts;
use crate::words::{Line, Seen};
use arc_core::{Bounds, Config};
use blk_ptr::{Key, Ptr, SECTOR};
use dbuf_state::Window;

/// The largest number of bytes of a cache or a block, and of ticks of MINTIME.
const LARGEST_SIZE: u64 = 1 << 32;

/// The sizes of the cache: callers, shards, buckets, cells, `c`, MINTIME and the bytes of dbufs.
pub(crate) fn sizes(seen: Seen, fields: &mut Parts<'_>) -> Result<Line, Kind>
    ensures ok { IfOk result (λ line. Spell seen.callers seen.shards (word_text words.Arc ∷ fields.old) line × IsInOrder seen line) }
    ensures err { length fields.old ≡ field_count words.Arc → IsFormRead seen words.Arc fields.old result }
{
    let callers = next_number(fields, 1, 16)? as u32;
    let shards = next_number(fields, 1, 16)?;
    let buckets = next_number(fields, 1, 256)? as u32;
    let cells = next_number(fields, 1, 16)? as u32;
    let c = next_number(fields, 4096, LARGEST_SIZE)?;
    let mintime = next_number(fields, 0, LARGEST_SIZE)?;
    let dbuf_bytes = next_number(fields, 0, LARGEST_SIZE)?;
    no_more(fields)?;
    if shards * c > LARGEST_SIZE {
        return Err(Kind::Number);
    }
    Ok(Line::Sizes(Config {
        callers,
        shards: shards as u32,
        buckets,
        cells,
        c,
        mintime,
        dbuf_bytes,
        bounds: DEFAULT_BOUNDS,
    }))
}

/// The bounds of a feed: the most bytes that it writes, and its headroom.
pub(crate) fn limited(seen: Seen, fields: &mut Parts<'_>) -> Result<Line, Kind>
    ensures ok { IfOk result (λ line. Spell seen.callers seen.shards (word_text words.L2 ∷ fields.old) line × IsInOrder seen line) }
    ensures err { length fields.old ≡ field_count words.L2 → IsFormRead seen words.L2 fields.old result }
{
    let write_max = next_number(fields, SECTOR, LARGEST_SIZE)?;
    let headroom = next_number(fields, 1, 64)?;
    no_more(fields)?;
    if seen.operations != 0 {
        return Err(Kind::Order);
    }
    if seen.limited {
        return Err(Kind::Order);
    }
    Ok(Line::Limited(Bounds {
        write_max,
        headroom,
    }))
}

/// A block pointer: offset, size, birth and digest.
pub(crate) fn declared(seen: Seen, fields: &mut Parts<'_>) -> Result<Line, Kind>
    ensures ok { IfOk result (λ line. Spell seen.callers seen.shards (word_text words.Block ∷ fields.old) line × IsInOrder seen line) }
    ensures err { length fields.old ≡ field_count words.Block → IsFormRead seen words.Block fields.old result }
{
    let offset = next_number(fields, 0, LARGEST_PLAIN)?;
    let size = next_number(fields, 0, LARGEST_SIZE)?;
    let birth = next_number(fields, 0, LARGEST_PLAIN)?;
    let digest = next_digest(fields)?;
    no_more(fields)?;
    if seen.operations != 0 {
        return Err(Kind::Order);
    }
    let key = Key {
        offset,
        size,
        birth,
    };
    Ok(Line::Declared(Ptr { key, digest }))
}

/// A read: caller, tick, block, and the window's start and length.
pub(crate) fn read(seen: Seen, fields: &mut Parts<'_>) -> Result<Line, Kind>
    ensures ok { IfOk result (λ line. Spell seen.callers seen.shards (word_text words.Read ∷ fields.old) line × IsInOrder seen line) }
    ensures err { length fields.old ≡ field_count words.Read → IsFormRead seen words.Read fields.old result }
{
    let n = next_below(fields, seen.callers)?;
    let t = next_number(fields, 0, LARGEST_PLAIN)?;
    let named = next_number(fields, 0, LARGEST_PLAIN)?;
    let at = next_number(fields, 0, u64::from(u32::MAX))? as u32;
    let len = next_number(fields, 0, 64)? as u32;
    no_more(fields)?;
    let x = declared_block(seen, named)?;
    let w = Window { at, len };
    Ok(Line::Operation(Op::Read { n, t, x, w }))
}

/// A read that keeps the block: caller, tick and block.
pub(crate) fn held(seen: Seen, fields: &mut Parts<'_>) -> Result<Line, Kind>
    ensures ok { IfOk result (λ line. Spell seen.callers seen.shards (word_text words.Hold ∷ fields.old) line × IsInOrder seen line) }
    ensures err { length fields.old ≡ field_count words.Hold → IsFormRead seen words.Hold fields.old result }
{
    let n = next_below(fields, seen.callers)?;
    let t = next_number(fields, 0, LARGEST_PLAIN)?;
    let named = next_number(fields, 0, LARGEST_PLAIN)?;
    no_more(fields)?;
    let x = declared_block(seen, named)?;
    Ok(Line::Operation(Op::Hold { n, t, x }))
}

/// The end of such a read: caller and block.
pub(crate) fn dropped(seen: Seen, fields: &mut Parts<'_>) -> Result<Line, Kind>
    ensures ok { IfOk result (λ line. Spell seen.callers seen.shards (word_text words.Drop ∷ fields.old) line × IsInOrder seen line) }
    ensures err { length fields.old ≡ field_count words.Drop → IsFormRead seen words.Drop fields.old result }
{
    let n = next_below(fields, seen.callers)?;
    let named = next_number(fields, 0, LARGEST_PLAIN)?;
    no_more(fields)?;
    let x = declared_block(seen, named)?;
    Ok(Line::Operation(Op::Drop { n, x }))
}

/// One feed of the cache device.
pub(crate) fn fed(seen: Seen, fields: &mut Parts<'_>) -> Result<Line, Kind>
    ensures ok { IfOk result (λ line. Spell seen.callers seen.shards (word_text words.Feed ∷ fields.old) line × IsInOrder seen line) }
    ensures err { length fields.old ≡ field_count words.Feed → IsFormRead seen words.Feed fields.old result }
{
    no_more(fields)?;
    Ok(Line::Operation(Op::Feed))
}

/// The end of a group: its tick.
pub(crate) fn synced(seen: Seen, fields: &mut Parts<'_>) -> Result<Line, Kind>
    ensures ok { IfOk result (λ line. Spell seen.callers seen.shards (word_text words.Txg ∷ fields.old) line × IsInOrder seen line) }
    ensures err { length fields.old ≡ field_count words.Txg → IsFormRead seen words.Txg fields.old result }
{
    let t = next_number(fields, 0, LARGEST_PLAIN)?;
    no_more(fields)?;
    Ok(Line::Operation(Op::Txg { t }))
}

/// A new capacity of every shard, with which all shards together stay as small as the first line allows.
pub(crate) fn capped(seen: Seen, fields: &mut Parts<'_>) -> Result<Line, Kind>
    ensures ok { IfOk result (λ line. Spell seen.callers seen.shards (word_text words.Cap ∷ fields.old) line × IsInOrder seen line) }
    ensures err { length fields.old ≡ field_count words.Cap → IsFormRead seen words.Cap fields.old result }
{
    let c = next_number(fields, 4096, LARGEST_SIZE)?;
    no_more(fields)?;
    let shards = u64::from(seen.shards);
    if shards * c > LARGEST_SIZE {
        return Err(Kind::Number);
    }
    Ok(Line::Operation(Op::Cap { c }))
}

/// The number of a block that an earlier line declares.
pub(crate) fn declared_block(seen: Seen, named: u64) -> Result<u32, Kind>
    ensures { MatchResult result
        (λ x. (x ≡ named) × (named < seen.blocks))
        (λ kind. (kind ≡ Kind.Order) × (seen.blocks ≤ named)) }
{
    if named < u64::from(seen.blocks) {
        Ok(named as u32)
    } else {
        Err(Kind::Order)
    }
}
