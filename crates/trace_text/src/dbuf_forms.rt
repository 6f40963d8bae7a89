//! The forms of the lines about blocks of objects, as those of `forms`.
ghost use Rattle.std.specs.Prelude.{◌≡◌, ◌∷◌, IfOk, length};
ghost use Rattle.trace_text.specs.Grammar.{IsInOrder, Spell, field_count, word_text};
ghost use Rattle.trace_text.specs.Reading.{IsFormRead, IsLineFormRead};
ghost use Rattle.trace_text.specs.declared.words.Word.TheVariants as words;

use crate::fault::Kind;
use crate::fields::{
    LARGEST_PLAIN, next_below, next_byte, next_number, next_oid, next_run, next_size, no_more,
};
use crate::forms::declared_block;
use crate::mapping::Mapping;
use crate::op::Op;
use crate::parts::Parts;
use crate::run::Run;
use crate::words::{Line, LineFault, Seen};
use dbuf_state::Window;
use std::alloc::Global;

/// A block of an object that is mapped: object, block of it, and declared block.
pub(crate) fn mapped(seen: Seen, fields: &mut Parts<'_>) -> Result<Line, Kind>
    ensures ok { IfOk result (λ line. Spell seen.callers seen.shards (word_text words.Object ∷ fields.old) line × IsInOrder seen line) }
    ensures err { length fields.old ≡ field_count words.Object → IsFormRead seen words.Object fields.old result }
{
    let at = next_oid(fields)?;
    let named = next_number(fields, 0, LARGEST_PLAIN)?;
    no_more(fields)?;
    if seen.operations != 0 {
        return Err(Kind::Order);
    }
    let block = declared_block(seen, named)?;
    Ok(Line::Mapped(Mapping { at, block }))
}

/// A look at a block: caller, tick, object, block, and the window's start and length.
pub(crate) fn got(seen: Seen, fields: &mut Parts<'_>) -> Result<Line, Kind>
    ensures ok { IfOk result (λ line. Spell seen.callers seen.shards (word_text words.Get ∷ fields.old) line × IsInOrder seen line) }
    ensures err { length fields.old ≡ field_count words.Get → IsFormRead seen words.Get fields.old result }
{
    let n = next_below(fields, seen.callers)?;
    let t = next_number(fields, 0, LARGEST_PLAIN)?;
    let at = next_oid(fields)?;
    let start = next_number(fields, 0, u64::from(u32::MAX))? as u32;
    let len = next_number(fields, 0, 64)? as u32;
    no_more(fields)?;
    let w = Window { at: start, len };
    Ok(Line::Operation(Op::Get { n, t, at, w }))
}

/// A whole block that is written: caller, tick, object, block, size and byte.
pub(crate) fn put(seen: Seen, fields: &mut Parts<'_>) -> Result<Line, Kind>
    ensures ok { IfOk result (λ line. Spell seen.callers seen.shards (word_text words.Put ∷ fields.old) line × IsInOrder seen line) }
    ensures err { length fields.old ≡ field_count words.Put → IsFormRead seen words.Put fields.old result }
{
    let n = next_below(fields, seen.callers)?;
    let t = next_number(fields, 0, LARGEST_PLAIN)?;
    let at = next_oid(fields)?;
    let size = next_size(fields)?;
    let fill = next_byte(fields)?;
    no_more(fields)?;
    Ok(Line::Operation(Op::Put {
        n,
        t,
        at,
        size,
        fill,
    }))
}

/// A part of a block that is written: caller, tick, object, block, start and bytes.
pub(crate) fn patched(alloc: Global, seen: Seen, fields: &mut Parts<'_>) -> Result<Line, LineFault>
    ensures ok { IfOk result (λ line. Spell seen.callers seen.shards (word_text words.Patch ∷ fields.old) line × IsInOrder seen line) }
    ensures err { length fields.old ≡ field_count words.Patch → IsLineFormRead seen words.Patch fields.old result }
{
    let n = next_below(fields, seen.callers)?;
    let t = next_number(fields, 0, LARGEST_PLAIN)?;
    let at = next_oid(fields)?;
    let from = next_number(fields, 0, u64::from(u32::MAX))? as u32;
    let bytes = next_run(fields)?;
    no_more(fields)?;
    let bytes = Run::new(alloc, bytes)?;
    Ok(Line::Operation(Op::Patch {
        n,
        t,
        at,
        from,
        bytes,
    }))
}

/// A dbuf that is kept: caller, tick, object and block.
pub(crate) fn pinned(seen: Seen, fields: &mut Parts<'_>) -> Result<Line, Kind>
    ensures ok { IfOk result (λ line. Spell seen.callers seen.shards (word_text words.Pin ∷ fields.old) line × IsInOrder seen line) }
    ensures err { length fields.old ≡ field_count words.Pin → IsFormRead seen words.Pin fields.old result }
{
    let n = next_below(fields, seen.callers)?;
    let t = next_number(fields, 0, LARGEST_PLAIN)?;
    let at = next_oid(fields)?;
    no_more(fields)?;
    Ok(Line::Operation(Op::Pin { n, t, at }))
}

/// The end of a pin: caller, object and block.
pub(crate) fn unpinned(seen: Seen, fields: &mut Parts<'_>) -> Result<Line, Kind>
    ensures ok { IfOk result (λ line. Spell seen.callers seen.shards (word_text words.Unpin ∷ fields.old) line × IsInOrder seen line) }
    ensures err { length fields.old ≡ field_count words.Unpin → IsFormRead seen words.Unpin fields.old result }
{
    let n = next_below(fields, seen.callers)?;
    let at = next_oid(fields)?;
    no_more(fields)?;
    Ok(Line::Operation(Op::Unpin { n, at }))
}
