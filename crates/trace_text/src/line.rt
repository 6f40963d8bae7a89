//! Which lines of a text are passed over, and what the others are.
ghost use Rattle.std.specs.Prelude.{◌≡◌, ◌≢◌, ◌↔◌, ◌∷◌, IfOk, IsTrue, length};
ghost use Rattle.trace_text.specs.Grammar.{HasShape, IsInOrder, Spell, fields_of, field_count, word_text};
ghost use Rattle.trace_text.specs.Reading.{IsFormRead, IsLineFormRead};
ghost use Rattle.trace_text.specs.declared.words.Word.TheVariants as words;

use crate::dbuf_forms::{got, mapped, patched, pinned, put, unpinned};
use crate::fault::Kind;
use crate::forms::{capped, declared, dropped, fed, held, limited, read, sizes, synced};
use crate::parts::Parts;
use crate::words::{Line, LineFault, Seen, Word};
use std::alloc::Global;

/// How many fields come after a word.
fn fields_after(word: Word) -> usize
    ensures { result ≡ field_count word }
{
    match word {
        Word::Arc => 7,
        Word::L2 => 2,
        Word::Block => 4,
        Word::Object => 3,
        Word::Read => 5,
        Word::Hold => 3,
        Word::Drop => 2,
        Word::Get | Word::Put | Word::Patch => 6,
        Word::Pin => 4,
        Word::Unpin => 3,
        Word::Feed => 0,
        Word::Txg => 1,
        Word::Cap => 1,
    }
}

/// Whether the line has as many fields as the word wants, and none of them is empty.
pub(crate) fn has_shape(word: Word, line: &[u8]) -> bool
    ensures { IsTrue result ↔ HasShape word (fields_of line.now) }
{
    let mut fields = Parts::new(line, b' ');
    let Some(_first) = fields.next() else {
        return false;
    };
    let mut wanted = fields_after(word);
    while let Some(field) = fields.next() {
        if field.is_empty() || wanted == 0 {
            return false;
        }
        wanted -= 1;
    }
    wanted == 0
}

/// What the fields after a word say. What is told of fields that are too many or too few isn't their fault: that is the shape.
pub(crate) fn line_after(
    alloc: Global,
    word: Word,
    seen: Seen,
    fields: &mut Parts<'_>,
) -> Result<Line, LineFault>
    ensures ok { IfOk result (λ line. Spell seen.callers seen.shards (word_text word ∷ fields.old) line × IsInOrder seen line) }
    ensures err { length fields.old ≡ field_count word → IsLineFormRead seen word fields.old result }
{
    match word {
        Word::Patch => patched(alloc, seen, fields),
        other => plain_after(other, seen, fields).map_err(LineFault::Wrong),
    }
}

/// The same, of a word whose lines need no memory of their own.
fn plain_after(word: Word, seen: Seen, fields: &mut Parts<'_>) -> Result<Line, Kind>
    requires { word ≢ words.Patch }
    ensures ok { IfOk result (λ line. Spell seen.callers seen.shards (word_text word ∷ fields.old) line × IsInOrder seen line) }
    ensures err { length fields.old ≡ field_count word → IsFormRead seen word fields.old result }
{
    match word {
        Word::Arc => sizes(seen, fields),
        Word::L2 => limited(seen, fields),
        Word::Block => declared(seen, fields),
        Word::Object => mapped(seen, fields),
        Word::Read => read(seen, fields),
        Word::Hold => held(seen, fields),
        Word::Drop => dropped(seen, fields),
        Word::Get => got(seen, fields),
        Word::Put => put(seen, fields),
        Word::Patch => unreachable!(),
        Word::Pin => pinned(seen, fields),
        Word::Unpin => unpinned(seen, fields),
        Word::Feed => fed(seen, fields),
        Word::Txg => synced(seen, fields),
        Word::Cap => capped(seen, fields),
    }
}
