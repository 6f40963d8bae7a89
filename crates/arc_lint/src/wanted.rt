//! What is wanted of a line, by the kind of its fault.
ghost use Rattle.std.specs.Prelude.{◌≡◌};
ghost use Rattle.arc_lint.specs.Wanted.{log_wanted, pages_wanted, trace_wanted, wanted};

use crate::verdict::Format;
use trace_text::Kind;

/// What is wanted of a line with a fault of this kind.
pub(crate) fn wanted(format: Format, kind: Kind) -> &'static str
    ensures { result.now ≡ wanted format kind }
{
    match format {
        Format::Trace => trace_wanted(kind),
        Format::Pages => pages_wanted(kind),
        Format::Log => log_wanted(kind),
    }
}

/// What is wanted of a line of a trace.
fn trace_wanted(kind: Kind) -> &'static str
    ensures { result.now ≡ trace_wanted kind }
{
    match kind {
        Kind::First => "The first line that counts is the arc line: arc and seven numbers.",
        Kind::Word =>
            "There is one arc line, and any other line begins with another word that docs/FORMATS.md has.",
        Kind::Shape =>
            "A line has the fields that its word wants, with one space between each two and none at its end.",
        Kind::Number =>
            "A number is decimal with no sign and no leading zero, in the range of its field; a digest has 64 lower-case hexadecimal digits, a byte two.",
        Kind::Order =>
            "All l2, block and object lines stand in front of the operations, there is at most one l2 line, a line names a block that an earlier line declares, and no line maps an object's block that is mapped already.",
        Kind::Count =>
            "A trace has at most 100,000 block lines, 100,000 object lines and 1,000,000 operations.",
        Kind::Length => "A trace has at most 67,108,864 bytes.",
    }
}

/// What is wanted of a line of a list of pages. Only a line with a space, a number, a count and a length are at fault there.
fn pages_wanted(kind: Kind) -> &'static str
    ensures { result.now ≡ pages_wanted kind }
{
    match kind {
        Kind::First | Kind::Word | Kind::Shape | Kind::Order =>
            "A line is one page number, with no space.",
        Kind::Number =>
            "A page number is decimal with no sign and no leading zero, from 0 to 4,611,686,018,427,387,904.",
        Kind::Count => "A list has at most 1,000,000 pages.",
        Kind::Length => "A list of pages has at most 67,108,864 bytes.",
    }
}

/// What is wanted of a line of a log of events.
fn log_wanted(kind: Kind) -> &'static str
    ensures { result.now ≡ log_wanted kind }
{
    match kind {
        Kind::First => "The first line that counts is the arc line: arc and seven numbers.",
        Kind::Word =>
            "There is one arc line, and any other line is l2 and two numbers, or e, a shard, an index and the words of an event that docs/FORMATS.md has.",
        Kind::Shape =>
            "A line has the fields that its words want, with one space between each two and none at its end.",
        Kind::Number =>
            "A number is decimal with no sign and no leading zero, in the range of its field; a key is that of a block; a digest has 64 lower-case hexadecimal digits; an event's last word is one that docs/FORMATS.md has.",
        Kind::Order =>
            "An event is the next one of its shard or the first of a greater shard, its key is of that shard, and there is at most one l2 line, in front of all events.",
        Kind::Count => "A log has at most 1,000,000 events.",
        Kind::Length => "A log has at most 67,108,864 bytes.",
    }
}
