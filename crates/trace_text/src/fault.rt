//! What is wrong with a line of a trace, and why a text was not read.
/// What is wrong with a line of a trace. Where several are, the first of this list counts.
#[derive(Clone, Copy, Debug, PartialEq, Eq)]
pub enum Kind {
    /// The first line that isn't passed over does not begin with the word `arc`, or there is none.
    First,
    /// The first field is no word that a line may begin with, or is a second `arc`.
    Word,
    /// The number of fields isn't that of the word, or a field is empty.
    Shape,
    /// A field isn't spelled as a number or a digest must be, or is outside its range.
    Number,
    /// Bounds are given twice, or bounds, a block or an object come after an operation, a line names a block that no earlier line declares, or a line maps
    /// a block of an object that an earlier line maps.
    Order,
    /// There is one line more than a trace may have of its sort.
    Count,
    /// The text has more than 64 MiB, and this line has the first byte too many.
    Length,
}

/// Why a text was not read as a trace.
#[derive(Clone, Copy, Debug, PartialEq, Eq)]
pub enum TraceFault {
    /// The text is no trace. `line` is the first line at fault, counted from 1.
    Bad { line: u32, kind: Kind },
    /// Memory was refused.
    NoMemory,
}
