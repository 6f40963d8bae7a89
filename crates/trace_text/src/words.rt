//! The words with which the lines of a trace begin.
ghost use Rattle.std.specs.Prelude.{◌≡◌};
ghost use Rattle.trace_text.specs.declared.words.LineFault.TheVariants.{NoMemory, Wrong};

use crate::fault::Kind;
use crate::mapping::Mapping;
use crate::op::Op;
use arc_core::{Bounds, Config};
use blk_ptr::Ptr;
use key_table::NoMemory;
use std::alloc::{AllocError, AllocFailed};

/// The words that a line may begin with.
#[derive(Clone, Copy)]
pub(crate) enum Word {
    Arc,
    L2,
    Block,
    Object,
    Read,
    Hold,
    Drop,
    Get,
    Put,
    Patch,
    Pin,
    Unpin,
    Feed,
    Txg,
    Cap,
}

/// What one line says.
#[derive(Drop)]
pub(crate) enum Line {
    /// The sizes of the cache.
    Sizes(Config),
    /// The bounds of a feed.
    Limited(Bounds),
    /// A block is declared.
    Declared(Ptr),
    /// A block of an object is mapped.
    Mapped(Mapping),
    /// An operation.
    Operation(Op),
}

/// Why a line is not added to what the lines before it say.
#[derive(Clone, Copy)]
pub(crate) enum LineFault {
    /// What is wrong with the line.
    Wrong(Kind),
    /// Memory was refused.
    NoMemory,
}

/// How much the lines so far say.
#[derive(Clone, Copy)]
pub(crate) struct Seen {
    /// The number of callers.
    pub(crate) callers: u32,
    /// The number of shards.
    pub(crate) shards: u32,
    /// Whether the bounds of a feed are given.
    pub(crate) limited: bool,
    /// How many blocks are declared.
    pub(crate) blocks: u32,
    /// How many blocks of objects are mapped.
    pub(crate) objects: u32,
    /// How many operations there are.
    pub(crate) operations: u32,
}

impl From<Kind> for LineFault {
    ghost from_gives = { λ kind fault. fault ≡ Wrong kind };

    fn from(kind: Kind) -> Self {
        LineFault::Wrong(kind)
    }
}

impl From<AllocError> for LineFault {
    ghost from_gives = { λ _ fault. fault ≡ NoMemory };

    fn from(_refused: AllocError) -> Self {
        LineFault::NoMemory
    }
}

impl From<NoMemory> for LineFault {
    ghost from_gives = { λ _ fault. fault ≡ NoMemory };

    fn from(_refused: NoMemory) -> Self {
        LineFault::NoMemory
    }
}

impl<T: Drop> From<AllocFailed<T>> for LineFault {
    ghost from_gives = { λ _ fault. fault ≡ NoMemory };

    fn from(_refused: AllocFailed<T>) -> Self {
        LineFault::NoMemory
    }
}
