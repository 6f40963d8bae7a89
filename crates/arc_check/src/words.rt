//! The words of a log's lines, and what one line says.
ghost use Rattle.std.specs.Prelude.{◌≡◌};
ghost use Rattle.arc_check.specs.declared.words.LineFault.TheVariants.{NoMemory, Wrong};

use arc_core::{Bounds, Config, Event};
use blk_ptr::NoMemory as Refused;
use std::alloc::{AllocError, AllocFailed};
use trace_text::Kind;

/// The names of the events.
#[derive(Clone, Copy)]
pub(crate) enum Name {
    Pass,
    Hit,
    Miss,
    Arrive,
    Fail,
    Drop,
    Past,
    Hand,
    Insert,
    Release,
    Pick,
    FeedEnd,
    Set,
    Leave,
    Clear,
    Restore,
    Resize,
}

/// An event with its place in the log.
#[derive(Clone, Copy)]
pub(crate) struct Made {
    /// The shard's number.
    pub(crate) shard: u32,
    /// Which event of its shard it is, counted from 0.
    pub(crate) index: u64,
    pub(crate) event: Event,
}

/// What one line says.
#[derive(Clone, Copy)]
pub(crate) enum Line {
    /// The sizes of the cache.
    Sizes(Config),
    /// The bounds of a feed.
    Feed(Bounds),
    /// An event of a shard.
    Made(Made),
}

/// Why a line is not added to what the lines before it say.
#[derive(Clone, Copy)]
pub(crate) enum LineFault {
    /// What is wrong with the line.
    Wrong(Kind),
    /// Memory was refused.
    NoMemory,
}

impl From<Kind> for LineFault {
    ghost from_gives = { λ kind fault. fault ≡ Wrong kind };

    fn from(kind: Kind) -> Self {
        LineFault::Wrong(kind)
    }
}

impl From<AllocError> for LineFault {
    ghost from_gives = { λ _ fault. fault ≡ NoMemory };

    fn from(_refused: AllocError) -> Self {
        LineFault::NoMemory
    }
}

impl<T: Drop> From<AllocFailed<T>> for LineFault {
    ghost from_gives = { λ _ fault. fault ≡ NoMemory };

    fn from(_refused: AllocFailed<T>) -> Self {
        LineFault::NoMemory
    }
}

impl From<Refused> for LineFault {
    ghost from_gives = { λ _ fault. fault ≡ NoMemory };

    fn from(_refused: Refused) -> Self {
        LineFault::NoMemory
    }
}
