//! What is done to a cell, as its history tells it.
ghost use Rattle.std.specs.Prelude.{◌≡◌};
ghost use Rattle.dbuf_state.specs.Objects.{use_of};

use crate::oid::Oid;
use crate::shown::Shown;
use blk_ptr::Ptr;

/// One thing that was done to a cell. `n` is the number of who did it.
#[derive(Debug, Drop)]
pub enum CellEvent {
    /// `n` read a block.
    Get {
        n: u32,
        at: Oid,
    },
    /// `n` wrote a whole block of `size` bytes, each of them `fill`.
    Put {
        n: u32,
        at: Oid,
        size: u32,
        fill: u8,
    },
    /// `n` wrote these bytes over a part of a block, from the byte `from` on.
    Patch {
        n: u32,
        at: Oid,
        from: u32,
        bytes: Shown,
    },
    /// `n` keeps a block from being evicted, once more.
    Pin {
        n: u32,
        at: Oid,
    },
    /// `n` takes one of its pins back.
    Unpin {
        n: u32,
        at: Oid,
    },
    /// `n` brought a clean block into its dbuf, which keeps a hold on an entry of the cache where `held` says so.
    Load {
        n: u32,
        at: Oid,
        held: bool,
    },
    /// `n` took a clean block out of its dbuf, since the cell keeps more than its limit.
    Evict {
        n: u32,
        at: Oid,
    },
    /// `n` wrote a dirty block to the pool, where this pointer names it. Its dbuf keeps a hold on an entry of the cache where
    /// `held` says so.
    Synced {
        n: u32,
        at: Oid,
        ptr: Ptr,
        held: bool,
    },
    /// `n` ended the cell: no dbuf keeps a block, and there are no pins.
    End {
        n: u32,
    },
}

impl CellEvent {
    /// Which block it uses. An Evict, a Synced and an End use none.
    pub fn use_of(&self) -> Option<Oid>
        ensures { result ≡ use_of self.now }
    {
        match self {
            CellEvent::Get { at, .. }
            | CellEvent::Put { at, .. }
            | CellEvent::Patch { at, .. }
            | CellEvent::Pin { at, .. }
            | CellEvent::Unpin { at, .. }
            | CellEvent::Load { at, .. } => Some(*at),
            CellEvent::Evict { .. } | CellEvent::Synced { .. } | CellEvent::End { .. } => None,
        }
    }
}
