//! The states of a dbuf, and what the object map has of a block.
use blk_ptr::Ptr;

/// How far a dbuf is (`dbuf_states_t` of OpenZFS's `dbuf.h`).
#[derive(Clone, Copy, Debug, PartialEq, Eq)]
pub enum DbState {
    /// It has no bytes (`DB_UNCACHED`).
    Uncached,
    /// `n` is bringing its bytes (`DB_READ`).
    Read { n: u32 },
    /// It is being written as a whole (`DB_FILL`).
    Fill,
    /// It has its bytes (`DB_CACHED`).
    Cached,
    /// Its bytes are being taken out (`DB_EVICTING`).
    Evicting,
}

/// What the object map has of a block.
#[derive(Clone, Copy, Debug, PartialEq, Eq)]
pub enum Mapped {
    /// The block is in the pool, where this pointer names it.
    Clean(Ptr),
    /// The block was written since the last transaction group, and has this many bytes.
    Dirty { size: u32 },
}

/// An Oid that the object map opened with, and its block.
#[derive(Clone, Copy, Debug, PartialEq, Eq)]
pub struct Mapping {
    /// Which block of which object.
    pub at: crate::oid::Oid,
    /// Where it is.
    pub ptr: Ptr,
}
