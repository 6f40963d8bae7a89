//! How a dbuf stands when something is to be evicted.
use crate::oid::Oid;

/// How a dbuf stands when something is to be evicted.
#[derive(Clone, Copy)]
pub struct Standing {
    /// Which block of which object it is.
    pub at: Oid,
    /// When it was last used.
    pub used: u64,
    /// The size of the clean block that it keeps, in bytes; 0 where it keeps none.
    pub size: u64,
    /// Whether it keeps a clean block.
    pub kept: bool,
    /// Whether it is pinned.
    pub pinned: bool,
}
