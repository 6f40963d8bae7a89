//! A hold on an entry of the cache.
ghost use Rattle.std.specs.Prelude.{◌≡◌, length};

use blk_ptr::{Block, Key};
use std::sync::Arc;

/// A hold on an entry, with the entry's block. While a party lists it, the entry's bytes stay cached. The calls `drop_hold`,
/// `try_drop`, `hand` and `release` end it; a hold that is merely let go keeps its entry held for good. Contracts see its key, its
/// owner's number and its block.
#[derive(Debug, Drop)]
pub struct Hold {
    pub(crate) key: Key,
    pub(crate) owner: u32,
    pub(crate) block: Arc<Block>,
    // The block has the key's size.
    pub ghost sized: { length block.value ≡ key.size },
}

impl Hold {
    /// The key of the entry.
    pub fn key(&self) -> Key
        ensures { result ≡ self.now.key }
    {
        self.key
    }

    /// The block, whose digest is the one with which the hold is listed.
    pub fn block(&self) -> &Block
        ensures { result.now ≡ self.now.block.value }
    {
        &self.block
    }

    /// The number under which it is held: that of a party, or of a cell.
    pub fn owner(&self) -> u32
        ensures { result ≡ self.now.owner }
    {
        self.owner
    }
}
