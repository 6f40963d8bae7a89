//! What a layer above the cache keeps of a block, whatever keeps it there.
ghost use Rattle.std.specs.Prelude.{◌≡◌, ℕ, Bool, List};
ghost use Rattle.blk_ptr.specs.declared.key.Key.{Key};

use crate::block::Block;
use crate::key::Key;

/// A kept block that shows what it is: the block of a hold, or a block that nothing holds.
pub trait Shows {
    /// The key under which the block was read.
    ghost key_of: { Self → Key };

    /// The block's bytes.
    ghost bytes_of: { Self → List ℕ };

    /// Whether it is a hold on an entry of the cache.
    ghost is_held: { Self → Bool };

    /// The key under which the block was read.
    fn key(&self) -> Key
        ensures { result ≡ key_of self.now };

    /// The block.
    fn block(&self) -> &Block
        ensures { result.now ≡ bytes_of self.now };

    /// Whether it is a hold on an entry of the cache.
    fn held(&self) -> bool
        ensures { result ≡ is_held self.now };
}
