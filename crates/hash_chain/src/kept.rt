//! The bytes of a key as its header keeps them.
ghost use Rattle.std.specs.Prelude.{◌≡◌, IfOk, OnErr, OnOk};
ghost use Rattle.hash_chain.specs.Alike.{AreAlike};
ghost use Rattle.hash_chain.specs.Keeping.{kept, spare_or, with_spare, without_spare};

use blk_ptr::{Block, NoMemory};
use std::marker::Model;
use std::sync::Arc;

/// The bytes of a key as its header keeps them: the block, a second owner of such a block where a reader gave one back, and near which place of its shard the key's entry stood then. To
/// count an owner more of a block, or one less, is an atomic change of a line of memory that is mostly not in the processor's cache. So the owner that one reader gives back is kept, and
/// the next reader gets it with no count changed.
#[derive(Debug, Drop)]
pub struct Kept {
    block: Arc<Block>,
    spare: Option<Arc<Block>>,
    near: usize,
}

impl Model for Kept {
    ghost use Rattle.std.specs.Prelude.{IfSome};
    ghost use Rattle.hash_chain.specs.Alike.{AreAlike};
    ghost use Rattle.hash_chain.specs.Keeping.{KeptBlock};

    ghost Value = { KeptBlock };

    ghost view = { λ k. record { block = k.block; spare = k.spare; near = k.near } };

    // By its type the spare may be another block than this one, of a read of the same key.
    ghost invariant = { λ k. IfSome k.spare (λ spare. AreAlike spare.value k.block.value) };
}

impl Kept {
    /// Keeps this block. There is no spare, and where the entry stood isn't known.
    pub fn new(block: Arc<Block>) -> Kept
        ensures { result ≡ kept block }
    {
        Kept {
            block,
            spare: None,
            near: usize::MAX,
        }
    }

    /// One owner more of the block.
    pub fn share(&self) -> Result<Arc<Block>, NoMemory>
        ensures { IfOk result (λ block. block.value ≡ self.now.block.value) }
    {
        Ok(Arc::try_clone(&self.block)?)
    }

    /// The spare, if there is one, and else one owner more of the block.
    #[inline]
    pub fn take(&mut self) -> Result<Arc<Block>, NoMemory>
        ensures ok { OnOk result (self.new ≡ without_spare self.old) }
        ensures err { OnErr result (self.new ≡ self.old) }
        ensures owner { IfOk result (λ block. block.value ≡ (spare_or self.old.spare self.old.block).value) }
        ensures alike { IfOk result (λ block. AreAlike block.value self.old.block.value) }
    {
        match self.spare.take() {
            Some(spare) => Ok(spare),
            None => self.share(),
        }
    }

    /// Takes an owner back: it is the spare from now on where there is none, and else it goes. The entry stood near this place of its shard just now.
    #[inline]
    pub fn give(&mut self, block: Arc<Block>, near: usize)
        requires { AreAlike block.value self.old.block.value }
        ensures { self.new ≡ with_spare block near self.old }
    {
        self.near = near;
        if self.spare.is_none() {
            self.spare = Some(block);
        }
    }

    /// Near which place of its shard the entry stood when an owner was given back last, or `usize::MAX` where none was.
    #[inline]
    pub fn near(&self) -> usize
        ensures { result ≡ self.now.near }
    {
        self.near
    }
}
