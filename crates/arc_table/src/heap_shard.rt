//! A shard on the heap.
ghost use Rattle.std.specs.Prelude.{◌≡◌, IfOk};
ghost use Rattle.std.specs.Borrow.{sem};
ghost use Rattle.arc_table.specs.Lending.{LendsShard};

use crate::in_hand::Taken;
use arc_core::Shard;
use blk_ptr::{Key, NoMemory};
use std::alloc::Global;
use std::marker::Model;
use std::ops::{Deref, DerefMut};

/// The lists that a scan of a shard fills. Between scans the shard keeps them, so that the next takes memory only where the shard has grown.
#[derive(Drop)]
pub(crate) struct ScanLists {
    pub(crate) marked: Vec<Key>,
    pub(crate) victims: Vec<Taken>,
}

// A shard, and the lists of its last scan.
#[derive(Drop)]
struct Kept {
    shard: Shard,
    lists: Option<ScanLists>,
}

/// A shard on the heap, so that taking and giving its turn moves a pointer and not the shard. Contracts see the shard.
#[derive(Drop)]
pub struct HeapShard {
    kept: Box<Kept>,
}

impl Model for HeapShard {
    ghost use Rattle.arc_core.specs.ShardLog.{ShardLog};

    ghost Value = { ShardLog };

    ghost view = { λ s. s.kept.value.shard };
}

impl HeapShard {
    // Moves the shard to the heap.
    pub(crate) fn new(alloc: Global, shard: Shard) -> Result<HeapShard, NoMemory>
        ensures { IfOk result (λ boxed. boxed ≡ shard) }
    {
        Ok(HeapShard {
            kept: Box::new(alloc, Kept { shard, lists: None })?,
        })
    }

    // Moves the shard out of the heap.
    pub(crate) fn into_shard(self) -> Shard
        ensures { result ≡ self }
    {
        Box::into_inner(self.kept).shard
    }

    // The lists that the last scan left, if any.
    pub(crate) fn take_lists(&mut self) -> Option<ScanLists>
        ensures { self.new ≡ self.old }
    {
        self.kept.lists.take()
    }

    // Keeps these lists for the next scan.
    pub(crate) fn keep_lists(&mut self, lists: ScanLists)
        ensures { self.new ≡ self.old }
    {
        self.kept.lists = Some(lists);
    }
}

impl Deref for HeapShard {
    type Target = Shard;

    ghost deref_gives = { λ s x. x ≡ s };

    fn deref(&self) -> &Shard
        ensures { result.now ≡ self.now }
    {
        &self.kept.shard
    }
}

impl DerefMut for HeapShard {
    ghost deref_mut_gives = { λ s x. x ≡ s };

    fn deref_mut(&mut self) -> &mut Shard
        ensures* writes_back { sem 𝓛 (LendsShard self.entry result) }
        ensures value { result.now ≡ self.old }
    {
        &mut self.kept.as_mut().shard
    }
}
