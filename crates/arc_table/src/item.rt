//! What lies behind a turn.
ghost use Rattle.std.specs.Prelude.{◌≡◌};
ghost use Rattle.arc_core.specs.ShardLog.{ShardLog};
ghost use Rattle.hash_chain.specs.Chain.{Chain};

use crate::heap_bucket::HeapBucket;
use crate::heap_shard::HeapShard;

/// What lies behind a turn.
#[derive(Drop)]
pub enum Item<C> {
    /// A cell of the layer above.
    Cell(C),
    /// The headers of a bucket.
    Bucket(HeapBucket),
    /// A shard with its history.
    Shard(HeapShard),
}

impl<C> Item<C> {
    ghost use Rattle.arc_table.specs.declared.item.Item.TheVariants as item;

    // The cell, where it is one.
    pub(crate) fn into_cell(self) -> C
        requires { (cell : C) × (self ≡ item.Cell cell) }
        ensures { self ≡ item.Cell result }
    {
        match self {
            Item::Cell(cell) => cell,
            Item::Bucket(_) => unreachable!(),
            Item::Shard(_) => unreachable!(),
        }
    }

    // The bucket, where it is one.
    pub(crate) fn into_bucket(self) -> HeapBucket
        requires { (bucket : Chain) × (self ≡ item.Bucket bucket) }
        ensures { self ≡ item.Bucket result }
    {
        match self {
            Item::Bucket(bucket) => bucket,
            Item::Cell(_) => unreachable!(),
            Item::Shard(_) => unreachable!(),
        }
    }

    // The shard, where it is one.
    pub(crate) fn into_shard(self) -> HeapShard
        requires { (shard : ShardLog) × (self ≡ item.Shard shard) }
        ensures { self ≡ item.Shard result }
    {
        match self {
            Item::Shard(shard) => shard,
            Item::Cell(_) => unreachable!(),
            Item::Bucket(_) => unreachable!(),
        }
    }
}
