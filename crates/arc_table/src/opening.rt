//! What the turns have when a cache is made.
ghost use Rattle.std.specs.Prelude.{◌≡◌, ℕ, ◌*◌, ◌++◌, ◌∷◌, ◌<◌, [], IfOk, OnOk, List, length, map, replicate};
ghost use Rattle.arc_core.specs.Config.{IsConfig};
ghost use Rattle.arc_lists.specs.Adapting.{IsCapacity};
ghost use Rattle.arc_core.specs.ShardLog.{ShardLog};
ghost use Rattle.arc_table.specs.Items.{no_chain};
ghost use Rattle.arc_table.specs.opening.Opening.{AreFresh, AreFreshCells, AreOpeningLogs};
ghost use Rattle.arc_table.specs.declared.item.Item.TheVariants as item;

use crate::heap_bucket::HeapBucket;
use crate::heap_shard::HeapShard;
use crate::item::Item;
use arc_core::{Config, Keeps, Shard};
use blk_ptr::NoMemory;
use std::alloc::{AllocError, Global};

// The cells, then empty buckets, then shards at their start.
pub(crate) fn items<C: Keeps + Drop>(
    alloc: Global,
    config: &Config,
    cells: Vec<C>,
) -> Result<Vec<Item<C>>, NoMemory>
    requires config { IsConfig config.now }
    requires cells { length cells.items ≡ config.now.cells }
    ensures { IfOk result (λ v. AreFresh config.now cells.items v.items) }
{
    let mut values = moved_in(alloc, cells)?;
    add_buckets(&mut values, alloc, config.shards * config.buckets)?;
    add_shards(&mut values, alloc, config)?;
    Ok(values)
}

// The cells, each as the value of a turn.
fn moved_in<C: Drop>(alloc: Global, cells: Vec<C>) -> Result<Vec<Item<C>>, AllocError>
    ensures { IfOk result (λ v. v.items ≡ map item.Cell cells.items) }
{
    cells.into_iter().map(Item::Cell).collect(alloc)
}

// So many empty buckets are added.
fn add_buckets<C: Drop>(
    values: &mut Vec<Item<C>>,
    alloc: Global,
    count: u32,
) -> Result<(), NoMemory>
    ensures { OnOk result (values.new.items ≡ values.old.items ++ replicate count (item.Bucket no_chain)) }
{
    for made in 0..count {
        let _ = made;
        values.push(Item::Bucket(HeapBucket::new(alloc)?))?;
    }
    Ok(())
}

// The shards are added, each at its start.
fn add_shards<C: Drop>(
    values: &mut Vec<Item<C>>,
    alloc: Global,
    config: &Config,
) -> Result<(), NoMemory>
    requires { IsCapacity config.now.c }
    ensures { OnOk result ((ls : List ShardLog) × (values.new.items ≡ values.old.items ++ map item.Shard ls) × AreOpeningLogs config.now config.now.shards ls) }
{
    for made in 0..config.shards {
        let _ = made;
        let shard = Shard::new(alloc, config.c, config.mintime, config.bounds);
        values.push(Item::Shard(HeapShard::new(alloc, shard)?))?;
    }
    Ok(())
}
