//! A cache of one caller, with its feeder, its pool of zeros, and a device.
ghost use Rattle.std.specs.Prelude.{◌≡◌, ◌^◌, ◌≤◌, IfOk};
ghost use Rattle.arc_core.specs.Config.{IsConfig};
ghost use Rattle.feed_examples.specs.Scenes.{AreParties, IsScene};

use arc_core::{Bounds, Config};
use arc_examples::{Plain, read_one};
use arc_table::{Arcs, Closed, Party};
use blk_ptr::{Key, NoMemory, Ptr, digest_of};
use l2_dev::{FeedReport, L2Dev, Started};
use l2_feed::feed;
use l2_log::RING_START;
use std::alloc::Global;
use std::sync::Wait;
use vdev_io::{CacheDev, MemCache, MemPool};

/// A cache of one caller that is to be fed.
#[derive(Drop)]
pub struct FeedScene<D: CacheDev> {
    /// The cache.
    pub arcs: Arcs<Plain>,
    /// Its feeder.
    pub feeder: Party<Plain>,
    /// Its caller.
    pub one: Party<Plain>,
    /// The pool.
    pub pool: MemPool,
    /// The device.
    pub l2: L2Dev<D>,
}

/// The numbers of a cache of one caller: so many shards, the capacity of each, and the bytes of a feed.
pub fn config_of_one(shards: u32, c: u64, write_max: u64) -> Config
    requires shards { (1 ≤ shards) × (shards ≤ 16) }
    requires c { (4096 ≤ c) × (c ≤ 2 ^ 28) }
    requires write_max { (512 ≤ write_max) × (write_max ≤ 2 ^ 32) }
    ensures valid { IsConfig result }
    ensures callers { result.callers ≡ 1 }
    ensures cells { result.cells ≡ 1 }
{
    Config {
        callers: 1,
        shards,
        buckets: 16,
        cells: 1,
        c,
        mintime: 0,
        dbuf_bytes: 4096,
        bounds: Bounds {
            write_max,
            headroom: 8,
        },
    }
}

/// The block of this number and size: zeros, one behind the other in the pool.
pub fn zeros_of(alloc: Global, number: u64, size: u64) -> Result<Ptr, NoMemory> {
    let bytes = vec![in alloc; 0u8; size as usize]?;
    let key = Key {
        offset: number.wrapping_mul(size),
        size,
        birth: 1,
    };
    Ok(Ptr {
        key,
        digest: digest_of(&bytes),
    })
}

/// A new cache with these numbers, its feeder and its caller.
fn made(
    alloc: Global,
    config: &Config,
) -> Result<(Arcs<Plain>, Party<Plain>, Party<Plain>), NoMemory>
    requires valid { IsConfig config.now }
    requires callers { config.now.callers ≡ 1 }
    requires cells { config.now.cells ≡ 1 }
    ensures { IfOk result (λ r. AreParties r.0 r.1 r.2) }
{
    let cells = vec![in alloc; Plain]?;
    let (arcs, mut parties) = Arcs::new(alloc, config, cells)?;
    let Some(feeder) = parties.pop() else {
        return Err(NoMemory);
    };
    let Some(one) = parties.pop() else {
        return Err(NoMemory);
    };
    Ok((arcs, feeder, one))
}

/// A pool of so many zeros.
fn zeros(alloc: Global, bytes: usize) -> Result<MemPool, NoMemory> {
    let bytes = vec![in alloc; 0u8; bytes]?;
    MemPool::new(alloc, bytes, Vec::new(alloc), Vec::new(alloc))
}

/// A device in memory of so many zeros, whose calls of these numbers fail.
pub fn memory(alloc: Global, bytes: usize, fail: &[u64]) -> Result<MemCache, NoMemory> {
    let bytes = vec![in alloc; 0u8; bytes]?;
    Ok(MemCache::new(bytes, fail.to_vec(alloc)?))
}

/// A cache with these numbers over a pool of so many zeros and this device, on which nothing was written.
pub fn opened<D: CacheDev>(
    alloc: Global,
    config: &Config,
    pool: usize,
    device: D,
) -> Result<FeedScene<D>, NoMemory>
    requires valid { IsConfig config.now }
    requires callers { config.now.callers ≡ 1 }
    requires cells { config.now.cells ≡ 1 }
    ensures { IfOk result (λ s. IsScene s.arcs s.feeder s.one (D.size s.l2.dev) s.l2.cursor) }
{
    let pool = zeros(alloc, pool)?;
    let (arcs, feeder, one) = made(alloc, config)?;
    let Started::Ready { l2, .. } = L2Dev::start(alloc, device) else {
        return Err(NoMemory);
    };
    let room = l2.ring().end().saturating_sub(RING_START);
    if arcs.config().bounds.write_max > room / 2 {
        return Err(NoMemory);
    }
    Ok(FeedScene {
        arcs,
        feeder,
        one,
        pool,
        l2,
    })
}

/// Reads a block, and gives it back.
pub fn read<R: Wait, D: CacheDev>(rt: &R, scene: &mut FeedScene<D>, ptr: &Ptr, tick: u64) -> bool
    requires { IsScene scene.old.arcs scene.old.feeder scene.old.one (D.size scene.old.l2.dev) scene.old.l2.cursor }
    ensures { IsScene scene.new.arcs scene.new.feeder scene.new.one (D.size scene.new.l2.dev) scene.new.l2.cursor }
{
    read_one(rt, &scene.arcs, &mut scene.one, &mut scene.pool, ptr, tick)
}

/// Feeds the device once.
pub fn fed<R: Wait, D: CacheDev>(rt: &R, alloc: Global, scene: &mut FeedScene<D>) -> FeedReport
    requires { IsScene scene.old.arcs scene.old.feeder scene.old.one (D.size scene.old.l2.dev) scene.old.l2.cursor }
    ensures { IsScene scene.new.arcs scene.new.feeder scene.new.one (D.size scene.new.l2.dev) scene.new.l2.cursor }
{
    feed(alloc, rt, &scene.arcs, &mut scene.feeder, &mut scene.l2)
}

/// The cache's shards at its end.
pub fn closed<D: CacheDev>(alloc: Global, scene: FeedScene<D>) -> Result<Closed<Plain>, NoMemory>
    requires { IsScene scene.arcs scene.feeder scene.one (D.size scene.l2.dev) scene.l2.cursor }
{
    let FeedScene {
        arcs,
        feeder,
        one,
        ..
    } = scene;
    let parties = vec![in alloc; one, feeder]?;
    arcs.close(parties)
}
