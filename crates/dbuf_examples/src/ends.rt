//! A row of every call, in which some call of the pool may fail, and the end of all cells.
ghost use Rattle.std.specs.Prelude.{◌≡◌};
ghost use Rattle.dbuf_examples.specs.Mapped.{IsOne};

use crate::scene::{end, oid_of};
use arc_table::{Closed, Party};
use blk_ptr::NoMemory;
use dbuf_cells::{Cells, HeapCell, end_cells, get, hold, patch, put, unhold};
use dbuf_state::{DbufFault, Oid, Shown, Window};
use std::alloc::Global;
use std::sync::Wait;
use txg_sync::{SyncFault, Synced, sync};
use vdev_io::{MemPool, NoCache, Pool};

/// A block that no cell maps from the start.
pub const NEW: Oid = Oid {
    object: 7,
    block: 0,
};

/// What the calls of `every_call` answered.
#[derive(Clone, Copy)]
pub struct Answered {
    /// What the gets of two bytes showed: of the second block before all others, and then, behind the sync, of it, of the first block and of the new
    /// one.
    pub gets: [Result<[u8; 2], DbufFault>; 4],
    /// The calls between them: a hold, a patch, an unhold and a put.
    pub calls: [Result<(), DbufFault>; 4],
    /// The sync behind these.
    pub sync: Result<Synced, SyncFault>,
}

// The first two of these bytes.
fn first_two(bytes: &[u8]) -> [u8; 2] {
    match bytes {
        [first, second, ..] => [*first, *second],
        _ => [0; 2],
    }
}

// A get of the first two bytes.
fn try_get<R: Wait>(
    arcs: &Cells,
    rt: &R,
    one: &mut Party<HeapCell>,
    at: Oid,
    tick: u64,
    pool: &mut MemPool,
) -> Result<[u8; 2], DbufFault>
    requires { IsOne arcs.now 0 one.old }
    ensures { IsOne arcs.now 0 one.new }
{
    let w = Window { at: 0, len: 2 };
    match get(arcs, rt, one, at, w, tick, pool, &mut NoCache::new()) {
        Ok((_, shown)) => Ok(first_two(shown.bytes())),
        Err(fault) => Err(fault),
    }
}

// A patch of at most 64 bytes.
fn patches<R: Wait>(
    alloc: Global,
    arcs: &Cells,
    rt: &R,
    one: &mut Party<HeapCell>,
    at: Oid,
    from: u32,
    bytes: &[u8],
    tick: u64,
    pool: &mut MemPool,
) -> Result<(), DbufFault>
    requires { IsOne arcs.now 0 one.old }
    ensures { IsOne arcs.now 0 one.new }
{
    if bytes.len() > 64 {
        return Ok(());
    }
    let bytes = Shown::of(bytes);
    patch(
        alloc,
        arcs,
        rt,
        one,
        at,
        from,
        &bytes,
        tick,
        pool,
        &mut NoCache::new(),
    )
}

// A sync into a pool of at most 2^40 bytes.
fn try_sync<R: Wait>(
    alloc: Global,
    arcs: &Cells,
    rt: &R,
    feeder: &mut Party<HeapCell>,
    tick: u64,
    pool: &mut MemPool,
    next: u64,
) -> Result<Synced, SyncFault>
    requires one { IsOne arcs.now 1 feeder.old }
    requires callers { arcs.now.config.callers ≡ 1 }
    ensures { IsOne arcs.now 1 feeder.new }
{
    let len = pool.len();
    if len > 1_099_511_627_776 || next > len || next % 512 != 0 {
        return Err(SyncFault::NoMemory);
    }
    sync(alloc, arcs, rt, feeder, 1, tick, pool, next)
}

/// Every call of a cell and a sync from the third block's place on, over a pool of two blocks with room for two more.
pub fn every_call<R: Wait>(
    alloc: Global,
    arcs: &Cells,
    rt: &R,
    one: &mut Party<HeapCell>,
    feeder: &mut Party<HeapCell>,
    pool: &mut MemPool,
) -> Answered
    requires one { IsOne arcs.now 0 one.old }
    requires feeder { IsOne arcs.now 1 feeder.old }
    requires callers { arcs.now.config.callers ≡ 1 }
    ensures one { IsOne arcs.now 0 one.new }
    ensures feeder { IsOne arcs.now 1 feeder.new }
{
    let (low, high) = (oid_of(0), oid_of(1));
    let got = try_get(arcs, rt, one, high, 1, pool);
    let held = hold(arcs, rt, one, low, 2, pool, &mut NoCache::new());
    let patched = patches(alloc, arcs, rt, one, low, 0, &[9], 3, pool);
    let unheld = unhold(arcs, rt, one, low);
    let written = put(alloc, arcs, rt, one, NEW, 512, 0xab);
    let sync = try_sync(alloc, arcs, rt, feeder, 4, pool, 1024);
    let again = try_get(arcs, rt, one, high, 5, pool);
    let changed = try_get(arcs, rt, one, low, 6, pool);
    let new = try_get(arcs, rt, one, NEW, 7, pool);
    let gets = [got, again, changed, new];
    let calls = [held, patched, unheld, written];
    Answered { gets, calls, sync }
}

/// All cells end, and the cache is closed.
pub fn end_all<R: Wait>(
    alloc: Global,
    rt: &R,
    arcs: Cells,
    one: Party<HeapCell>,
    mut feeder: Party<HeapCell>,
) -> Result<Closed<HeapCell>, NoMemory>
    requires callers { arcs.config.callers ≡ 1 }
    requires one { IsOne arcs 0 one }
    requires feeder { IsOne arcs 1 feeder }
{
    end_cells(&arcs, rt, &mut feeder)?;
    end(alloc, arcs, one, feeder)
}
