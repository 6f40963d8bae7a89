//! Caches with their callers: how they are made, and how they end.
ghost use Rattle.std.specs.Prelude.{◌≡◌, ◌+◌, length, IfOk, OnOk};
ghost use Rattle.arc_core.specs.Config.{IsConfig};
ghost use Rattle.arc_examples.specs.Ready.{AreNew, IsNew, IsReady};

use crate::plain::{Caller, Plain, SIZE};
use arc_core::Config;
use arc_table::{Arcs, Closed, Party};
use blk_ptr::NoMemory;
use std::alloc::Global;
use vdev_io::{MemPool, Pool};

/// A cache, its feeder and its two callers.
#[derive(Drop)]
pub struct Pair {
    /// The cache.
    pub arcs: Arcs<Plain>,
    /// The feeder.
    pub feeder: Caller,
    /// Caller 0.
    pub one: Caller,
    /// Caller 1.
    pub two: Caller,
}

/// A cache, its feeder and its four callers.
#[derive(Drop)]
pub struct Scene {
    /// The cache.
    pub arcs: Arcs<Plain>,
    /// The feeder.
    pub feeder: Caller,
    /// The callers, by their numbers.
    pub callers: (Caller, Caller, Caller, Caller),
}

// A pool of so many blocks of zeros.
fn zeros(alloc: Global, blocks: u64) -> Result<MemPool, NoMemory> {
    let bytes = vec![in alloc; 0u8; blocks.saturating_mul(SIZE) as usize]?;
    MemPool::new(alloc, bytes, Vec::new(alloc), Vec::new(alloc))
}

// A new cache, its parties by their numbers, and a pool of so many blocks.
fn made(
    alloc: Global,
    config: &Config,
    blocks: u64,
) -> Result<(Arcs<Plain>, Vec<Party<Plain>>, MemPool), NoMemory>
    requires valid { IsConfig config.now }
    requires cells { config.now.cells ≡ 1 }
    ensures config { IfOk result (λ r. r.0.config ≡ config.now) }
    ensures parties { IfOk result (λ r. AreNew r.0 0 r.1.items) }
    ensures count { IfOk result (λ r. length r.1.items ≡ config.now.callers + 1) }
{
    let cells = vec![in alloc; Plain]?;
    let (arcs, parties) = Arcs::new(alloc, config, cells)?;
    let pool = zeros(alloc, blocks)?;
    Ok((arcs, parties, pool))
}

// Of these parties, which stand by their numbers, the last, with a fork of the pool.
fn last_of(
    alloc: Global,
    arcs: &Arcs<Plain>,
    parties: &mut Vec<Party<Plain>>,
    pool: &mut MemPool,
    seed: u64,
) -> Result<Caller, NoMemory>
    requires { AreNew arcs.now 0 parties.old.items }
    ensures last { IfOk result (λ c. IsNew arcs.now (length parties.new.items) c.party) }
    ensures ready { IfOk result (λ c. IsReady arcs.now c.party) }
    ensures number { IfOk result (λ c. c.party.number ≡ length parties.new.items) }
    ensures rest { OnOk result (AreNew arcs.now 0 parties.new.items) }
    ensures count { OnOk result (length parties.new.items + 1 ≡ length parties.old.items) }
{
    let Ok(pool) = pool.fork(alloc) else {
        return Err(NoMemory);
    };
    match parties.pop() {
        Some(party) => Ok(Caller { party, pool, seed }),
        None => Err(NoMemory),
    }
}

/// A new cache of two callers over a pool of so many blocks.
pub fn opened_pair(alloc: Global, config: &Config, blocks: u64) -> Result<Pair, NoMemory>
    requires valid { IsConfig config.now }
    requires callers { config.now.callers ≡ 2 }
    requires cells { config.now.cells ≡ 1 }
    ensures config { IfOk result (λ p. p.arcs.config ≡ config.now) }
    ensures feeder { IfOk result (λ p. IsReady p.arcs p.feeder.party × (p.feeder.party.number ≡ 2)) }
    ensures new { IfOk result (λ p. IsNew p.arcs 2 p.feeder.party × IsNew p.arcs 1 p.two.party) }
    ensures one { IfOk result (λ p. IsReady p.arcs p.one.party × (p.one.party.number ≡ 0)) }
    ensures two { IfOk result (λ p. IsReady p.arcs p.two.party × (p.two.party.number ≡ 1)) }
{
    let (arcs, mut parties, mut pool) = made(alloc, config, blocks)?;
    let feeder = last_of(alloc, &arcs, &mut parties, &mut pool, 3)?;
    let two = last_of(alloc, &arcs, &mut parties, &mut pool, 2)?;
    let one = last_of(alloc, &arcs, &mut parties, &mut pool, 1)?;
    Ok(Pair {
        arcs,
        feeder,
        one,
        two,
    })
}

/// A new cache of four callers over a pool of so many blocks.
pub fn opened(alloc: Global, config: &Config, blocks: u64) -> Result<Scene, NoMemory>
    requires valid { IsConfig config.now }
    requires callers { config.now.callers ≡ 4 }
    requires cells { config.now.cells ≡ 1 }
    ensures config { IfOk result (λ l. l.arcs.config ≡ config.now) }
    ensures feeder { IfOk result (λ l. IsReady l.arcs l.feeder.party × (l.feeder.party.number ≡ 4)) }
    ensures new { IfOk result (λ l. IsNew l.arcs 4 l.feeder.party) }
    ensures first { IfOk result (λ l. IsReady l.arcs l.callers.0.party × (l.callers.0.party.number ≡ 0)) }
    ensures second { IfOk result (λ l. IsReady l.arcs l.callers.1.party × (l.callers.1.party.number ≡ 1)) }
    ensures third { IfOk result (λ l. IsReady l.arcs l.callers.2.party × (l.callers.2.party.number ≡ 2)) }
    ensures fourth { IfOk result (λ l. IsReady l.arcs l.callers.3.party × (l.callers.3.party.number ≡ 3)) }
{
    let (arcs, mut parties, mut pool) = made(alloc, config, blocks)?;
    let feeder = last_of(alloc, &arcs, &mut parties, &mut pool, 5)?;
    let four = last_of(alloc, &arcs, &mut parties, &mut pool, 4)?;
    let three = last_of(alloc, &arcs, &mut parties, &mut pool, 3)?;
    let two = last_of(alloc, &arcs, &mut parties, &mut pool, 2)?;
    let one = last_of(alloc, &arcs, &mut parties, &mut pool, 1)?;
    Ok(Scene {
        arcs,
        feeder,
        callers: (one, two, three, four),
    })
}

/// The shards of a cache of four callers at its end, once all parties are back.
pub fn close_all(
    alloc: Global,
    arcs: Arcs<Plain>,
    low: (Caller, Caller),
    high: (Caller, Caller),
    feeder: Caller,
) -> Result<Closed<Plain>, NoMemory>
    requires callers { arcs.config.callers ≡ 4 }
    requires first { IsReady arcs low.0.party × (low.0.party.number ≡ 0) }
    requires second { IsReady arcs low.1.party × (low.1.party.number ≡ 1) }
    requires third { IsReady arcs high.0.party × (high.0.party.number ≡ 2) }
    requires fourth { IsReady arcs high.1.party × (high.1.party.number ≡ 3) }
    requires feeder { IsReady arcs feeder.party × (feeder.party.number ≡ 4) }
    ensures { IfOk result (λ closed. length closed.shards ≡ arcs.config.shards) }
{
    let ((one, two), (three, four)) = (low, high);
    let parties = vec![in alloc; one.party, two.party, three.party, four.party, feeder.party]?;
    arcs.close(parties)
}
