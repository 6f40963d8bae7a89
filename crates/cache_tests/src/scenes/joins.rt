//! A read that finds its block being read by another caller: it waits, and then hits.
ghost use Rattle.std.proofs.Common.{◌∙◌};
ghost use Rattle.std.proofs.lemmas.List.{length-replicate};
ghost use Rattle.std.specs.Prelude.{◌≡◌, Some, replicate};
ghost use Rattle.std.specs.Thread.{IsSync};
ghost use Rattle.vdev_io.specs.MemoryLaws.{some_has_len};
ghost use Rattle.arc_examples.specs.Ready.{IsReady, IsReadyAs};

use super::{big, opened};
use arc_core::{ReadFault, Served};
use arc_examples::{Pair, Plain};
use arc_table::{Arcs, Party, Read};
use blk_ptr::Ptr;
use std::alloc::Global;
use std::sync::Wait;
use std::sync::atomic::AtomicU64;
use std::sync::atomic::Ordering::SeqCst;
use std::test::Fail;
use std::thread;
use std::thread::Threads;
use vdev_io::{Failed, IoFault, NoCache, Pool};

// Waits until the number is at least this one, for at most 1,000,000 turns.
fn wait_for(number: &AtomicU64, least: u64) {
    for _ in 0..1_000_000 {
        if number.load(SeqCst) >= least {
            return;
        }
        thread::yield_now();
    }
}

// A pool of zeros. A read of it says that it has begun, and ends a while after the other caller has asked for the block.
#[derive(Drop)]
struct Slow<'a> {
    len: u64,
    // 1 once a read has begun, and 2 once the other caller is about to ask
    stage: &'a AtomicU64,
    reads: u64,
    other_calls: u64,
}

impl Pool for Slow<'_> {
    ghost size = { λ pool. pool.len };

    ghost told = { λ pool. Some (replicate pool.len 0) };

    ghost faults = { λ _. 0 };

    ghost reads = { λ pool. pool.reads };

    ghost other_calls = { λ pool. pool.other_calls };

    fn len(&self) -> u64 {
        self.len
    }

    fn read(&mut self, _offset: u64, buf: &mut [u8]) -> Result<(), Failed> {
        self.reads = self.reads.saturating_add(1);
        self.stage.fetch_add(1, SeqCst);
        wait_for(self.stage, 2);
        for _ in 0..10_000 {
            thread::yield_now();
        }
        buf.fill(0);
        Ok(())
    }

    fn write(&mut self, _offset: u64, _bytes: &[u8]) -> Result<(), IoFault> {
        self.other_calls = self.other_calls.saturating_add(1);
        Err(IoFault::NoMemory)
    }

    fn fork(&mut self, _alloc: Global) -> Result<Self, IoFault> {
        self.other_calls = self.other_calls.saturating_add(1);
        Err(IoFault::NoMemory)
    }

    fn absorb(&mut self, other: Self) {
        self.reads = self.reads.saturating_add(other.reads);
    }

    ghost told_len = { λ pool image told. some_has_len (replicate pool.len 0) image told ∙ length-replicate pool.len 0 };
}

// Reads a block; a hold stays with the party.
fn read_of<R: Wait>(
    rt: &R,
    arcs: &Arcs<Plain>,
    party: &mut Party<Plain>,
    ptr: &Ptr,
    pool: &mut Slow,
) -> Result<Read, ReadFault>
    requires { IsReady arcs.now party.old }
    ensures { IsReadyAs arcs.now party.old party.new }
{
    arcs.read(rt, party, ptr, 1, pool, &mut NoCache::new())
}

// Where the bytes of such a read of the first block come from, where it gives a hold.
fn served<R: Wait>(
    rt: &R,
    arcs: &Arcs<Plain>,
    party: &mut Party<Plain>,
    pool: &mut Slow,
) -> Option<Served>
    requires { IsReady arcs.now party.old }
    ensures { IsReadyAs arcs.now party.old party.new }
{
    match read_of(rt, arcs, party, &big(0), pool) {
        Ok(Read::Held(_, served)) => Some(served),
        Ok(Read::Past { block: _, kept: _ }) => None,
        Err(_) => None,
    }
}

// A caller reads the first block: what it is answered, and how often it read its own pool.
fn reads_of<R: Wait>(
    rt: &R,
    arcs: &Arcs<Plain>,
    mut party: Party<Plain>,
    stage: &AtomicU64,
) -> (Option<Served>, u64)
    requires { IsReady arcs.now party }
{
    let mut pool = Slow {
        len: 6144,
        stage,
        reads: 0,
        other_calls: 0,
    };
    let answer = served(rt, arcs, &mut party, &mut pool);
    (answer, pool.reads)
}

// The same once another read has begun.
fn late_reads_of<R: Wait>(
    rt: &R,
    arcs: &Arcs<Plain>,
    party: Party<Plain>,
    stage: &AtomicU64,
) -> (Option<Served>, u64)
    requires { IsReady arcs.now party }
{
    wait_for(stage, 1);
    stage.fetch_add(1, SeqCst);
    reads_of(rt, arcs, party, stage)
}

// Both at once, the second once the first is inside its pool.
fn both_read<R: Threads + Wait + Sync>(
    rt: &R,
    arcs: &Arcs<Plain>,
    one: Party<Plain>,
    two: Party<Plain>,
) -> ((Option<Served>, u64), (Option<Served>, u64))
    requires one { IsReady arcs.now one }
    requires two { IsReady arcs.now two }
{
    let at_start = AtomicU64::new(0);
    let stage = &at_start;
    thread::join(
        rt,
        move || -> (Option<Served>, u64)
            requires { IsSync R.row × IsReady arcs.now one }
        { reads_of(rt, arcs, one, stage) },
        move || -> (Option<Served>, u64)
            requires { IsSync R.row × IsReady arcs.now two }
        { late_reads_of(rt, arcs, two, stage) },
    )
}

#[test]
fn a_read_joins_one_in_progress_and_hits(rt: HostRuntime) -> Result<(), Fail> {
    let Pair { arcs, one, two, .. } = opened(rt.alloc()).ok().ok_or("memory")?;
    let (first, second) = both_read(&rt, &arcs, one.party, two.party);
    assert!(rt; first == (Some(Served::Pool), 1));
    assert!(rt; second == (Some(Served::Hit), 0));
    Ok(())
}
