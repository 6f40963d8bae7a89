//! Two callers at once, over pools whose forks wait for each other, and behind gates that hold a caller back.
ghost use Rattle.std.proofs.Common.{◌∙◌};
ghost use Rattle.std.proofs.lemmas.List.{length-replicate};
ghost use Rattle.std.specs.Prelude.{◌≡◌, Some, replicate};
ghost use Rattle.vdev_io.specs.MemoryLaws.{some_has_len};

use super::runs::{ran, source_of, spelled};
use std::alloc::{AllocError, Global};
use std::sync::Wait;
use std::sync::atomic::AtomicU64;
use std::sync::atomic::Ordering::SeqCst;
use std::test::Fail;
use std::thread;
use std::thread::Threads;
use trace_run::Status;
use vdev_io::{Failed, FreeGate, Gate, IoFault, Pool};

/// Waits until the number is at least this one, for at most 1,000,000 turns, and tells whether it is.
fn waits_for(number: &AtomicU64, least: u64) -> bool {
    for _ in 0..1_000_000 {
        if number.load(SeqCst) >= least {
            return true;
        }
        thread::yield_now();
    }
    false
}

/// What the first read of a pool does, before it answers.
#[derive(Clone, Copy)]
enum First {
    /// It is counted, and fails where the other fork's first read isn't counted too in the end.
    Meets,
    /// It is counted, waits for the gate, and fails.
    Fails,
    /// Nothing.
    Answers,
}

/// A pool of zero bytes, whose forks' first reads do what this list says.
#[derive(Drop)]
struct Meeting<'a> {
    len: u64,
    forks: [First; 2],
    made: usize,
    first: First,
    /// how many first reads have begun
    begun: &'a AtomicU64,
    /// 1 once the gate has let the other caller begin
    open: &'a AtomicU64,
    reads: u64,
    other_calls: u64,
    faults: u64,
}

/// A pool of 1,024 bytes with these forks.
fn pool_with<'a>(forks: [First; 2], begun: &'a AtomicU64, open: &'a AtomicU64) -> Meeting<'a> {
    Meeting {
        len: 1024,
        forks,
        made: 0,
        first: First::Answers,
        begun,
        open,
        reads: 0,
        other_calls: 0,
        faults: 0,
    }
}

impl Meeting<'_> {
    /// Whether its next read is to fail. Only the first read does anything else.
    fn fails(&mut self) -> bool
        ensures { self.new ≡ record self.old { first = self.new.first } }
    {
        let first = self.first;
        self.first = First::Answers;
        match first {
            First::Meets => {
                self.begun.fetch_add(1, SeqCst);
                !waits_for(self.begun, 2)
            }
            First::Fails => {
                self.begun.fetch_add(1, SeqCst);
                waits_for(self.open, 1);
                true
            }
            First::Answers => false,
        }
    }
}

impl Pool for Meeting<'_> {
    ghost size = { λ pool. pool.len };

    ghost told = { λ pool. Some (replicate pool.len 0) };

    ghost faults = { λ pool. pool.faults };

    ghost reads = { λ pool. pool.reads };

    ghost other_calls = { λ pool. pool.other_calls };

    fn len(&self) -> u64 {
        self.len
    }

    fn read(&mut self, _offset: u64, buf: &mut [u8]) -> Result<(), Failed> {
        self.reads = self.reads.saturating_add(1);
        if self.fails() {
            self.faults = self.faults.saturating_add(1);
            return Err(Failed);
        }
        buf.fill(0);
        Ok(())
    }

    fn write(&mut self, _offset: u64, _bytes: &[u8]) -> Result<(), IoFault> {
        self.other_calls = self.other_calls.saturating_add(1);
        Err(IoFault::NoMemory)
    }

    fn fork(&mut self, _alloc: Global) -> Result<Self, IoFault> {
        self.other_calls = self.other_calls.saturating_add(1);
        let first = if self.made < 2 {
            self.forks[self.made]
        } else {
            First::Answers
        };
        self.made = self.made.saturating_add(1);
        Ok(Meeting {
            len: self.len,
            forks: self.forks,
            made: 0,
            first,
            begun: self.begun,
            open: self.open,
            reads: 0,
            other_calls: 0,
            faults: 0,
        })
    }

    fn absorb(&mut self, other: Self) {
        self.reads = self.reads.saturating_add(other.reads);
        self.faults = self.faults.saturating_add(other.faults);
    }

    ghost told_len = { λ pool image told. some_has_len (replicate pool.len 0) image told ∙ length-replicate pool.len 0 };
}

/// What a trace is answered over such a pool, behind a gate.
fn answers<R: AllocGlobal + Threads + Wait + Sync, G: Gate>(
    rt: &R,
    trace: &str,
    pool: &mut Meeting<'_>,
    gate: &G,
) -> Result<(Status, Vec<u8>), AllocError> {
    let mut source = source_of(rt.alloc(), trace, &[])?;
    let (outcome, text) = ran(rt, &["run"], &mut source, pool, &[], gate)?;
    Ok((outcome.status, text))
}

/// Each caller's read of the pool ends only once the other's has begun. So callers that run one after another, and a reader that keeps its
/// bucket from others while it reads the pool, end with a refusal.
#[test]
fn reads_of_two_callers_meet(rt: HostRuntime) -> Result<(), Fail> {
    let begun = AtomicU64::new(0);
    let open = AtomicU64::new(0);
    let mut pool = pool_with([First::Meets, First::Meets], &begun, &open);
    let trace = "arc 2 1 1 1 4096 0 0
block 0 512 1 Z
block 512 512 1 Z
read 0 1 0 0 0
read 1 1 1 0 0
";
    let report = "arc 1
0 ok pool Z -
1 ok pool Z -
shard 0 c 4096 p 2048 anon 0 mru 1024 mrug 0 mfu 0 mfug 0 l2 0
count hit 0 miss 2 past 0 pool 2 l2 0 pass 0 set 0
end 0
";
    let (status, text) = answers(&rt, trace, &mut pool, &FreeGate)?;
    assert!(rt; text.as_slice() == spelled(rt.alloc(), report)?.as_bytes());
    assert!(rt; status == Status::Ok && pool.reads == 2);
    Ok(())
}

/// Lets the second caller begin once the first is inside its read of the pool.
#[derive(Drop)]
struct HoldsSecond<'a> {
    begun: &'a AtomicU64,
    open: &'a AtomicU64,
}

impl Gate for HoldsSecond<'_> {
    fn before(&self, n: u32, _op: u32) {
        if n == 1 {
            waits_for(self.begun, 1);
            self.open.store(1, SeqCst);
        }
    }

    fn after(&self, _n: u32, _op: u32) {}
}

/// A reader that finds a read in progress begins again once that has failed, and reads its own fork.
#[test]
fn a_failed_read_is_its_own_callers(rt: HostRuntime) -> Result<(), Fail> {
    let begun = AtomicU64::new(0);
    let open = AtomicU64::new(0);
    let mut pool = pool_with([First::Fails, First::Answers], &begun, &open);
    let gate = HoldsSecond {
        begun: &begun,
        open: &open,
    };
    let trace = "arc 2 1 16 1 4096 0 0
block 0 512 1 Z
read 0 1 0 0 0
read 1 1 0 0 0
";
    let report = "arc 1
0 refused pool
1 ok pool Z -
shard 0 c 4096 p 2048 anon 0 mru 512 mrug 0 mfu 0 mfug 0 l2 0
count hit 0 miss 2 past 0 pool 2 l2 0 pass 0 set 0
end 1
";
    let (status, text) = answers(&rt, trace, &mut pool, &gate)?;
    assert!(rt; text.as_slice() == spelled(rt.alloc(), report)?.as_bytes());
    assert!(rt; status == Status::ReadsFailed && pool.reads == 2 && pool.faults == 1);
    Ok(())
}

/// Counts the calls, those of each operation and each caller at a place of their own.
#[derive(Drop)]
struct Sums<'a> {
    before: &'a AtomicU64,
    after: &'a AtomicU64,
}

/// What one call adds: eight bits for each operation, of which the first caller has four.
fn part(n: u32, op: u32) -> u64 {
    if n < 2 && op < 8 {
        1u64 << (8 * op + 4 * n)
    } else {
        1u64 << 63
    }
}

impl Gate for Sums<'_> {
    fn before(&self, n: u32, op: u32) {
        self.before.fetch_add(part(n, op), SeqCst);
    }

    fn after(&self, n: u32, op: u32) {
        self.after.fetch_add(part(n, op), SeqCst);
    }
}

/// The gate is told of each operation once before and once after it, with its caller and with its number in the trace, whether it is
/// answered or refused.
#[test]
fn the_gate_is_told_of_each_operation(rt: HostRuntime) -> Result<(), Fail> {
    let unused = AtomicU64::new(0);
    let before = AtomicU64::new(0);
    let after = AtomicU64::new(0);
    let gate = Sums {
        before: &before,
        after: &after,
    };
    let mut pool = pool_with([First::Answers, First::Answers], &unused, &unused);
    let trace = "arc 2 2 16 1 4096 0 0
block 0 512 1 Z
block 512 512 1 Z
hold 1 1 0
read 0 1 1 0 0
drop 1 0
read 0 2 1 512 1
drop 0 1
";
    let (status, _) = answers(&rt, trace, &mut pool, &gate)?;
    assert!(rt; status == Status::ReadsFailed);
    assert!(rt; before.load(SeqCst) == 0x1_0110_0110);
    assert!(rt; after.load(SeqCst) == 0x1_0110_0110);
    Ok(())
}
