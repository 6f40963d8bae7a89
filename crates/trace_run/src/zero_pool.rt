//! The pool of a made trace.
ghost use Rattle.std.proofs.Common.{◌∙◌};
ghost use Rattle.std.proofs.lemmas.List.{length-replicate};
ghost use Rattle.std.specs.Prelude.{◌≡◌, ◌+◌, ◌≤◌, OnOk, IfSome, Some, drop, length, replicate, take};
ghost use Rattle.vdev_io.specs.Faults.{CountsFault, CountsOne, HasCause};
ghost use Rattle.vdev_io.specs.MemoryLaws.{some_has_len};

use std::alloc::Global;
use vdev_io::{Failed, IoFault, Pool};

/// A pool of zero bytes, which never fails. It keeps none of them in memory, so it has no memory for other ones.
#[derive(Debug, Drop)]
pub(crate) struct ZeroPool {
    len: u64,
    reads: u64,
    other_calls: u64,
}

impl ZeroPool {
    /// A pool of this length, of which nothing was asked yet.
    pub(crate) fn new(len: u64) -> ZeroPool
        ensures len { result.len ≡ len }
        ensures reads { result.reads ≡ 0 }
        ensures others { result.other_calls ≡ 0 }
    {
        ZeroPool {
            len,
            reads: 0,
            other_calls: 0,
        }
    }
}

impl Pool for ZeroPool {
    ghost size = { λ pool. pool.len };

    ghost told = { λ pool. Some (replicate pool.len 0) };

    ghost faults = { λ _. 0 };

    ghost reads = { λ pool. pool.reads };

    ghost other_calls = { λ pool. pool.other_calls };

    fn len(&self) -> u64 {
        self.len
    }

    fn read(&mut self, offset: u64, buf: &mut [u8]) -> Result<(), Failed> {
        self.reads = self.reads.saturating_add(1);
        buf.fill(0);
        Ok(())
    }

    fn write(&mut self, _offset: u64, _bytes: &[u8]) -> Result<(), IoFault> {
        self.other_calls = self.other_calls.saturating_add(1);
        Err(IoFault::NoMemory)
    }

    fn fork(&mut self, _alloc: Global) -> Result<ZeroPool, IoFault> {
        self.other_calls = self.other_calls.saturating_add(1);
        Ok(ZeroPool::new(self.len))
    }

    fn absorb(&mut self, other: ZeroPool) {
        self.reads = self.reads.saturating_add(other.reads);
    }

    ghost told_len = { λ pool image told. some_has_len (replicate pool.len 0) image told ∙ length-replicate pool.len 0 };
}
