//! A pool in memory.
ghost use Rattle.std.specs.Prelude.{◌≡◌, ◌+◌, ◌≤◌, ◌↔◌, [], map, take, drop, length, Some, IsTrue, IfOk, OnOk, OnErr, IsErrOf, is_err};
ghost use Rattle.std.specs.Arc.{arc_value};
ghost use Rattle.blk_ptr.specs.Size.{largest_block};
ghost use Rattle.vdev_io.specs.Device.{put};
ghost use Rattle.vdev_io.specs.Faults.{HasCause, HasIoCause, CountsFault, CountsIoFault, CountsOne, sum_of_counts};
ghost use Rattle.vdev_io.specs.Memory.{MemoryPool, after_call, is_to_fail, new_log, next_fork};

use super::calls::Calls;
use crate::fault::{Failed, IoFault};
use crate::pool::Pool;
use blk_ptr::NoMemory;
use std::alloc::Global;
use std::collections::VecDeque;
use std::marker::Model;
use std::sync::Arc;

/// A pool in memory. Its forks share its bytes: whoever writes while they are shared gets a copy of its own first.
#[derive(Debug, Drop)]
pub struct MemPool {
    bytes: Arc<Vec<u8>>,
    forks: VecDeque<Vec<u64>>,
    reads: u64,
    other_calls: u64,
    calls: Calls,
}

impl Model for MemPool {
    ghost Value = { MemoryPool };

    ghost view = { λ pool. record { bytes = (arc_value pool.bytes).items; forks = map (λ fail. fail.items) pool.forks.items; reads = pool.reads; other_calls = pool.other_calls; log = pool.calls } };
}

impl MemPool {
    /// A pool of these bytes, of which the calls numbered in `fail` are to fail, counted from 0. Of the `i`-th fork that is
    /// made of it, counted from 0, the calls in the `i`-th list of `forks` are to fail; of a fork past the lists, none.
    pub fn new(
        alloc: Global,
        bytes: Vec<u8>,
        fail: Vec<u64>,
        forks: Vec<Vec<u64>>,
    ) -> Result<MemPool, NoMemory>
        ensures { IfOk result (λ pool. pool ≡ record { bytes = bytes.items; forks = map (λ fail. fail.items) forks.items; reads = 0; other_calls = 0; log = new_log fail.items }) }
    {
        let bytes = Arc::new(alloc, bytes)?;
        let calls = Calls::new(fail);
        Ok(MemPool {
            bytes,
            forks: VecDeque::from(forks),
            reads: 0,
            other_calls: 0,
            calls,
        })
    }

    /// The bytes that it holds.
    pub fn bytes(&self) -> &[u8]
        ensures { result.now ≡ self.now.bytes }
    {
        &self.bytes
    }
}

impl Pool for MemPool {
    ghost size = { λ pool. length pool.bytes };

    ghost told = { λ pool. Some pool.bytes };

    ghost faults = { λ pool. pool.log.faults };

    ghost reads = { λ pool. pool.reads };

    ghost other_calls = { λ pool. pool.other_calls };

    fn len(&self) -> u64 {
        self.bytes.len() as u64
    }

    fn read(&mut self, offset: u64, buf: &mut [u8]) -> Result<(), Failed>
        requires inside { offset + length buf.old ≤ length self.old.bytes }
        requires one_block { length buf.old ≤ largest_block }
        ensures bytes { OnOk result (buf.new ≡ take (length buf.old) (drop offset self.old.bytes)) }
        ensures kept { (self.new.bytes ≡ self.old.bytes) × (self.new.forks ≡ self.old.forks) × (self.new.other_calls ≡ self.old.other_calls) }
        ensures counted { CountsOne self.old.reads self.new.reads }
        ensures cause { HasCause self.old.log.faults self.new.log.faults result }
        ensures fault { CountsFault self.old.log.faults self.new.log.faults result }
        ensures listed { is_err result ≡ is_to_fail self.old.log }
        ensures calls { self.new.log ≡ after_call self.old.log }
    {
        self.reads = self.reads.saturating_add(1);
        self.calls.begin()?;
        let at = offset as usize;
        buf.copy_from_slice(&self.bytes[at..at + buf.len()]);
        Ok(())
    }

    fn write(&mut self, offset: u64, bytes: &[u8]) -> Result<(), IoFault>
        requires inside { offset + length bytes.now ≤ length self.old.bytes }
        ensures written { OnOk result (self.new.bytes ≡ put offset bytes.now self.old.bytes) }
        ensures failed { OnErr result (self.new.bytes ≡ self.old.bytes) }
        ensures len { length self.new.bytes ≡ length self.old.bytes }
        ensures kept { (self.new.reads ≡ self.old.reads) × (self.new.forks ≡ self.old.forks) }
        ensures others { self.new.other_calls ≡ sum_of_counts self.old.other_calls 1 }
        ensures cause { HasIoCause self.old.log.faults self.new.log.faults result }
        ensures fault { CountsIoFault self.old.log.faults self.new.log.faults result }
        ensures listed { IsErrOf result IoFault.Failed ↔ IsTrue (is_to_fail self.old.log) }
        ensures calls { self.new.log ≡ after_call self.old.log }
    {
        self.other_calls = self.other_calls.saturating_add(1);
        self.calls.begin()?;
        let at = offset as usize;
        let held = Arc::make_mut(&mut self.bytes)?;
        held[at..at + bytes.len()].copy_from_slice(bytes);
        Ok(())
    }

    fn fork(&mut self, alloc: Global) -> Result<MemPool, IoFault>
        ensures fork { IfOk result (λ fork. fork ≡ record { bytes = self.old.bytes; forks = []; reads = 0; other_calls = 0; log = new_log (next_fork self.old.forks) }) }
        ensures made { OnOk result (self.new.forks ≡ drop 1 self.old.forks) }
        ensures failed { OnErr result (self.new.forks ≡ self.old.forks) }
        ensures kept { (self.new.bytes ≡ self.old.bytes) × (self.new.reads ≡ self.old.reads) }
        ensures others { self.new.other_calls ≡ sum_of_counts self.old.other_calls 1 }
        ensures cause { HasIoCause self.old.log.faults self.new.log.faults result }
        ensures fault { CountsIoFault self.old.log.faults self.new.log.faults result }
        ensures listed { IsErrOf result IoFault.Failed ↔ IsTrue (is_to_fail self.old.log) }
        ensures calls { self.new.log ≡ after_call self.old.log }
    {
        self.other_calls = self.other_calls.saturating_add(1);
        self.calls.begin()?;
        let bytes = Arc::try_clone(&self.bytes)?;
        let fail = match self.forks.pop_front() {
            Some(fail) => fail,
            None => Vec::new(alloc),
        };
        Ok(MemPool {
            bytes,
            forks: VecDeque::new(alloc),
            reads: 0,
            other_calls: 0,
            calls: Calls::new(fail),
        })
    }

    fn absorb(&mut self, other: MemPool)
        ensures faults { self.new.log ≡ record self.old.log { faults = sum_of_counts self.old.log.faults other.log.faults } }
        ensures reads { self.new.reads ≡ sum_of_counts self.old.reads other.reads }
        ensures kept { (self.new.bytes ≡ self.old.bytes) × (self.new.forks ≡ self.old.forks) × (self.new.other_calls ≡ self.old.other_calls) }
    {
        self.reads = self.reads.saturating_add(other.reads);
        self.calls.absorb(other.calls.faults());
    }

    ghost use Rattle.vdev_io.specs.MemoryLaws.{some_has_len};

    ghost told_len = { λ pool image told. some_has_len pool.bytes image told };
}
