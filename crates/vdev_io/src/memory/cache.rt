//! A cache device in memory.
ghost use Rattle.std.specs.Prelude.{◌≡◌, ◌+◌, ◌≤◌, ◌↔◌, [], true, false, take, drop, length, IsTrue, IfOk, OnOk, OnErr, IsErrOf, is_err};
ghost use Rattle.vdev_io.specs.Device.{put};
ghost use Rattle.vdev_io.specs.Faults.{CountsFault, CountsIoFault, CountsOne, HasCause, HasIoCause, sum_of_counts};
ghost use Rattle.vdev_io.specs.Memory.{MemoryCache, after_call, told_by, MayBeLeft, is_to_fail, new_log};
ghost use Rattle.vdev_io.specs.MemoryLaws.{told_has_len, told_may_be_left, left_has_len, not_sectors};

use super::calls::Calls;
use crate::device::CacheDev;
use crate::fault::{Failed, IoFault};
use std::alloc::Global;
use std::marker::Model;

/// A cache device in memory. A write of it is done at once, and counts as flushed from the next flush on.
#[derive(Debug, Drop)]
pub struct MemCache {
    bytes: Vec<u8>,
    flushed: bool,
    tells: bool,
    reads: u64,
    other_calls: u64,
    calls: Calls,
}

impl Model for MemCache {
    ghost Value = { MemoryCache };

    ghost view = { λ cache. record { bytes = cache.bytes.items; flushed = cache.flushed; tells = cache.tells; reads = cache.reads; other_calls = cache.other_calls; log = cache.calls } };
}

impl MemCache {
    /// A device of these bytes, all of them flushed, of which the calls numbered in `fail` are to fail, counted from 0.
    pub fn new(bytes: Vec<u8>, fail: Vec<u64>) -> MemCache
        ensures { result ≡ record { bytes = bytes.items; flushed = true; tells = true; reads = 0; other_calls = 0; log = new_log fail.items } }
    {
        let calls = Calls::new(fail);
        MemCache {
            bytes,
            flushed: true,
            tells: true,
            reads: 0,
            other_calls: 0,
            calls,
        }
    }

    /// The bytes that it holds.
    pub fn bytes(&self) -> &[u8]
        ensures { result.now ≡ self.now.bytes }
    {
        &self.bytes
    }
}

impl CacheDev for MemCache {
    ghost size = { λ cache. length cache.bytes };

    ghost told = { λ cache. told_by cache };

    ghost may_leave = { λ cache c. MayBeLeft cache.flushed cache.bytes c };

    ghost moment = { λ _. 0 };

    ghost left_since = { λ cache _ c. length c ≡ length cache.bytes };

    ghost has_sectors = { λ _. false };

    ghost faults = { λ cache. cache.log.faults };

    ghost reads = { λ cache. cache.reads };

    ghost other_calls = { λ cache. cache.other_calls };

    fn len(&self) -> u64 {
        self.bytes.len() as u64
    }

    fn read(&mut self, offset: u64, buf: &mut [u8]) -> Result<(), Failed>
        requires inside { offset + length buf.old ≤ length self.old.bytes }
        ensures bytes { OnOk result (buf.new ≡ take (length buf.old) (drop offset self.old.bytes)) }
        ensures kept { (self.new.bytes ≡ self.old.bytes) × (self.new.flushed ≡ self.old.flushed) × (self.new.tells ≡ self.old.tells) × (self.new.other_calls ≡ self.old.other_calls) }
        ensures counted { CountsOne self.old.reads self.new.reads }
        ensures cause { HasCause self.old.log.faults self.new.log.faults result }
        ensures fault { CountsFault self.old.log.faults self.new.log.faults result }
        ensures listed { is_err result ≡ is_to_fail self.old.log }
        ensures calls { self.new.log ≡ after_call self.old.log }
    {
        self.reads = self.reads.saturating_add(1);
        self.calls.begin()?;
        let at = offset as usize;
        buf.copy_from_slice(&self.bytes[at..at + buf.len()]);
        Ok(())
    }

    fn write(&mut self, offset: u64, bytes: &[u8]) -> Result<(), Failed>
        requires inside { offset + length bytes.now ≤ length self.old.bytes }
        ensures written { OnOk result ((self.new.bytes ≡ put offset bytes.now self.old.bytes) × (self.new.flushed ≡ false)) }
        ensures failed { OnErr result ((self.new.bytes ≡ self.old.bytes) × (self.new.flushed ≡ self.old.flushed)) }
        ensures kept { (self.new.tells ≡ self.old.tells) × (self.new.reads ≡ self.old.reads) }
        ensures others { self.new.other_calls ≡ sum_of_counts self.old.other_calls 1 }
        ensures len { length self.new.bytes ≡ length self.old.bytes }
        ensures cause { HasCause self.old.log.faults self.new.log.faults result }
        ensures fault { CountsFault self.old.log.faults self.new.log.faults result }
        ensures listed { is_err result ≡ is_to_fail self.old.log }
        ensures calls { self.new.log ≡ after_call self.old.log }
    {
        self.other_calls = self.other_calls.saturating_add(1);
        self.calls.begin()?;
        let at = offset as usize;
        self.flushed = false;
        self.bytes[at..at + bytes.len()].copy_from_slice(bytes);
        Ok(())
    }

    fn flush(&mut self) -> Result<(), Failed>
        ensures durable { OnOk result (self.new.flushed ≡ true) }
        ensures failed { OnErr result (self.new.flushed ≡ self.old.flushed) }
        ensures bytes { self.new.bytes ≡ self.old.bytes }
        ensures kept { (self.new.tells ≡ self.old.tells) × (self.new.reads ≡ self.old.reads) }
        ensures others { self.new.other_calls ≡ sum_of_counts self.old.other_calls 1 }
        ensures cause { HasCause self.old.log.faults self.new.log.faults result }
        ensures fault { CountsFault self.old.log.faults self.new.log.faults result }
        ensures listed { is_err result ≡ is_to_fail self.old.log }
        ensures calls { self.new.log ≡ after_call self.old.log }
    {
        self.other_calls = self.other_calls.saturating_add(1);
        self.calls.begin()?;
        self.flushed = true;
        Ok(())
    }

    fn fork(&mut self, alloc: Global) -> Result<MemCache, IoFault>
        ensures fork { IfOk result (λ fork. fork ≡ record { bytes = self.old.bytes; flushed = false; tells = false; reads = 0; other_calls = 0; log = new_log [] }) }
        ensures kept { (self.new.bytes ≡ self.old.bytes) × (self.new.flushed ≡ self.old.flushed) × (self.new.tells ≡ self.old.tells) × (self.new.reads ≡ self.old.reads) }
        ensures others { self.new.other_calls ≡ sum_of_counts self.old.other_calls 1 }
        ensures cause { HasIoCause self.old.log.faults self.new.log.faults result }
        ensures fault { CountsIoFault self.old.log.faults self.new.log.faults result }
        ensures listed { IsErrOf result IoFault.Failed ↔ IsTrue (is_to_fail self.old.log) }
        ensures calls { self.new.log ≡ after_call self.old.log }
    {
        self.other_calls = self.other_calls.saturating_add(1);
        self.calls.begin()?;
        let bytes = self.bytes.to_vec(alloc)?;
        Ok(MemCache {
            bytes,
            flushed: false,
            tells: false,
            reads: 0,
            other_calls: 0,
            calls: Calls::new(Vec::new(alloc)),
        })
    }

    fn absorb(&mut self, other: MemCache)
        ensures faults { self.new.log ≡ record self.old.log { faults = sum_of_counts self.old.log.faults other.log.faults } }
        ensures reads { self.new.reads ≡ sum_of_counts self.old.reads other.reads }
        ensures kept { (self.new.bytes ≡ self.old.bytes) × (self.new.flushed ≡ self.old.flushed) × (self.new.tells ≡ self.old.tells) × (self.new.other_calls ≡ self.old.other_calls) }
    {
        self.reads = self.reads.saturating_add(other.reads);
        self.calls.absorb(other.calls.faults());
    }

    ghost told_len = { told_has_len };

    ghost leaves_told = { told_may_be_left };

    ghost leaves_len = { λ cache c left. left_has_len cache.flushed cache.bytes c left };

    ghost counts_now = { λ cache t c le left. left_has_len cache.flushed cache.bytes c left };

    ghost only_now = { λ cache c yes left. not_sectors yes };

    ghost since_earlier = { λ cache s t c le left. left };
}
