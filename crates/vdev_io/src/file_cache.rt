//! A cache device over a file or a block device. Nothing is told of its content.
ghost use Rattle.std.specs.Prelude.{◌≡◌, ◌^◌, ◌≤◌, None, IfOk, IsTrue, OnOk, false, is_err, if◌then◌else◌, string_bytes};
ghost use Rattle.vdev_io.specs.Device.{Elapses, ElapsesTo, FollowsBySector, LeavesSame, LeavesNothingNew};
ghost use Rattle.vdev_io.specs.Faults.{CountsFault, CountsIoFault, CountsOne, HasCause, HasIoCause, sum_of_counts};
ghost use Rattle.vdev_io.specs.Place.{HasLength, ReadsAt, WritesAt};
ghost use Rattle.vdev_io.specs.Untold.{GivesAnything, OfLength, TellsNothing, untold};

use crate::device::CacheDev;
use crate::fault::{Failed, FaultCount, IoFault};
use crate::file::{OpenFault, length_of, open_to_write, read_at, write_at};
use std::alloc::Global;
use std::fs;
use std::fs::OpenFile;
use std::rt::Files;

/// The greatest length of a cache device, in bytes.
pub const LONGEST_CACHE: u64 = 1 << 32;

/// A cache device in a file or on a block device.
///
/// Its length is the one that it had when it was opened: where the file has shrunk since, a read behind its end fails, and
/// what it has grown by isn't seen. A read or a write that the system does in parts is gone on with, and one that a signal
/// interrupts is made again. A fork has the file open to be read alone, so no write through one comes to the device.
#[derive(Drop)]
pub struct FileCache<'a, R: Files> {
    rt: &'a R,
    name: String,
    file: R::File,
    len: u64,
    reads: u64,
    other_calls: u64,
    faults: FaultCount,
}

impl<'a, R: Files> FileCache<'a, R> {
    /// Opens the file of this name to be read and written. It may have 2^32 bytes at most.
    pub fn open(alloc: Global, rt: &'a R, name: &str) -> Result<FileCache<'a, R>, OpenFault>
        ensures len { IfOk result (λ cache. cache.len ≤ 2 ^ 32) }
        ensures told { IfOk result (λ cache. (opened : R.File) × HasLength R.File.stream_position R.File.stream_bytes opened cache.len) }
        ensures name { IfOk result (λ cache. string_bytes cache.name ≡ name.now) }
        ensures counts { IfOk result (λ cache. (cache.reads ≡ 0) × (cache.other_calls ≡ 0) × (cache.faults.count ≡ 0)) }
    {
        if fs::metadata(rt, name)?.is_dir() {
            return Err(OpenFault::File);
        }
        let mut file = open_to_write(rt, name)?;
        let len = length_of(&mut file, LONGEST_CACHE)?;
        let name = String::from_str(alloc, name)?;
        Ok(FileCache {
            rt,
            name,
            file,
            len,
            reads: 0,
            other_calls: 0,
            faults: FaultCount::new(),
        })
    }
}

impl<R: Files + Sync> CacheDev for FileCache<'_, R>
where
    R::File: Send,
{
    ghost size = { λ cache. cache.len };

    ghost told = { λ _. None };

    ghost may_leave = { λ cache c. OfLength cache.len c };

    ghost moment = { λ _. 0 };

    ghost left_since = { λ cache _ c. OfLength cache.len c };

    ghost has_sectors = { λ _. false };

    ghost faults = { λ cache. cache.faults.count };

    ghost reads = { λ cache. cache.reads };

    ghost other_calls = { λ cache. cache.other_calls };

    fn len(&self) -> u64 {
        self.len
    }

    fn read(&mut self, offset: u64, buf: &mut [u8]) -> Result<(), Failed>
        ensures bytes { OnOk result (ReadsAt R.File.stream_position R.File.remaining offset self.old.file self.new.file buf.new) }
        ensures kept { (self.new.len ≡ self.old.len) × (self.new.name ≡ self.old.name) }
        ensures counted { CountsOne self.old.reads self.new.reads }
        ensures others { self.new.other_calls ≡ self.old.other_calls }
        ensures told { GivesAnything result }
        ensures crash { LeavesSame (OfLength self.old.len) (OfLength self.new.len) }
        ensures time { LeavesNothingNew 0 0 (λ _. OfLength self.old.len) (λ _. OfLength self.new.len) }
        ensures cause { HasCause self.old.faults.count self.new.faults.count result }
        ensures fault { CountsFault self.old.faults.count self.new.faults.count result }
    {
        self.reads = self.reads.saturating_add(1);
        self.faults.tell(read_at(&mut self.file, offset, buf))
    }

    fn write(&mut self, offset: u64, bytes: &[u8]) -> Result<(), Failed>
        ensures bytes { OnOk result (WritesAt R.File.stream_position R.File.contents offset self.old.file self.new.file bytes.now) }
        ensures kept { (self.new.len ≡ self.old.len) × (self.new.name ≡ self.old.name) × (self.new.reads ≡ self.old.reads) }
        ensures others { self.new.other_calls ≡ sum_of_counts self.old.other_calls 1 }
        ensures crash { IsTrue false → FollowsBySector offset bytes.now (OfLength self.old.len) (OfLength self.new.len) }
        ensures time { Elapses 0 0 (λ _. OfLength self.old.len) (λ _. OfLength self.new.len) }
        ensures since { IsTrue false → ElapsesTo 0 (λ _. OfLength self.old.len) (λ _. OfLength self.new.len) (OfLength self.new.len) }
        ensures cause { HasCause self.old.faults.count self.new.faults.count result }
        ensures fault { CountsFault self.old.faults.count self.new.faults.count result }
    {
        self.other_calls = self.other_calls.saturating_add(1);
        self.faults.tell(write_at(&mut self.file, offset, bytes))
    }

    fn flush(&mut self) -> Result<(), Failed> {
        self.other_calls = self.other_calls.saturating_add(1);
        self.faults.tell(self.file.sync_all())
    }

    fn fork(&mut self, alloc: Global) -> Result<Self, IoFault>
        ensures fork { IfOk result (λ fork. (fork.len ≡ self.old.len) × TellsNothing × (fork.faults.count ≡ 0) × (fork.reads ≡ 0) × (fork.other_calls ≡ 0)) }
        ensures name { IfOk result (λ fork. string_bytes fork.name ≡ string_bytes self.old.name) }
        ensures file { self.new.file ≡ self.old.file }
        ensures kept { (self.new.len ≡ self.old.len) × (self.new.name ≡ self.old.name) × (self.new.reads ≡ self.old.reads) }
        ensures others { self.new.other_calls ≡ sum_of_counts self.old.other_calls 1 }
        ensures crash { LeavesSame (OfLength self.old.len) (OfLength self.new.len) }
        ensures time { LeavesNothingNew 0 0 (λ _. OfLength self.old.len) (λ _. OfLength self.new.len) }
        ensures cause { HasIoCause self.old.faults.count self.new.faults.count result }
        ensures fault { CountsIoFault self.old.faults.count self.new.faults.count result }
    {
        self.other_calls = self.other_calls.saturating_add(1);
        let name = String::from_str(alloc, self.name.as_str())?;
        let file = self.faults.tell_memory(fs::open(self.rt, name.as_str()))?;
        Ok(FileCache {
            rt: self.rt,
            name,
            file,
            len: self.len,
            reads: 0,
            other_calls: 0,
            faults: FaultCount::new(),
        })
    }

    fn absorb(&mut self, other: Self) {
        self.reads = self.reads.saturating_add(other.reads);
        self.faults.absorb(&other.faults);
    }

    ghost told_len = { λ cache image e. untold image e };

    ghost leaves_told = { λ cache image e. untold image e };

    ghost leaves_len = { λ cache c left. left };

    ghost counts_now = { λ cache t c le left. left };

    ghost only_now = { λ cache c yes left. left };

    ghost since_earlier = { λ cache s t c le left. left };
}
