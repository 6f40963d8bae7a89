//! A disk of sectors in memory, which can be stopped and torn by a crash.
ghost use Rattle.std.specs.Prelude.{◌≡◌, ◌+◌, ◌-◌, ◌≤◌, ◌*◌, ◌↔◌, ◌||◌, ◌∷◌, ◌++◌, [], true, false, drop, length, nat_lt, slice_index_or, take, if◌then◌else◌, IfOk, OnOk, OnErr, IfSome, IsErrOf, IsTrue, MatchResult, is_err};
ghost use Rattle.blk_ptr.specs.Size.{sector};
ghost use Rattle.vdev_io.specs.Device.{put, IsWritten, LeavesOnly, LeavesNoMore, LeavesSame, FollowsBySector, Elapses, ElapsesTo, LeavesNothingNew};
ghost use Rattle.vdev_io.specs.Faults.{CountsFault, CountsIoFault, CountsOne, HasCause, HasIoCause, sum_of_counts};
ghost use Rattle.vdev_io.specs.SectorDisk.{Disk, Flush, HasFlags, IsCrash, IsCrashBy, IsSameBut, IsSameSector, KeepsImages, Write, DiskLeftSince, DiskMayLeave, images, is_stopped, told_image};
ghost use Rattle.vdev_io.specs.DiskLaws.{told_has_len, told_is_left, counts_now, only_now, since_earlier};

use super::journal::{Journal, SECTOR};
use crate::device::CacheDev;
use crate::fault::{Failed, IoFault};
use blk_ptr::NoMemory;
use std::alloc::Global;
use std::marker::Model;

/// A disk of sectors in memory: until a flush is answered Ok, each sector that was written may be old or new after a crash.
///
/// It takes so many writes and flushes and no more, as if the power went then: after them every call fails. It also keeps the
/// bytes of all writes, and fails every call from the first write on for which it has no room.
#[derive(Debug, Drop)]
pub struct SectorDisk {
    opening: Vec<u8>,
    flushed: Vec<u8>,
    now: Vec<u8>,
    journal: Journal,
    tells: bool,
    full: bool,
    faults: u64,
    reads: u64,
    other_calls: u64,
}

impl Model for SectorDisk {
    ghost Value = { Disk };

    ghost view = { λ disk. record { opening = disk.opening.items; calls = disk.journal.calls; tells = disk.tells; left = disk.journal.left; room = disk.journal.room; full = disk.full; faults = disk.faults; reads = disk.reads; other_calls = disk.other_calls } };

    ghost invariant = { λ disk. KeepsImages disk.opening.items disk.journal.calls disk.flushed.items disk.now.items };
}

impl SectorDisk {
    /// A disk of these bytes, all of them flushed, which takes `stop_after` writes and flushes, and `room` bytes in its writes.
    /// The memory for a record of them is taken now.
    pub fn new(
        alloc: Global,
        bytes: Vec<u8>,
        stop_after: u64,
        room: u64,
    ) -> Result<SectorDisk, NoMemory>
        ensures { IfOk result (λ disk. disk ≡ record { opening = bytes.items; calls = []; tells = true; left = stop_after; room = room; full = false; faults = 0; reads = 0; other_calls = 0 }) }
    {
        let journal = Journal::new(alloc, stop_after, room)?;
        let flushed = bytes.to_vec(alloc)?;
        let now = bytes.to_vec(alloc)?;
        Ok(SectorDisk {
            opening: bytes,
            flushed,
            now,
            journal,
            tells: true,
            full: false,
            faults: 0,
            reads: 0,
            other_calls: 0,
        })
    }

    /// The image that a crash now leaves by these flags. Each sector that was written since the last good flush has one, by
    /// rising place: true takes its new content, and false or a missing flag the old one.
    pub fn crash(self, kept: &[bool]) -> Vec<u8>
        ensures flags { IsCrashBy (images self) self.calls kept.now result.items }
        ensures allowed { IsCrash (images self) result.items }
    {
        let SectorDisk {
            opening: _,
            flushed,
            mut now,
            journal,
            tells: _,
            full: _,
            faults: _,
            reads: _,
            other_calls: _,
        } = self;
        put_back(&mut now, &flushed, &journal, kept);
        now
    }

    /// The same disk, which tells nothing any more.
    fn silent(mut self) -> SectorDisk
        ensures { result ≡ record self { tells = false } }
    {
        self.tells = false;
        self
    }

    /// Lets a call begin, or counts its failure where the disk has stopped.
    fn begin(&mut self) -> Result<(), Failed>
        ensures stopped { is_err result ≡ is_stopped self.old }
        ensures begun { MatchResult result (λ _. self.new ≡ self.old) (λ _. self.new ≡ record self.old { faults = sum_of_counts self.old.faults 1 }) }
        ensures cause { HasCause self.old.faults self.new.faults result }
        ensures fault { CountsFault self.old.faults self.new.faults result }
    {
        if self.full || self.journal.left() == 0 {
            self.faults = self.faults.saturating_add(1);
            return Err(Failed);
        }
        Ok(())
    }

    /// Counts a write, a flush or a fork, and lets it begin as any call.
    fn begin_other(&mut self) -> Result<(), Failed>
        ensures stopped { is_err result ≡ is_stopped self.old }
        ensures begun { MatchResult result
            (λ _. self.new ≡ record self.old { other_calls = sum_of_counts self.old.other_calls 1 })
            (λ _. self.new ≡ record self.old { faults = sum_of_counts self.old.faults 1; other_calls = sum_of_counts self.old.other_calls 1 }) }
        ensures cause { HasCause self.old.faults self.new.faults result }
        ensures fault { CountsFault self.old.faults self.new.faults result }
    {
        self.other_calls = self.other_calls.saturating_add(1);
        self.begin()
    }
}

/// Writes bytes into an image.
fn put_bytes(image: &mut Vec<u8>, at: usize, bytes: &[u8])
    requires { at + length bytes.now ≤ length image.old.items }
    ensures { image.new.items ≡ put at bytes.now image.old.items }
{
    image[at..at + bytes.len()].copy_from_slice(bytes);
}

/// Puts the old content of each sector back that was written since the last flush and whose flag isn't true.
fn put_back(now: &mut Vec<u8>, flushed: &[u8], journal: &Journal, kept: &[bool])
    requires { length flushed.now ≡ length now.old.items }
    ensures { IsCrashBy record { flushed = flushed.now; now = now.old.items } journal.now.calls kept.now now.new.items }
{
    let mut flags = 0;
    for k in 0..now.len().div_ceil(SECTOR) {
        let start = k * SECTOR;
        let is_written = journal.has_written(k, start);
        let is_new = !is_written || flag_at(kept, flags);
        if is_written {
            flags += 1;
        }
        settle(now, flushed, k, start, is_new);
    }
}

/// The flag of this number; one that is missing is false.
fn flag_at(kept: &[bool], number: usize) -> bool
    ensures { result ≡ slice_index_or kept.now number false }
{
    number < kept.len() && kept[number]
}

/// Leaves sector `k`, which begins at `start`, as it is, or puts its old content back.
fn settle(now: &mut Vec<u8>, flushed: &[u8], k: usize, start: usize, is_new: bool)
    requires len { length flushed.now ≡ length now.old.items }
    requires start { start ≡ k * sector }
    requires inside { start ≤ length now.old.items }
    ensures len { length now.new.items ≡ length now.old.items }
    ensures sector { IsSameSector k now.new.items (if is_new then now.old.items else flushed.now) }
    ensures others { IsSameBut k now.old.items now.new.items }
{
    if !is_new {
        let end = start + SECTOR.min(now.len() - start);
        put_bytes(now, start, &flushed[start..end]);
    }
}

/// A law of the disk of sectors: each image that its meaning lets a crash leave is the one that some flags say.
pub fn every_crash_has_its_flags()
    ensures { HasFlags }
{}

impl CacheDev for SectorDisk {
    ghost size = { λ disk. length (images disk).now };

    ghost told = { λ disk. told_image disk };

    ghost may_leave = { λ disk c. DiskMayLeave disk c };

    ghost moment = { λ disk. length disk.calls };

    ghost left_since = { λ disk t c. DiskLeftSince disk t c };

    ghost has_sectors = { λ _. true };

    ghost faults = { λ disk. disk.faults };

    ghost reads = { λ disk. disk.reads };

    ghost other_calls = { λ disk. disk.other_calls };

    fn len(&self) -> u64 {
        self.now.len() as u64
    }

    fn read(&mut self, offset: u64, buf: &mut [u8]) -> Result<(), Failed>
        requires inside { offset + length buf.old ≤ length (images self.old).now }
        ensures bytes { OnOk result (buf.new ≡ take (length buf.old) (drop offset (images self.old).now)) }
        ensures told { told_image self.new ≡ told_image self.old }
        ensures size { length (images self.new).now ≡ length (images self.old).now }
        ensures crash { LeavesSame (DiskMayLeave self.old) (DiskMayLeave self.new) }
        ensures time { LeavesNothingNew (length self.old.calls) (length self.new.calls) (DiskLeftSince self.old) (DiskLeftSince self.new) }
        ensures cause { HasCause self.old.faults self.new.faults result }
        ensures fault { CountsFault self.old.faults self.new.faults result }
        ensures stopped { is_err result ≡ is_stopped self.old }
        ensures counted { CountsOne self.old.reads self.new.reads }
        ensures calls { MatchResult result
            (λ _. self.new ≡ record self.old { reads = sum_of_counts self.old.reads 1 })
            (λ _. self.new ≡ record self.old { reads = sum_of_counts self.old.reads 1; faults = sum_of_counts self.old.faults 1 }) }
    {
        self.reads = self.reads.saturating_add(1);
        self.begin()?;
        let at = offset as usize;
        buf.copy_from_slice(&self.now[at..at + buf.len()]);
        Ok(())
    }

    fn write(&mut self, offset: u64, bytes: &[u8]) -> Result<(), Failed>
        requires inside { offset + length bytes.now ≤ length (images self.old).now }
        ensures told { IsWritten offset bytes.now (told_image self.old) (told_image self.new) result }
        ensures size { length (images self.new).now ≡ length (images self.old).now }
        ensures crash { FollowsBySector offset bytes.now (DiskMayLeave self.old) (DiskMayLeave self.new) }
        ensures time { Elapses (length self.old.calls) (length self.new.calls) (DiskLeftSince self.old) (DiskLeftSince self.new) }
        ensures since { ElapsesTo (length self.old.calls) (DiskLeftSince self.old) (DiskLeftSince self.new) (DiskMayLeave self.new) }
        ensures cause { HasCause self.old.faults self.new.faults result }
        ensures fault { CountsFault self.old.faults self.new.faults result }
        ensures stopped { is_err result ≡ (is_stopped self.old || nat_lt self.old.room (length bytes.now)) }
        ensures recorded { OnOk result (self.new ≡ record self.old { calls = self.old.calls ++ Write offset bytes.now ∷ []; left = self.old.left - 1; room = self.old.room - length bytes.now; other_calls = sum_of_counts self.old.other_calls 1 }) }
        ensures failed { OnErr result (self.new ≡ record self.old { full = self.new.full; faults = sum_of_counts self.old.faults 1; other_calls = sum_of_counts self.old.other_calls 1 }) }
        ensures full { OnErr result (is_stopped self.new ≡ true) }
    {
        self.begin_other()?;
        if self.journal.room() < bytes.len() as u64 {
            self.full = true;
            self.faults = self.faults.saturating_add(1);
            return Err(Failed);
        }
        put_bytes(&mut self.now, offset as usize, bytes);
        self.journal.write(offset, bytes);
        Ok(())
    }

    fn flush(&mut self) -> Result<(), Failed>
        ensures durable { OnOk result (LeavesOnly (images self.old).now (DiskMayLeave self.new)) }
        ensures failed { OnErr result (LeavesSame (DiskMayLeave self.old) (DiskMayLeave self.new)) }
        ensures told { told_image self.new ≡ told_image self.old }
        ensures size { length (images self.new).now ≡ length (images self.old).now }
        ensures crash { LeavesNoMore (DiskMayLeave self.old) (DiskMayLeave self.new) }
        ensures time { Elapses (length self.old.calls) (length self.new.calls) (DiskLeftSince self.old) (DiskLeftSince self.new) }
        ensures since { ElapsesTo (length self.old.calls) (DiskLeftSince self.old) (DiskLeftSince self.new) (DiskMayLeave self.new) }
        ensures cause { HasCause self.old.faults self.new.faults result }
        ensures fault { CountsFault self.old.faults self.new.faults result }
        ensures stopped { is_err result ≡ is_stopped self.old }
        ensures recorded { MatchResult result
            (λ _. self.new ≡ record self.old { calls = self.old.calls ++ Flush ∷ []; left = self.old.left - 1; other_calls = sum_of_counts self.old.other_calls 1 })
            (λ _. self.new ≡ record self.old { faults = sum_of_counts self.old.faults 1; other_calls = sum_of_counts self.old.other_calls 1 }) }
    {
        self.begin_other()?;
        self.flushed.copy_from_slice(&self.now);
        self.journal.flush();
        Ok(())
    }

    fn fork(&mut self, alloc: Global) -> Result<SectorDisk, IoFault>
        ensures fork { IfOk result (λ fork. fork ≡ record { opening = (images self.old).now; calls = []; tells = false; left = self.old.left; room = self.old.room; full = false; faults = 0; reads = 0; other_calls = 0 }) }
        ensures told { told_image self.new ≡ told_image self.old }
        ensures size { length (images self.new).now ≡ length (images self.old).now }
        ensures crash { LeavesSame (DiskMayLeave self.old) (DiskMayLeave self.new) }
        ensures time { LeavesNothingNew (length self.old.calls) (length self.new.calls) (DiskLeftSince self.old) (DiskLeftSince self.new) }
        ensures cause { HasIoCause self.old.faults self.new.faults result }
        ensures fault { CountsIoFault self.old.faults self.new.faults result }
        ensures reads { self.new.reads ≡ self.old.reads }
        ensures others { self.new.other_calls ≡ sum_of_counts self.old.other_calls 1 }
        ensures stopped { IsErrOf result IoFault.Failed ↔ IsTrue (is_stopped self.old) }
        ensures only { OnOk result (self.new ≡ record self.old { other_calls = sum_of_counts self.old.other_calls 1 }) }
    {
        self.begin_other()?;
        let bytes = self.now.to_vec(alloc)?;
        match SectorDisk::new(alloc, bytes, self.journal.left(), self.journal.room()) {
            Ok(fork) => Ok(fork.silent()),
            Err(NoMemory) => Err(IoFault::NoMemory),
        }
    }

    fn absorb(&mut self, other: SectorDisk)
        ensures faults { self.new ≡ record self.old { faults = sum_of_counts self.old.faults other.faults; reads = sum_of_counts self.old.reads other.reads } }
        ensures told { told_image self.new ≡ told_image self.old }
        ensures size { length (images self.new).now ≡ length (images self.old).now }
        ensures crash { LeavesSame (DiskMayLeave self.old) (DiskMayLeave self.new) }
        ensures time { LeavesNothingNew (length self.old.calls) (length self.new.calls) (DiskLeftSince self.old) (DiskLeftSince self.new) }
    {
        self.faults = self.faults.saturating_add(other.faults);
        self.reads = self.reads.saturating_add(other.reads);
    }

    ghost told_len = { λ disk image told. told_has_len disk image told };

    ghost leaves_told = { λ disk image told. told_is_left disk image told };

    ghost leaves_len = { λ disk c crash. crash.len };

    ghost counts_now = { λ disk t c le crash. counts_now disk t c le crash };

    ghost only_now = { λ disk c yes left. only_now disk c left };

    ghost since_earlier = { λ disk s t c le left. since_earlier disk s t c le left };
}
