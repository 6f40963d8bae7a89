//! The cache device as a trait: its calls, and what a crash may leave of it.
ghost use Rattle.std.specs.Prelude.{◌≡◌, ℕ, ◌+◌, ◌≤◌, List, Option, None, Some, Bool, false, length, take, drop, IsTrue, IfOk, OnOk, OnErr, IfSome};
ghost use Rattle.vdev_io.specs.Device.{IsWritten, LeavesOnly, LeavesNoMore, LeavesSame, FollowsBySector, Elapses, ElapsesTo, LeavesNothingNew};
ghost use Rattle.vdev_io.specs.Untold.{untold};
ghost use Rattle.vdev_io.specs.Faults.{CountsFault, CountsIoFault, CountsOne, HasCause, HasIoCause, sum_of_counts};

use crate::fault::{Failed, IoFault};
use std::alloc::Global;

/// The cache device, on which the L2ARC is. Nothing that is read from it is trusted.
///
/// What it holds is its image. Until a flush, a crash may leave another one. A disk of sectors says more of that: each
/// sector that a write touches is old or new until a flush, each by itself, and everything else is what a read gives.
///
/// It has three counts: of the calls that failed, of the reads that were asked for, and of the writes, flushes and forks that were.
/// A call counts as one fault where it fails, and as none where it doesn't.
pub trait CacheDev: Sized + Send + Drop {
    /// Its length in bytes, which no call changes.
    ghost size: { Self → ℕ };

    /// The image that a read gives, where it is told.
    ghost told: { Self → Option (List ℕ) };

    /// The images that a crash now may leave.
    ghost may_leave: { Self → List ℕ → Type 0 };

    /// The moment, by a clock that never falls.
    ghost moment: { Self → ℕ };

    /// The images that a crash at that moment or a later one may have left.
    ghost left_since: { Self → ℕ → List ℕ → Type 0 };

    /// Whether it is a disk of sectors, which no call changes.
    ghost has_sectors: { Self → Bool };

    /// How many calls failed. It never falls.
    ghost faults: { Self → ℕ };

    /// How many reads were asked for. It never falls.
    ghost reads: { Self → ℕ };

    /// How many writes, flushes and forks were asked for, in all. It never falls.
    ghost other_calls: { Self → ℕ };

    /// The length in bytes.
    fn len(&self) -> u64
        ensures { result ≡ size self.now };

    /// Fills `buf` with the bytes from `offset` on. Whatever it answers, it counts as one read.
    fn read(&mut self, offset: u64, buf: &mut [u8]) -> Result<(), Failed>
        requires inside { offset + length buf.old ≤ size self.old }
        ensures bytes { OnOk result (IfSome (told self.old) (λ image. buf.new ≡ take (length buf.old) (drop offset image))) }
        ensures size { size self.new ≡ size self.old }
        ensures kind { has_sectors self.new ≡ has_sectors self.old }
        ensures told { told self.new ≡ told self.old }
        ensures crash { LeavesSame (may_leave self.old) (may_leave self.new) }
        ensures time { LeavesNothingNew (moment self.old) (moment self.new) (left_since self.old) (left_since self.new) }
        ensures counted { CountsOne (reads self.old) (reads self.new) }
        ensures others { other_calls self.new ≡ other_calls self.old }
        ensures cause { HasCause (faults self.old) (faults self.new) result }
        ensures fault { CountsFault (faults self.old) (faults self.new) result };

    /// Writes `bytes` from `offset` on. After [`Failed`] that range may hold any bytes.
    fn write(&mut self, offset: u64, bytes: &[u8]) -> Result<(), Failed>
        requires inside { offset + length bytes.now ≤ size self.old }
        ensures told { IsWritten offset bytes.now (told self.old) (told self.new) result }
        ensures size { size self.new ≡ size self.old }
        ensures kind { has_sectors self.new ≡ has_sectors self.old }
        ensures crash { IsTrue (has_sectors self.old) → FollowsBySector offset bytes.now (may_leave self.old) (may_leave self.new) }
        ensures time { Elapses (moment self.old) (moment self.new) (left_since self.old) (left_since self.new) }
        ensures since { IsTrue (has_sectors self.old) → ElapsesTo (moment self.old) (left_since self.old) (left_since self.new) (may_leave self.new) }
        ensures reads { reads self.new ≡ reads self.old }
        ensures others { other_calls self.new ≡ sum_of_counts (other_calls self.old) 1 }
        ensures cause { HasCause (faults self.old) (faults self.new) result }
        ensures fault { CountsFault (faults self.old) (faults self.new) result };

    /// Makes what was written last: after it a crash leaves what a read gives.
    fn flush(&mut self) -> Result<(), Failed>
        ensures durable { OnOk result (IfSome (told self.old) (λ image. LeavesOnly image (may_leave self.new))) }
        ensures failed { OnErr result (LeavesSame (may_leave self.old) (may_leave self.new)) }
        ensures size { size self.new ≡ size self.old }
        ensures kind { has_sectors self.new ≡ has_sectors self.old }
        ensures told { told self.new ≡ told self.old }
        ensures crash { LeavesNoMore (may_leave self.old) (may_leave self.new) }
        ensures time { Elapses (moment self.old) (moment self.new) (left_since self.old) (left_since self.new) }
        ensures since { IsTrue (has_sectors self.old) → ElapsesTo (moment self.old) (left_since self.old) (left_since self.new) (may_leave self.new) }
        ensures reads { reads self.new ≡ reads self.old }
        ensures others { other_calls self.new ≡ sum_of_counts (other_calls self.old) 1 }
        ensures cause { HasCause (faults self.old) (faults self.new) result }
        ensures fault { CountsFault (faults self.old) (faults self.new) result };

    /// Another handle on the device for a reader of its own: of the same length, and its counts are 0. It tells nothing. A write
    /// through it fails, or what it writes is its own: the device keeps its image.
    /// To make it counts as one fault after [`IoFault::Failed`], and else as none.
    fn fork(&mut self, alloc: Global) -> Result<Self, IoFault>
        ensures fork { IfOk result (λ fork. (size fork ≡ size self.old) × (told fork ≡ None) × (faults fork ≡ 0) × (reads fork ≡ 0) × (other_calls fork ≡ 0)) }
        ensures size { size self.new ≡ size self.old }
        ensures kind { has_sectors self.new ≡ has_sectors self.old }
        ensures told { told self.new ≡ told self.old }
        ensures crash { LeavesSame (may_leave self.old) (may_leave self.new) }
        ensures time { LeavesNothingNew (moment self.old) (moment self.new) (left_since self.old) (left_since self.new) }
        ensures reads { reads self.new ≡ reads self.old }
        ensures others { other_calls self.new ≡ sum_of_counts (other_calls self.old) 1 }
        ensures cause { HasIoCause (faults self.old) (faults self.new) result }
        ensures fault { CountsIoFault (faults self.old) (faults self.new) result };

    /// Takes a fork back, and adds its counts of faults and reads. It takes no memory.
    fn absorb(&mut self, other: Self)
        ensures faults { faults self.new ≡ sum_of_counts (faults self.old) (faults other) }
        ensures reads { reads self.new ≡ sum_of_counts (reads self.old) (reads other) }
        ensures others { other_calls self.new ≡ other_calls self.old }
        ensures size { size self.new ≡ size self.old }
        ensures kind { has_sectors self.new ≡ has_sectors self.old }
        ensures told { told self.new ≡ told self.old }
        ensures crash { LeavesSame (may_leave self.old) (may_leave self.new) }
        ensures time { LeavesNothingNew (moment self.old) (moment self.new) (left_since self.old) (left_since self.new) };

    /// An image that is told has the device's length.
    ghost told_len: { (dev : Self) (image : List ℕ) → told dev ≡ Some image → length image ≡ size dev };

    /// Of the images that a crash now may leave, one is what reads give.
    ghost leaves_told: { (dev : Self) (image : List ℕ) → told dev ≡ Some image → may_leave dev image };

    /// A crash leaves an image of the device's length.
    ghost leaves_len: { (dev : Self) (c : List ℕ) → may_leave dev c → length c ≡ size dev };

    /// This moment is one of those since an earlier one.
    ghost counts_now: { (dev : Self) (t : ℕ) (c : List ℕ) → t ≤ moment dev → may_leave dev c → left_since dev t c };

    /// Of a disk of sectors there is no other moment since this one.
    ghost only_now: { (dev : Self) (c : List ℕ) → IsTrue (has_sectors dev) → left_since dev (moment dev) c → may_leave dev c };

    /// What a crash since a moment may have left, one since an earlier moment may have left.
    ghost since_earlier: { (dev : Self) (s t : ℕ) (c : List ℕ) → s ≤ t → left_since dev t c → left_since dev s c };
}

/// No device at all: one of length 0, which never fails.
#[derive(Debug, Drop)]
pub struct NoCache {
    reads: u64,
    other_calls: u64,
}

impl NoCache {
    /// No device, of which nothing was asked yet.
    pub fn new() -> NoCache
        ensures { (result.reads ≡ 0) × (result.other_calls ≡ 0) }
    {
        NoCache {
            reads: 0,
            other_calls: 0,
        }
    }
}

impl CacheDev for NoCache {
    ghost size = { λ _. 0 };

    ghost told = { λ _. None };

    ghost may_leave = { λ _ c. length c ≡ 0 };

    ghost moment = { λ _. 0 };

    ghost left_since = { λ _ _ c. length c ≡ 0 };

    ghost has_sectors = { λ _. false };

    ghost faults = { λ _. 0 };

    ghost reads = { λ dev. dev.reads };

    ghost other_calls = { λ dev. dev.other_calls };

    fn len(&self) -> u64 {
        0
    }

    fn read(&mut self, _offset: u64, _buf: &mut [u8]) -> Result<(), Failed> {
        self.reads = self.reads.saturating_add(1);
        Ok(())
    }

    fn write(&mut self, _offset: u64, _bytes: &[u8]) -> Result<(), Failed> {
        self.other_calls = self.other_calls.saturating_add(1);
        Ok(())
    }

    fn flush(&mut self) -> Result<(), Failed> {
        self.other_calls = self.other_calls.saturating_add(1);
        Ok(())
    }

    fn fork(&mut self, _alloc: Global) -> Result<NoCache, IoFault> {
        self.other_calls = self.other_calls.saturating_add(1);
        Ok(NoCache::new())
    }

    fn absorb(&mut self, other: NoCache) {
        self.reads = self.reads.saturating_add(other.reads);
    }

    ghost told_len = { λ dev image e. untold image e };

    ghost leaves_told = { λ dev image e. untold image e };

    ghost leaves_len = { λ dev c e. e };

    ghost counts_now = { λ dev t c le e. e };

    ghost only_now = { λ dev c yes e. e };

    ghost since_earlier = { λ dev s t c le e. e };
}
