//! The disk that holds the blocks, as a trait.
ghost use Rattle.std.specs.Prelude.{◌≡◌, ℕ, ◌+◌, ◌≤◌, List, Option, Some, length, take, drop, OnOk, IfOk, IfSome};
ghost use Rattle.blk_ptr.specs.Size.{largest_block};
ghost use Rattle.vdev_io.specs.Faults.{HasCause, HasIoCause, CountsFault, CountsIoFault, CountsOne, sum_of_counts};
ghost use Rattle.vdev_io.specs.Pool.{WritesOrRefuses};

use crate::fault::{Failed, IoFault};
use std::alloc::Global;

/// The disk that holds the blocks.
///
/// It has three counts: of the calls that failed, of the reads that were asked for, and of the writes and forks that were.
pub trait Pool: Sized + Send + Drop {
    /// Its length in bytes, which no call changes.
    ghost size: { Self → ℕ };

    /// The bytes that it holds, where they are told.
    ghost told: { Self → Option (List ℕ) };

    /// How many calls failed. It never falls.
    ghost faults: { Self → ℕ };

    /// How many reads were asked for. It never falls.
    ghost reads: { Self → ℕ };

    /// How many writes and forks were asked for, in all. It never falls.
    ghost other_calls: { Self → ℕ };

    /// The length in bytes.
    fn len(&self) -> u64
        ensures { result ≡ size self.now };

    /// Fills `buf` with the bytes from `offset` on. Whatever it answers, it counts as one read and leaves what is told as it was.
    /// It counts as one fault where it fails, and as none where it doesn't.
    fn read(&mut self, offset: u64, buf: &mut [u8]) -> Result<(), Failed>
        requires inside { offset + length buf.old ≤ size self.old }
        requires one_block { length buf.old ≤ largest_block }
        ensures bytes { OnOk result (IfSome (told self.old) (λ image. buf.new ≡ take (length buf.old) (drop offset image))) }
        ensures told { told self.new ≡ told self.old }
        ensures size { size self.new ≡ size self.old }
        ensures counted { CountsOne (reads self.old) (reads self.new) }
        ensures others { other_calls self.new ≡ other_calls self.old }
        ensures cause { HasCause (faults self.old) (faults self.new) result }
        ensures fault { CountsFault (faults self.old) (faults self.new) result };

    /// Writes `bytes` from `offset` on, and changes no other byte. After [`IoFault::NoMemory`] nothing changed, and after
    /// [`IoFault::Failed`] that range may hold any bytes. It counts as one fault after [`IoFault::Failed`], and else as none.
    fn write(&mut self, offset: u64, bytes: &[u8]) -> Result<(), IoFault>
        requires inside { offset + length bytes.now ≤ size self.old }
        ensures told { WritesOrRefuses offset bytes.now (told self.old) (told self.new) result }
        ensures size { size self.new ≡ size self.old }
        ensures reads { reads self.new ≡ reads self.old }
        ensures others { other_calls self.new ≡ sum_of_counts (other_calls self.old) 1 }
        ensures cause { HasIoCause (faults self.old) (faults self.new) result }
        ensures fault { CountsIoFault (faults self.old) (faults self.new) result };

    /// Another handle on the pool, for a caller of its own that reads: it has the same length and tells the same bytes, and its
    /// counts are 0. A write through it fails, or what it writes is its own: the pool keeps its bytes. To make it counts as one fault after [`IoFault::Failed`], and else as none.
    fn fork(&mut self, alloc: Global) -> Result<Self, IoFault>
        ensures fork { IfOk result (λ fork. (size fork ≡ size self.old) × (told fork ≡ told self.old) × (faults fork ≡ 0) × (reads fork ≡ 0) × (other_calls fork ≡ 0)) }
        ensures told { told self.new ≡ told self.old }
        ensures size { size self.new ≡ size self.old }
        ensures reads { reads self.new ≡ reads self.old }
        ensures others { other_calls self.new ≡ sum_of_counts (other_calls self.old) 1 }
        ensures cause { HasIoCause (faults self.old) (faults self.new) result }
        ensures fault { CountsIoFault (faults self.old) (faults self.new) result };

    /// Takes a fork back, and adds its counts of faults and reads. It takes no memory.
    fn absorb(&mut self, other: Self)
        ensures faults { faults self.new ≡ sum_of_counts (faults self.old) (faults other) }
        ensures reads { reads self.new ≡ sum_of_counts (reads self.old) (reads other) }
        ensures others { other_calls self.new ≡ other_calls self.old }
        ensures told { told self.new ≡ told self.old }
        ensures size { size self.new ≡ size self.old };

    /// What is told has the pool's length.
    ghost told_len: { (pool : Self) (image : List ℕ) → told pool ≡ Some image → length image ≡ size pool };
}
