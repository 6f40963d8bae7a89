//! The record of a disk's writes and flushes, for which the memory is taken beforehand.
ghost use Rattle.std.specs.Prelude.{◌≡◌, ◌+◌, ◌-◌, ◌*◌, ◌<◌, ◌≤◌, [], ◌∷◌, ◌++◌, false, fold, length, IfOk, vec_len, vec_capacity};
ghost use Rattle.blk_ptr.specs.Size.{sector};
ghost use Rattle.vdev_io.specs.Journal.{Recording, recorded_calls, recorded_len, touched_after};
ghost use Rattle.vdev_io.specs.SectorDisk.{Write, Flush, is_written, touches as touches_sector};

use blk_ptr::NoMemory;
use std::alloc::Global;
use std::marker::Model;

/// The bytes of a sector.
pub(crate) const SECTOR: usize = 512;

/// A call that was recorded. The bytes of the writes stand elsewhere, one write's after the other's.
#[derive(Clone, Copy, Debug)]
pub(crate) enum Recorded {
    Wrote(u64, usize),
    Flushed,
}

/// The record of a disk's writes and flushes.
#[derive(Debug, Drop)]
pub(crate) struct Journal {
    calls: Vec<Recorded>,
    bytes: Vec<u8>,
    left: u64,
    room: u64,
}

impl Model for Journal {
    ghost Value = { Recording };

    ghost view = { λ journal. record { calls = recorded_calls journal.calls.items journal.bytes.items; left = journal.left; room = journal.room } };

    ghost invariant = { λ journal. (recorded_len journal.calls.items ≡ vec_len journal.bytes) × (vec_len journal.calls + journal.left ≤ vec_capacity journal.calls) × (vec_len journal.bytes + journal.room ≤ vec_capacity journal.bytes) };
}

impl Journal {
    /// An empty record, with the memory for so many calls and so many bytes.
    pub(crate) fn new(alloc: Global, calls: u64, room: u64) -> Result<Journal, NoMemory>
        ensures { IfOk result (λ journal. journal ≡ record { calls = []; left = calls; room = room }) }
    {
        Ok(Journal {
            calls: Vec::with_capacity(alloc, calls as usize)?,
            bytes: Vec::with_capacity(alloc, room as usize)?,
            left: calls,
            room,
        })
    }

    /// For how many calls there is room yet.
    pub(crate) fn left(&self) -> u64
        ensures { result ≡ self.now.left }
    {
        self.left
    }

    /// For how many bytes there is room yet.
    pub(crate) fn room(&self) -> u64
        ensures { result ≡ self.now.room }
    {
        self.room
    }

    /// Records a write.
    pub(crate) fn write(&mut self, at: u64, bytes: &[u8])
        requires left { 0 < self.old.left }
        requires room { length bytes.now ≤ self.old.room }
        ensures { self.new ≡ record { calls = self.old.calls ++ Write at bytes.now ∷ []; left = self.old.left - 1; room = self.old.room - length bytes.now } }
    {
        self.calls.push(Recorded::Wrote(at, bytes.len())).unwrap();
        self.bytes.extend_from_slice(bytes).unwrap();
        self.left -= 1;
        self.room -= bytes.len() as u64;
    }

    /// Records a flush.
    pub(crate) fn flush(&mut self)
        requires { 0 < self.old.left }
        ensures { self.new ≡ record { calls = self.old.calls ++ Flush ∷ []; left = self.old.left - 1; room = self.old.room } }
    {
        self.calls.push(Recorded::Flushed).unwrap();
        self.left -= 1;
    }

    /// Whether sector `k`, which begins at `start`, was written since the last flush.
    pub(crate) fn has_written(&self, k: usize, start: usize) -> bool
        requires { start ≡ k * sector }
        ensures { result ≡ is_written self.now.calls k }
    {
        is_touched(&self.calls, start as u64)
    }
}

/// Whether the sector that begins at `start` was written since the last flush of these calls.
fn is_touched(calls: &[Recorded], start: u64) -> bool
    ensures { result ≡ fold (touched_after start) false calls.now }
{
    calls.iter().fold(false, |written, call| match call {
        Recorded::Wrote(at, len) => written || touches(start, *at, *len as u64),
        Recorded::Flushed => false,
    })
}

/// Whether a write of `len` bytes at `at` has a byte in the sector that begins at `start`.
fn touches(start: u64, at: u64, len: u64) -> bool
    ensures { result ≡ touches_sector start at len }
{
    0 < len && (at <= start || at - start < 512) && (start < at || start - at < len)
}
