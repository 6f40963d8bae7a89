//! The cache device: its writes, and what every crash leaves of it.
ghost use Rattle.std.specs.Prelude.{◌≡◌, ℕ, List, ◌+◌, ◌<◌, ◌≤◌, ◌++◌, [], ◌∷◌, length, map, true, false, vec_len, vec_capacity, OnOk, OnErr, Ok, Some, IsErrOf, IfSome, MatchResult};
ghost use Rattle.vdev_io.specs.Calls.{Write};
ghost use Rattle.vdev_io.specs.Device.{put, IsWritten};
ghost use Rattle.blk_ptr.specs.Ptr.{sha256_of};
ghost use Rattle.l2_dev.specs.Steps.{Wrote, HeaderWritten};
ghost use Rattle.l2_dev.specs.PromiseLaws.{IsHeaderFrom};
ghost use Rattle.l2_dev.specs.Asking.{AsksFor, LogAsks};
ghost use Rattle.l2_dev.specs.Calls.{HasDevCause, LogWritten};
ghost use Rattle.l2_dev.specs.Planned.{HasPushed, IsReserved};
ghost use Rattle.std.specs.List.{filter};
ghost use Rattle.blk_ptr.specs.Key.{IsWellFormed};
ghost use Rattle.l2_log.specs.Rules.{log_len, most_with, is_there};
ghost use Rattle.l2_ring.specs.Ring.{IsRoom, IsPlanFor, last_lap};
ghost use Rattle.l2_ring.specs.Stays.{falls, live_of};
ghost use Rattle.l2_dev.specs.declared.fault.DevErr.TheVariants as err;

use crate::cursor::Cursor;
use crate::fault::DevErr;
use crate::write::{write_at, write_header, write_through};
use blk_ptr::{Block, Key};
use l2_log::{LOG_LEN, LogEntry, LogPtr};
use l2_ring::{Live, Ring};
use std::alloc::Global;
use vdev_io::CacheDev;

/// A cache device that was started (`l2arc_dev_t` of OpenZFS's `arc_impl.h`).
#[derive(Drop)]
pub struct L2Dev<D: CacheDev> {
    pub(crate) dev: D,
    pub(crate) cursor: Cursor,
    pub(crate) alloc: Global,
}

/// Writes the bytes of an entry at the hand, and adds it to what is pending.
fn put_block<D: CacheDev>(
    dev: &mut D,
    cursor: &mut Cursor,
    entry: LogEntry,
    bytes: &[u8],
) -> Result<(), DevErr>
    requires inside { entry.place + length bytes.now ≤ D.size dev.old }
    requires ready { cursor.old.ready ≡ true }
    requires place { entry.place ≡ cursor.old.ring.hand }
    requires digest { is_there entry.digest ≡ true }
    requires room { cursor.old.ring.hand + entry.key.size + log_len ≤ cursor.old.ring.evict }
    requires few { length cursor.old.pending < most_with true }
    ensures wrote { Wrote D.told D.has_sectors D.may_leave D.moment D.left_since entry.place bytes.now dev.old dev.new }
    ensures told { OnOk result (IfSome (D.told dev.old) (λ image. D.told dev.new ≡ Some (put entry.place bytes.now image))) }
    ensures written { IsWritten entry.place bytes.now (D.told dev.old) (D.told dev.new) result }
    ensures pushed { MatchResult result (λ _. HasPushed entry cursor.old cursor.new) (λ _. cursor.new ≡ cursor.old) }
    ensures size { D.size dev.new ≡ D.size dev.old }
    ensures cause { HasDevCause (D.faults dev.old) (D.faults dev.new) result }
    ensures calls { AsksFor D.CacheDev (Write entry.place bytes.now ∷ []) (Write entry.place bytes.now ∷ []) dev.old dev.new result }
{
    write_at(dev, entry.place, bytes)?;
    cursor.push(entry)?;
    Ok(())
}

/// Writes the log block of the pending entries behind their blocks and flushes. Answers the pointer to it.
fn write_log<D: CacheDev>(
    alloc: Global,
    dev: &mut D,
    cursor: &mut Cursor,
    place: u64,
) -> Result<LogPtr, DevErr>
    requires at { place ≡ cursor.old.ring.hand }
    requires some { 0 < length cursor.old.pending }
    requires inside { cursor.old.ring.hand + log_len ≤ D.size dev.old }
    ensures cursor { IsReserved cursor.old cursor.new }
    ensures room { OnOk result (length cursor.old.pending ≤ cursor.new.ring.spare) }
    ensures logged { LogWritten D.told D.has_sectors D.may_leave D.moment D.left_since cursor.old dev.old dev.new result }
    ensures size { D.size dev.new ≡ D.size dev.old }
    ensures cause { HasDevCause (D.faults dev.old) (D.faults dev.new) result }
    ensures calls { (¬ IsErrOf result err.NoMemory) → LogAsks D.CacheDev cursor.old dev.old dev.new result }
{
    let mut bytes = vec![in alloc; 0u8; LOG_LEN]?;
    cursor.reserve()?;
    let ptr = cursor.write_block(alloc, &mut bytes);
    write_through(dev, place, &bytes)?;
    Ok(ptr)
}

impl<D: CacheDev> L2Dev<D> {
    ghost use Rattle.l2_dev.specs.Asking.{BeginAsks, CommitAsks};
    ghost use Rattle.l2_dev.specs.Calls.{BeginKeeps, PutKeeps, CommitKeeps, HasCommitWritten, IsCommitLeft};
    ghost use Rattle.l2_dev.specs.Cursor.{IsCursor};
    ghost use Rattle.l2_dev.specs.Planned.{HasPlanned, HasSettled, IsForgotten};
    ghost use Rattle.l2_dev.specs.Promise.{Promise, KeepsPromise};
    ghost use Rattle.l2_dev.specs.Lending.{LendsDevice};
    ghost use Rattle.std.specs.Borrow.{sem};

    /// Takes the plan for `n` bytes, writes the header with it and flushes. What the plan drops goes to the end of
    /// `dropped` (`l2arc_evict` of OpenZFS's `arc.c`). After [`DevErr::NoMemory`] nothing has changed; a [`DevErr::DevFault`] comes
    /// when the plan is taken already.
    pub fn begin(&mut self, n: u64, dropped: &mut Vec<Live>) -> Result<(), DevErr>
        requires whole { self.old.cursor.ring.end ≤ D.size self.old.dev }
        requires room { IsRoom self.old.cursor.ring n }
        requires none { self.old.cursor.pending ≡ [] }
        ensures size { D.size self.new.dev ≡ D.size self.old.dev }
        ensures cause { HasDevCause (D.faults self.old.dev) (D.faults self.new.dev) result }
        ensures calls { (¬ IsErrOf result err.NoMemory) → BeginAsks D.CacheDev self.new.cursor self.old.dev self.new.dev result }
        ensures refused { IsErrOf result err.NoMemory → (self.new.dev ≡ self.old.dev) × (self.new.cursor ≡ self.old.cursor) × (dropped.new.items ≡ dropped.old.items) }
        ensures planned { (¬ IsErrOf result err.NoMemory) → HasPlanned n self.old.cursor self.new.cursor }
        ensures dropped { (¬ IsErrOf result err.NoMemory) → (plan : _) × IsPlanFor self.old.cursor.ring n plan × (dropped.new.items ≡ dropped.old.items ++ map live_of (filter (falls plan) self.old.cursor.ring.live)) }
        ensures ready { MatchResult result (λ _. self.new.cursor.ready ≡ true) (λ e. (e ≡ err.DevFault) → self.new.cursor.ready ≡ false) }
        ensures written { (¬ IsErrOf result err.NoMemory) → (header : _) × IsHeaderFrom self.new.cursor header × HeaderWritten D.told D.has_sectors D.may_leave D.moment D.left_since header self.old.dev self.new.dev result }
        ensures crash { (p : Promise) → KeepsPromise D.told D.has_sectors D.may_leave self.old.dev self.old.cursor p → self.new.cursor.ring.lap < last_lap
            → BeginKeeps D.told D.has_sectors D.may_leave D.moment D.left_since self.old.dev self.new.dev self.old.cursor self.new.cursor p result }
    {
        let plan = self.cursor.room(n);
        dropped.reserve(self.cursor.dropped_by(plan))?;
        self.cursor.take(plan, dropped);
        let header = self.cursor.header();
        write_header(&mut self.dev, &header)?;
        self.cursor.open();
        Ok(())
    }

    /// Writes the block's bytes at the hand, and answers their place (`l2arc_write_buffers` and `l2arc_log_blk_insert` of OpenZFS's
    /// `arc.c`). After an error nothing is pending, and the hand is as after the last commit, or after a begin since.
    pub fn put(&mut self, key: Key, block: &Block) -> Result<u64, DevErr>
        requires whole { self.old.cursor.ring.end ≤ D.size self.old.dev }
        requires formed { IsWellFormed key }
        requires sized { length block.now ≡ key.size }
        requires ready { self.old.cursor.ready ≡ true }
        requires room { self.old.cursor.ring.hand + key.size + log_len ≤ self.old.cursor.ring.evict }
        requires few { length self.old.cursor.pending < most_with true }
        ensures size { D.size self.new.dev ≡ D.size self.old.dev }
        ensures cause { HasDevCause (D.faults self.old.dev) (D.faults self.new.dev) result }
        ensures calls { AsksFor D.CacheDev (Write self.old.cursor.ring.hand block.now ∷ []) (Write self.old.cursor.ring.hand block.now ∷ []) self.old.dev self.new.dev result }
        ensures place { MatchResult result (λ place. place ≡ self.old.cursor.ring.hand) (λ _. IsForgotten self.old.cursor self.new.cursor) }
        ensures written { IsWritten self.old.cursor.ring.hand block.now (D.told self.old.dev) (D.told self.new.dev) result }
        ensures pending { OnOk result ((entry : _) × (entry.key ≡ key) × (entry.place ≡ self.old.cursor.ring.hand) × (entry.digest ≡ Some (sha256_of block.now)) × HasPushed entry self.old.cursor self.new.cursor) }
        ensures crash { (p : Promise) → KeepsPromise D.told D.has_sectors D.may_leave self.old.dev self.old.cursor p
            → PutKeeps D.told D.has_sectors D.may_leave D.moment D.left_since self.old.dev self.new.dev self.old.cursor self.new.cursor p key block.now result }
    {
        let place = self.cursor.ring().hand();
        let entry = LogEntry {
            key,
            place,
            digest: Some(block.digest()),
        };
        if let Err(fault) = put_block(&mut self.dev, &mut self.cursor, entry, block.bytes()) {
            self.cursor.forget();
            return Err(fault);
        }
        Ok(place)
    }

    /// Writes the log block of the pending entries behind their blocks, flushes, writes the header and flushes
    /// (`l2arc_log_blk_commit` and `l2arc_dev_hdr_update` of OpenZFS's `arc.c`). At Ok they are live. After an error nothing is
    /// pending, and the hand is as after the last commit, or after a begin since.
    pub fn commit(&mut self) -> Result<(), DevErr>
        requires whole { self.old.cursor.ring.end ≤ D.size self.old.dev }
        requires some { 0 < length self.old.cursor.pending }
        ensures size { D.size self.new.dev ≡ D.size self.old.dev }
        ensures cause { HasDevCause (D.faults self.old.dev) (D.faults self.new.dev) result }
        ensures calls { (¬ IsErrOf result err.NoMemory) → CommitAsks D.CacheDev self.old.cursor self.old.dev self.new.dev result }
        ensures settled { MatchResult result (λ _. (ptr : _) × HasSettled ptr self.old.cursor self.new.cursor × HasCommitWritten (D.told self.old.dev) (D.told self.new.dev) self.old.cursor ptr) (λ _. IsForgotten self.old.cursor self.new.cursor) }
        ensures refused { IsErrOf result err.NoMemory → self.new.dev ≡ self.old.dev }
        ensures left { IsErrOf result err.DevFault → IsCommitLeft (D.told self.old.dev) (D.told self.new.dev) self.old.cursor }
        ensures crash { (p : Promise) → KeepsPromise D.told D.has_sectors D.may_leave self.old.dev self.old.cursor p
            → CommitKeeps D.told D.has_sectors D.may_leave D.moment D.left_since self.old.dev self.new.dev self.old.cursor self.new.cursor p result }
    {
        let place = self.cursor.ring().hand();
        let ptr = match write_log(self.alloc, &mut self.dev, &mut self.cursor, place) {
            Ok(ptr) => ptr,
            Err(fault) => {
                self.cursor.forget();
                return Err(fault);
            }
        };
        let header = self.cursor.header_with(ptr);
        if let Err(failed) = write_header(&mut self.dev, &header) {
            self.cursor.forget();
            return Err(DevErr::from(failed));
        }
        self.cursor.settle(ptr);
        Ok(())
    }

    /// The ring, whose hand moves with each put.
    pub fn ring(&self) -> &Ring
        ensures ring { result.now ≡ self.now.cursor.ring }
        ensures kept { IsCursor self.now.cursor.ring self.now.cursor.base self.now.cursor.pending self.now.cursor.ready }
    {
        self.cursor.ring()
    }

    /// Lends the device. Reads, forks and absorbs of it leave all that is promised of it as it was.
    pub fn device(&mut self) -> &mut D
        ensures* writes_back { sem 𝓛 (LendsDevice D.row self.entry result) }
        ensures device { result.now ≡ self.old.dev }
    {
        &mut self.dev
    }

    /// Gives the device back.
    pub fn stop(self) -> D
        ensures { result ≡ self.dev }
    {
        let L2Dev { dev, .. } = self;
        dev
    }
}
