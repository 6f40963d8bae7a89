//! Where the device is written: the ring, the pointers of the next header, and the entries that no log block tells of yet.
ghost use Rattle.std.specs.Prelude.{◌≡◌, ℕ, ◌+◌, ◌<◌, ◌≤◌, ◌++◌, [], ◌∷◌, length, map, true, false, vec_len, OnOk, OnErr, Some};
ghost use Rattle.std.specs.List.{All, filter};
ghost use Rattle.l2_dev.specs.Restoring.{written_in};
ghost use Rattle.std.specs.Vec.{vec_capacity};
ghost use Rattle.l2_log.specs.Rules.{ring_start, log_len, is_there, most_with};
ghost use Rattle.l2_ring.specs.Ring.{IsRoom, IsPlan, IsPlanFor, HasPlan, IsLower, IsSameRing, IsSound, with_hand};
ghost use Rattle.l2_ring.specs.Stays.{stays, falls, live_of};

use blk_ptr::NoMemory;
use l2_log::{DevHeader, Entries, LOG_LEN, LogBlock, LogEntry, LogPtr, VERSION};
use l2_ring::{Live, Plan, Ring};
use std::alloc::Global;
use std::marker::Model;
use std::mem;

/// The ring and what is to be written to it. Contracts see them as one record.
#[derive(Debug, Drop)]
pub struct Cursor {
    ring: Ring,
    /// The ring's hand after the last commit, or else after the last begin.
    base: u64,
    newest: Option<LogPtr>,
    second: Option<LogPtr>,
    pending: Vec<LogEntry>,
    /// Whether a begin was answered Ok, and no call an error since.
    ready: bool,
}

impl Model for Cursor {
    ghost use Rattle.l2_dev.specs.Cursor.{CursorState, IsCursor};

    ghost Value = { CursorState };

    ghost view = { λ cursor. record {
      ring = cursor.ring;
      base = cursor.base;
      newest = cursor.newest;
      second = cursor.second;
      pending = cursor.pending.items;
      ready = cursor.ready;
    } };

    ghost invariant = { λ cursor. IsCursor cursor.ring cursor.base cursor.pending.items cursor.ready };
}

/// Adds the entries, which lie in the lower part, to the live ones.
fn add_all(ring: &mut Ring, entries: &[LogEntry])
    requires room { length entries.now ≤ ring.old.spare }
    requires lower { All (λ entry. IsLower ring.old entry.place entry.key.size) entries.now }
    ensures numbers { IsSameRing ring.old ring.new }
    ensures live { ring.new.live ≡ ring.old.live ++ map (written_in ring.old.lap) entries.now }
{
    for entry in entries {
        let LogEntry { key, place, digest } = *entry;
        ring.add(Live { key, place, digest });
    }
}

impl Cursor {
    ghost use Rattle.l2_dev.specs.Cursor.{numbers_from, IsCursor};
    ghost use Rattle.l2_dev.specs.Planned.{HasPlanned, IsHeaderWith, IsBlockOf, HasPushed, IsForgotten, IsReserved, HasSettled};
    ghost use Rattle.l2_dev.specs.PromiseLaws.{IsHeaderFrom};

    /// The cursor of this ring with these pointers: nothing is pending.
    pub(crate) fn new(
        alloc: Global,
        ring: Ring,
        newest: Option<LogPtr>,
        second: Option<LogPtr>,
    ) -> Cursor
        ensures ring { result.ring ≡ ring }
        ensures base { result.base ≡ ring.hand }
        ensures pointers { (result.newest ≡ newest) × (result.second ≡ second) }
        ensures pending { result.pending ≡ [] }
        ensures ready { result.ready ≡ false }
    {
        let base = ring.hand();
        Cursor {
            ring,
            base,
            newest,
            second,
            pending: Vec::new(alloc),
            ready: false,
        }
    }

    /// The ring.
    pub(crate) fn ring(&self) -> &Ring
        ensures ring { result.now ≡ self.now.ring }
        ensures kept { IsCursor self.now.ring self.now.base self.now.pending self.now.ready }
    {
        &self.ring
    }

    /// The plan for `n` bytes.
    pub(crate) fn room(&self, n: u64) -> Plan
        requires { IsRoom self.now.ring n }
        ensures plan { IsPlanFor self.now.ring n result }
        ensures kept { IsCursor self.now.ring self.now.base self.now.pending self.now.ready }
    {
        self.ring.room(n)
    }

    /// How many live entries the plan drops.
    pub(crate) fn dropped_by(&self, plan: Plan) -> usize
        requires { IsPlan self.now.ring plan }
        ensures { result ≡ length (filter (falls plan) self.now.ring.live) }
    {
        self.ring.dropped_by(plan)
    }

    /// Takes a plan of the ring.
    pub(crate) fn take(&mut self, plan: Plan, dropped: &mut Vec<Live>)
        requires plan { IsPlan self.old.ring plan }
        requires room { vec_len dropped.old + length (filter (falls plan) self.old.ring.live) ≤ vec_capacity dropped.old }
        requires none { self.old.pending ≡ [] }
        ensures planned { (n : ℕ) → IsPlanFor self.old.ring n plan → HasPlanned n self.old self.new }
        ensures dropped { dropped.new.items ≡ dropped.old.items ++ map live_of (filter (falls plan) self.old.ring.live) }
        ensures ready { self.new.ready ≡ false }
    {
        self.ring.take(plan, dropped);
        self.base = plan.hand;
        self.ready = false;
    }

    /// From now on blocks may be put.
    pub(crate) fn open(&mut self)
        ensures same { (self.new.ring ≡ self.old.ring) × (self.new.base ≡ self.old.base) × (self.new.newest ≡ self.old.newest) × (self.new.second ≡ self.old.second) × (self.new.pending ≡ self.old.pending) }
        ensures ready { self.new.ready ≡ true }
    {
        self.ready = true;
    }

    /// The header that is to be written where nothing is pending.
    pub(crate) fn header(&self) -> DevHeader
        requires { self.now.pending ≡ [] }
        ensures header { IsHeaderFrom self.now result }
    {
        DevHeader {
            version: VERSION,
            end: self.ring.end(),
            hand: self.ring.hand(),
            evict: self.ring.evict(),
            top: self.ring.top(),
            lap: self.ring.lap(),
            newest: self.newest,
            second: self.second,
        }
    }

    /// The header that is to be written once the log block of `ptr` stands behind the pending blocks.
    pub(crate) fn header_with(&self, ptr: LogPtr) -> DevHeader
        requires { 0 < length self.now.pending }
        ensures header { IsHeaderWith self.now ptr result }
    {
        DevHeader {
            version: VERSION,
            end: self.ring.end(),
            hand: self.ring.hand() + LOG_LEN as u64,
            evict: self.ring.evict(),
            top: self.ring.top(),
            lap: self.ring.lap(),
            newest: Some(ptr),
            second: self.newest,
        }
    }

    /// Adds an entry whose block was written at the hand.
    pub(crate) fn push(&mut self, entry: LogEntry) -> Result<(), NoMemory>
        requires ready { self.old.ready ≡ true }
        requires place { entry.place ≡ self.old.ring.hand }
        requires digest { is_there entry.digest ≡ true }
        requires room { self.old.ring.hand + entry.key.size + log_len ≤ self.old.ring.evict }
        requires few { length self.old.pending < most_with true }
        ensures kept { OnErr result (self.new ≡ self.old) }
        ensures pushed { OnOk result (HasPushed entry self.old self.new) }
    {
        self.pending.push(entry)?;
        self.ring.advance(entry.key.size);
        Ok(())
    }

    /// Forgets what is pending: the hand is again as after the last commit, or after a begin since.
    pub(crate) fn forget(&mut self)
        ensures forgotten { IsForgotten self.old self.new }
    {
        self.pending.clear();
        self.ready = false;
        self.ring.rewind(self.base);
    }

    /// Takes the room that the pending entries will want among the live ones.
    pub(crate) fn reserve(&mut self) -> Result<(), NoMemory>
        ensures reserved { IsReserved self.old self.new }
        ensures room { OnOk result (length self.old.pending ≤ self.new.ring.spare) }
    {
        self.ring.reserve(self.pending.len())
    }

    /// Writes the log block of the pending entries, and answers the pointer to it, for the place behind their blocks.
    pub(crate) fn write_block(&mut self, alloc: Global, out: &mut [u8]) -> LogPtr
        requires len { length out.old ≡ log_len }
        requires some { 0 < length self.old.pending }
        ensures same { self.new ≡ self.old }
        ensures block { (block : _) × IsBlockOf self.old out.new result block }
    {
        let pending = mem::replace(&mut self.pending, Vec::new(alloc));
        let block = LogBlock {
            version: VERSION,
            lap: self.ring.lap(),
            prev: self.second,
            entries: Entries::new(pending),
        };
        let written = block.write(out);
        self.pending = block.entries.into_vec();
        LogPtr {
            place: self.ring.hand(),
            count: written.count,
            digest: written.digest,
        }
    }

    /// Makes the pending entries live, once their log block stands behind their blocks.
    pub(crate) fn settle(&mut self, ptr: LogPtr)
        requires some { 0 < length self.old.pending }
        requires room { length self.old.pending ≤ self.old.ring.spare }
        ensures settled { HasSettled ptr self.old self.new }
    {
        self.ring.advance(LOG_LEN as u64);
        add_all(&mut self.ring, &self.pending);
        self.pending.clear();
        self.base = self.ring.hand();
        self.second = self.newest;
        self.newest = Some(ptr);
    }
}
