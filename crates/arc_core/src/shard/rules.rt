//! Where each event may come, and the step that makes whichever event it is given.
ghost use Rattle.std.specs.Prelude.{◌≡◌, ◌↔◌, ◌==◌, IsTrue, not};
ghost use Rattle.arc_core.specs.declared.event.Event.{Event};
ghost use Rattle.arc_core.specs.Config.{is_capacity_of};
ghost use Rattle.arc_core.specs.PlainShard.{holds_of, is_cell, is_number, is_party};
ghost use Rattle.arc_core.specs.ShardLog.{HasRoom, Makes};
ghost use Rattle.arc_core.specs.Step.{is_writing, legal, may_pick, may_set};
ghost use Rattle.blk_ptr.specs.Key.{is_well_formed};

use super::Shard;
use crate::entry::{Entry, NUMBERS, Phase};
use crate::event::{Event, FailedAt, Origin, Why};
use blk_ptr::{Digest, Key, SECTOR, State, is_block_size};

// Whether a number may be one of a caller, the feeder or a cell.
fn is_number(n: u32) -> bool
    ensures { result ≡ is_number n }
{
    (n as usize) < NUMBERS
}

// Whether a number may be one of a caller or the feeder.
fn is_party(n: u32) -> bool
    ensures { result ≡ is_party n }
{
    n <= 16
}

// Whether a number may be one of a cell.
fn is_cell(n: u32) -> bool
    ensures { result ≡ is_cell n }
{
    2 <= n && (n as usize) < NUMBERS
}

// Whether a key's numbers are in their ranges, whatever the pool's length.
fn is_well_formed(key: Key) -> bool
    ensures { result ≡ is_well_formed key }
{
    key.offset % SECTOR == 0 && is_block_size(key.size) && key.birth > 0
}

// Whether a shard may have this capacity.
fn is_capacity(c: u64) -> bool
    ensures { result ≡ is_capacity_of c }
{
    4096 <= c && c <= 1 << 32
}

// Whether there is one hold on an entry.
fn is_held_once(entry: &Entry) -> bool
    ensures { result ≡ (holds_of entry.now == 1) }
{
    entry.holds.total() == 1
}

// Whether keys may be picked.
fn may_pick(phase: Phase) -> bool
    ensures { result ≡ may_pick phase }
{
    match phase {
        Phase::Idle | Phase::Picking => true,
        Phase::Writing => false,
    }
}

// Whether picked blocks are being written.
fn is_writing(phase: Phase) -> bool
    ensures { result ≡ is_writing phase }
{
    match phase {
        Phase::Idle | Phase::Picking => false,
        Phase::Writing => true,
    }
}

impl Shard {
    fn may_pass(&self, n: u32, key: Key, owner: u32) -> bool
        ensures { result ≡ legal self.now.now (Event.Pass n key owner) }
    {
        is_number(n)
            && self.table.stands(key)
            && !self.table.is_passed(key)
            && owner != n
            && is_party(owner)
    }

    fn may_hit(&self, n: u32, key: Key, t: u64) -> bool
        ensures { result ≡ legal self.now.now (Event.Hit n key t) }
    {
        is_number(n)
            && match self.table.find(key) {
                Some(entry) => entry.is_resident(),
                None => false,
            }
    }

    fn may_miss(&self, n: u32, key: Key, t: u64) -> bool
        ensures { result ≡ legal self.now.now (Event.Miss n key t) }
    {
        is_number(n)
            && is_well_formed(key)
            && match self.table.find(key) {
                Some(entry) => {
                    matches!(
                        entry.state,
                        State::MruGhost | State::MfuGhost | State::L2Only
                    )
                }
                None => true,
            }
    }

    fn may_arrive(&self, n: u32, key: Key, digest: Digest, from: Origin) -> bool
        ensures { result ≡ legal self.now.now (Event.Arrive n key digest from) }
    {
        is_number(n)
            && match self.table.find(key) {
                Some(entry) => {
                    entry.reads(n) && (matches!(from, Origin::Pool) || entry.place.is_some())
                }
                None => false,
            }
    }

    fn may_fail(&self, n: u32, key: Key, at: FailedAt) -> bool
        ensures { result ≡ legal self.now.now (Event.Fail n key at) }
    {
        is_number(n)
            && match self.table.find(key) {
                Some(entry) => entry.reads(n),
                None => false,
            }
    }

    fn may_drop(&self, n: u32, key: Key) -> bool
        ensures { result ≡ legal self.now.now (Event.Drop n key) }
    {
        is_number(n)
            && match self.table.find(key) {
                Some(entry) => entry.is_held(n),
                None => false,
            }
    }

    fn may_read_past(&self, n: u32, key: Key, kept: Digest) -> bool
        ensures { result ≡ legal self.now.now (Event.Past n key kept) }
    {
        is_number(n)
            && match self.table.find(key) {
                Some(entry) => entry.is_resident() && entry.keeps(kept),
                None => false,
            }
    }

    fn may_hand(&self, n: u32, key: Key, to: u32) -> bool
        ensures { result ≡ legal self.now.now (Event.Hand n key to) }
    {
        is_number(n)
            && is_cell(to)
            && match self.table.find(key) {
                Some(entry) => entry.is_held(n),
                None => false,
            }
    }

    fn may_insert(&self, n: u32, key: Key, digest: Digest, t: u64) -> bool
        ensures { result ≡ legal self.now.now (Event.Insert n key digest t) }
    {
        is_cell(n)
            && is_well_formed(key)
            && match self.table.find(key) {
                Some(entry) => matches!(entry.state, State::L2Only),
                None => true,
            }
    }

    fn may_release(&self, n: u32, key: Key, sole: bool) -> bool
        ensures { result ≡ legal self.now.now (Event.Release n key sole) }
    {
        is_number(n)
            && match self.table.find(key) {
                Some(entry) => entry.is_held(n) && sole == is_held_once(entry),
                None => false,
            }
    }

    fn may_be_picked(&self, n: u32, key: Key) -> bool
        ensures { result ≡ legal self.now.now (Event.Pick n key) }
    {
        is_number(n)
            && may_pick(self.table.phase())
            && match self.candidate() {
                Some(candidate) => candidate == key,
                None => false,
            }
    }

    fn may_end_picks(&self, n: u32) -> bool
        ensures { result ≡ legal self.now.now (Event.FeedEnd n) }
    {
        is_number(n) && may_pick(self.table.phase()) && self.candidate().is_none()
    }

    fn may_set(&self, n: u32, key: Key, place: u64) -> bool
        ensures { result ≡ legal self.now.now (Event.Set n key place) }
    {
        is_number(n) && is_writing(self.table.phase()) && self.table.may_set(key)
    }

    fn may_leave(&self, n: u32, key: Key, why: Why) -> bool
        ensures { result ≡ legal self.now.now (Event.Leave n key why) }
    {
        is_number(n)
            && is_writing(self.table.phase())
            && self.table.pick_of(key).is_some()
            && matches!(why, Why::Gone) != self.table.may_set(key)
    }

    fn may_clear(&self, n: u32, key: Key) -> bool
        ensures { result ≡ legal self.now.now (Event.Clear n key) }
    {
        is_number(n)
            && match self.table.find(key) {
                Some(entry) => entry.place.is_some(),
                None => false,
            }
    }

    fn may_restore(&self, n: u32, key: Key, place: u64, digest: Option<Digest>) -> bool
        ensures { result ≡ legal self.now.now (Event.Restore n key place digest) }
    {
        is_number(n) && is_well_formed(key) && self.table.find(key).is_none()
    }

    fn may_resize(&self, n: u32, c: u64) -> bool
        ensures { result ≡ legal self.now.now (Event.Resize n c) }
    {
        is_number(n) && is_capacity(c)
    }

    /// Whether an event may come now.
    pub fn legal(&self, e: &Event) -> bool
        ensures { IsTrue result ↔ IsTrue (legal self.now.now e.now) }
    {
        match *e {
            Event::Pass { n, key, owner } => self.may_pass(n, key, owner),
            Event::Hit { n, key, t } => self.may_hit(n, key, t),
            Event::Miss { n, key, t } => self.may_miss(n, key, t),
            Event::Arrive {
                n,
                key,
                digest,
                from,
            } => self.may_arrive(n, key, digest, from),
            Event::Fail { n, key, at } => self.may_fail(n, key, at),
            Event::Drop { n, key } => self.may_drop(n, key),
            Event::Past { n, key, kept } => self.may_read_past(n, key, kept),
            Event::Hand { n, key, to } => self.may_hand(n, key, to),
            Event::Insert { n, key, digest, t } => self.may_insert(n, key, digest, t),
            Event::Release { n, key, sole } => self.may_release(n, key, sole),
            Event::Pick { n, key } => self.may_be_picked(n, key),
            Event::FeedEnd { n } => self.may_end_picks(n),
            Event::Set { n, key, place } => self.may_set(n, key, place),
            Event::Leave { n, key, why } => self.may_leave(n, key, why),
            Event::Clear { n, key } => self.may_clear(n, key),
            Event::Restore {
                n,
                key,
                place,
                digest,
            } => self.may_restore(n, key, place, digest),
            Event::Resize { n, c } => self.may_resize(n, c),
        }
    }

    /// Makes an event that may come and has room.
    pub fn step(&mut self, e: Event)
        requires legal { IsTrue (legal self.old.now e) }
        requires room { HasRoom e self.old }
        ensures { Makes e self.old self.new }
    {
        let _ = match e {
            Event::Pass { n, key, owner } => self.pass(n, key, owner),
            Event::Hit { n, key, t } => self.hit(n, key, t),
            Event::Miss { n, key, t } => self.miss(n, key, t),
            Event::Arrive {
                n,
                key,
                digest,
                from,
            } => self.arrive(n, key, digest, from),
            Event::Fail { n, key, at } => self.fail(n, key, at),
            Event::Drop { n, key } => self.drop_one(n, key),
            Event::Past { n, key, kept } => self.past(n, key, kept),
            Event::Hand { n, key, to } => self.hand(n, key, to),
            Event::Insert { n, key, digest, t } => self.insert(n, key, digest, t),
            Event::Release { n, key, sole } => self.release(n, key, sole),
            Event::Pick { n, key } => self.pick(n, key),
            Event::FeedEnd { n } => self.feed_end(n),
            Event::Set { n, key, place } => self.set(n, key, place),
            Event::Leave { n, key, why } => self.leave(n, key, why),
            Event::Clear { n, key } => self.clear(n, key),
            Event::Restore {
                n,
                key,
                place,
                digest,
            } => self.restore(n, key, place, digest),
            Event::Resize { n, c } => self.resize(n, c),
        };
    }
}
