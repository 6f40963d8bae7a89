//! What the feed of the cache device and the scans of other parties do to a shard's table, and a new capacity.
ghost use Rattle.std.specs.Prelude.{◌≡◌, ℕ, ◌+◌, ◌-◌, ◌*◌, ◌<◌, ◌≤◌, ◌^◌, [], false, length, IsTrue, IsSome, None};
ghost use Rattle.blk_ptr.specs.declared.key.Key.{Key};
ghost use Rattle.arc_lists.specs.Sequences.{stands};
ghost use Rattle.arc_core.specs.declared.event.Event.{Event};
ghost use Rattle.arc_core.specs.Changes.{changed, may_have, pick_of, settled, unpicked, with_place, writing_phase};
ghost use Rattle.blk_ptr.specs.State.{is_same_state};
ghost use Rattle.arc_core.specs.PlainShard.{entry_is, entry_of, is_passed, no_holds};
ghost use Rattle.arc_core.specs.Step.{cleared, effect, fitted, legal, may_set, restored_entry};
ghost use Rattle.arc_core.specs.Rules.{resized};
ghost use Rattle.arc_core.specs.Sound.{IsTidy};
ghost use Rattle.arc_lists.specs.Adapting.{IsCapacity};

use super::Table;
use crate::entry::{Entry, Phase, Picked};
use crate::holds::Holds;
use crate::{keys, picks};
use blk_ptr::{Digest, Key, State};

/// What an earlier run left on the cache device.
pub fn restored_entry(key: Key, place: u64, digest: Option<Digest>) -> Entry
    ensures { result ≡ restored_entry key place digest }
{
    Entry {
        key,
        state: State::L2Only,
        holds: Holds::none(),
        reading: false,
        last: 0,
        place: Some(place),
        digest,
    }
}

impl Table {
    /// The pick of a key.
    pub fn pick_of(&self, key: Key) -> Option<Picked>
        ensures { result ≡ pick_of key self.now.shard.picked }
    {
        self.picked.find(key)
    }

    /// How far a feed has come.
    pub fn phase(&self) -> Phase
        ensures { result ≡ self.now.shard.phase }
    {
        self.phase
    }

    /// Whether the scan in hand has passed a key.
    pub fn is_passed(&self, key: Key) -> bool
        ensures { result ≡ is_passed self.now.shard key }
    {
        self.passed.has(key)
    }

    /// Whether a key stands on a sequence: nobody holds its entry, and its state has one.
    pub fn stands(&self, key: Key) -> bool
        ensures { result ≡ stands key self.now.shard.sequences }
    {
        match self.find(key) {
            Some(entry) => entry.is_unheld() && entry.has_sequence(),
            None => false,
        }
    }

    /// Whether a picked key may gain a place: its entry has none, is cached or a ghost, isn't being read, and has the digest of the pick
    /// still.
    pub fn may_set(&self, key: Key) -> bool
        ensures { result ≡ may_set key self.now.shard }
    {
        match self.pick_of(key) {
            Some(pick) => match self.find(key) {
                Some(entry) => entry.may_be_placed(&pick),
                None => false,
            },
            None => false,
        }
    }

    /// The scan in hand passes a key.
    pub fn pass(&mut self, n: u32, key: Key, owner: u32)
        requires room { 0 < self.old.marks }
        requires unpassed { is_passed self.old.shard key ≡ false }
        ensures { self.new ≡ record self.old { shard = effect self.old.shard (Event.Pass n key owner); marks = self.old.marks - 1 } }
    {
        self.passed.add(key);
        self.marks -= 1;
    }

    /// The feed picks the candidate.
    pub fn pick(&mut self, n: u32, key: Key)
        requires room { 0 < self.old.marks }
        requires legal { IsTrue (legal self.old.shard (Event.Pick n key)) }
        ensures { self.new ≡ record self.old { shard = effect self.old.shard (Event.Pick n key); marks = self.old.marks - 1 } }
    {
        let digest = self.find(key).and_then(|entry| entry.digest);
        self.picked.push(Picked { key, digest });
        self.picked_bytes += key.size;
        self.phase = Phase::Picking;
        self.marks -= 1;
    }

    // A feed goes on writing as long as a picked key is unsettled.
    fn go_on_writing(&mut self)
        ensures { self.new ≡ record self.old { shard = record self.old.shard { phase = writing_phase self.old.shard.picked } } }
    {
        self.phase = self.picked.phase();
    }

    /// The feed has picked all that it may.
    pub fn feed_end(&mut self, n: u32)
        ensures { self.new ≡ record self.old { shard = effect self.old.shard (Event.FeedEnd n) } }
    {
        self.go_on_writing();
    }

    /// A picked key leaves the picked list, and where it was the last one, the feed has ended.
    pub fn settle(&mut self, key: Key)
        ensures { self.new ≡ record self.old { shard = settled key self.old.shard } }
    {
        self.picked_bytes -= self.picked.take(key);
        self.go_on_writing();
    }

    // Gives the entry of a key another place on the cache device; an L2-only entry has one.
    fn put_place(&mut self, key: Key, place: Option<u64>)
        requires { IsTrue (entry_is (may_have place) key self.old.shard) }
        ensures { self.new ≡ record self.old { shard = changed key (with_place place) self.old.shard } }
    {
        self.entries.put_place(key, place);
    }

    /// A picked key was written at a place of the cache device.
    pub fn set(&mut self, n: u32, key: Key, place: u64)
        requires { IsTrue (legal self.old.shard (Event.Set n key place)) }
        ensures { self.new ≡ record self.old { shard = effect self.old.shard (Event.Set n key place) } }
    {
        self.put_place(key, Some(place));
        self.settle(key);
    }

    // Whether only the cache device has a key.
    fn is_l2_only(&self, key: Key) -> bool
        ensures { result ≡ entry_is (λ e. is_same_state e.state State.L2Only) key self.now.shard }
    {
        match self.find(key) {
            Some(entry) => matches!(entry.state, State::L2Only),
            None => false,
        }
    }

    /// A key loses its place; where only the cache device had it, it leaves.
    pub fn clear(&mut self, n: u32, key: Key)
        requires { IsTrue (legal self.old.shard (Event.Clear n key)) }
        ensures shard { self.new.shard ≡ cleared key self.old.shard }
        ensures spare { self.old.spare ≤ self.new.spare }
        ensures marks { self.new.marks ≡ self.old.marks }
        ensures marked { self.new.marked ≡ self.old.marked }
    {
        if self.is_l2_only(key) {
            self.remove(key);
        } else {
            self.put_place(key, None);
        }
    }

    /// An earlier run left a key on the cache device.
    pub fn restore(&mut self, n: u32, key: Key, place: u64, digest: Option<Digest>)
        requires legal { IsTrue (legal self.old.shard (Event.Restore n key place digest)) }
        requires room { 0 < self.old.spare }
        ensures { self.new ≡ record self.old { shard = effect self.old.shard (Event.Restore n key place digest); spare = self.old.spare - 1 } }
    {
        self.add(&restored_entry(key, place, digest));
    }

    /// The table gets a new capacity: blocks are evicted and ghosts dropped as far as it asks.
    pub fn resize(&mut self, c: u64)
        requires { IsCapacity c }
        ensures shard { self.new.shard ≡ fitted (resized c self.old.shard) }
        ensures spare { self.old.spare ≤ self.new.spare }
        ensures marks { self.new.marks ≡ self.old.marks }
        ensures marked { self.new.marked ≡ self.old.marked }
    {
        self.set_capacity(c);
        self.make_room(0);
        self.trim();
    }

    // Gives the entries a new capacity.
    fn set_capacity(&mut self, c: u64)
        requires { IsCapacity c }
        ensures { self.new ≡ record self.old { shard = resized c self.old.shard } }
    {
        self.entries.resize(c);
    }

    /// There is no feed, no passed key and no marked one.
    pub fn unpick(&mut self)
        ensures now { self.new ≡ record self.old { shard = unpicked self.old.shard; marked = [] } }
        ensures tidy { IsTidy self.new.shard }
    {
        self.passed.clear();
        self.marked.clear();
        self.picked.clear();
        self.picked_bytes = 0;
        self.phase = Phase::Idle;
    }
}
