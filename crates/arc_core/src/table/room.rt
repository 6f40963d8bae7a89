//! Room and trim: which blocks are evicted, which ghosts are dropped, and how an entry comes in.
ghost use Rattle.std.specs.Prelude.{◌≡◌, ℕ, ◌+◌, ◌<◌, ◌≤◌, IsTrue, IsSome, None};
ghost use Rattle.blk_ptr.specs.declared.key.Key.{Key};
ghost use Rattle.arc_core.specs.PlainShard.{entry_is, entry_of};
ghost use Rattle.arc_core.specs.Changes.{come, gone};
ghost use Rattle.arc_core.specs.Edits.{is_droppable, is_evictable, is_off};
ghost use Rattle.arc_core.specs.Rules.{dropped, evicted, evicted_state, next_dropped, next_evicted, trimmed, with_room, with_target_for};
ghost use Rattle.arc_core.specs.Sound.{IsSoundEntry, IsTidy};
ghost use Rattle.arc_core.specs.Step.{taken_in};

use super::Table;
use crate::entry::Entry;
use arc_lists::Ghost;
use blk_ptr::{Key, State};

// The ghost of a state whose bytes are cached.
fn evicted_state(state: State) -> State
    ensures { result ≡ evicted_state state }
{
    match state {
        State::Mru => State::MruGhost,
        State::Mfu => State::MfuGhost,
        other => other,
    }
}

impl Table {
    // The key that room for `z` bytes evicts next.
    fn next_evicted(&self, z: u64) -> Option<Key>
        ensures value { result ≡ next_evicted z self.now.shard }
        ensures tidy { IsTidy self.now.shard }
    {
        let (c, p) = (self.entries.c(), self.entries.p());
        let passed = &self.passed;
        self.entries.pick(c, p, z, 0, 0, |key| passed.has(key))
    }

    // The ghost that trim drops next.
    fn next_dropped(&self) -> Option<Key>
        ensures value { result ≡ next_dropped self.now.shard }
        ensures tidy { IsTidy self.now.shard }
    {
        let (mru, mru_ghost, mfu_ghost) = (
            self.entries.size(State::Mru),
            self.entries.size(State::MruGhost),
            self.entries.size(State::MfuGhost),
        );
        let passed = &self.passed;
        self.entries.trim(
            self.entries.c(),
            mru,
            mru_ghost,
            mfu_ghost,
            |key| passed.has(key),
        )
    }

    // Makes a ghost of an entry (`arc_evict_hdr` of OpenZFS's `arc.c`).
    fn evict(&mut self, key: Key)
        requires tidy { IsTidy self.old.shard }
        requires evictable { IsTrue (entry_is is_evictable key self.old.shard) }
        ensures { self.new ≡ record self.old { shard = evicted key self.old.shard } }
    {
        self.place(key, |entry| {
            entry.state = evicted_state(entry.state);
        });
    }

    // Drops a ghost: it becomes L2-only where it has a place on the cache device, else it leaves the table (`arc_evict_hdr` and
    // `arc_hdr_destroy` of OpenZFS's `arc.c`).
    fn drop_ghost(&mut self, key: Key)
        requires tidy { IsTidy self.old.shard }
        requires droppable { IsTrue (entry_is is_droppable key self.old.shard) }
        ensures shard { self.new.shard ≡ dropped key self.old.shard }
        ensures spare { self.old.spare ≤ self.new.spare }
        ensures marks { self.new.marks ≡ self.old.marks }
        ensures marked { self.new.marked ≡ self.old.marked }
    {
        match self.find(key) {
            Some(entry) if entry.place.is_some() => self.place(key, |entry| {
                entry.state = State::L2Only;
            }),
            _ => self.remove(key),
        }
    }

    /// Makes room for `z` bytes, as far as keys may go (`arc_evict_state` of OpenZFS's `arc.c`).
    pub fn make_room(&mut self, z: u64)
        ensures shard { self.new.shard ≡ with_room z self.old.shard }
        ensures spare { self.new.spare ≡ self.old.spare }
        ensures marks { self.new.marks ≡ self.old.marks }
        ensures marked { self.new.marked ≡ self.old.marked }
    {
        for _turn in 0..self.len() {
            match self.next_evicted(z) {
                Some(key) => self.evict(key),
                None => return,
            }
        }
    }

    /// Drops ghosts as far as they are above their bounds (`arc_evict` of OpenZFS's `arc.c`).
    pub fn trim(&mut self)
        ensures shard { self.new.shard ≡ trimmed self.old.shard }
        ensures spare { self.old.spare ≤ self.new.spare }
        ensures marks { self.new.marks ≡ self.old.marks }
        ensures marked { self.new.marked ≡ self.old.marked }
    {
        for _turn in 0..self.len() {
            match self.next_dropped() {
                Some(key) => self.drop_ghost(key),
                None => return,
            }
        }
    }

    /// Moves the target where the key is a ghost (`arc_adapt` of OpenZFS's `arc.c`).
    pub fn adapt(&mut self, key: Key)
        ensures { self.new ≡ record self.old { shard = with_target_for key self.old.shard } }
    {
        if let Some(entry) = self.find(key) {
            match entry.state {
                State::MruGhost => self.entries.adapt(Ghost::Mru, key.size),
                State::MfuGhost => self.entries.adapt(Ghost::Mfu, key.size),
                _ => {}
            }
        }
    }

    // Takes a key out, where it is there.
    fn take_out(&mut self, key: Key)
        ensures shard { self.new.shard ≡ gone key self.old.shard }
        ensures absent { entry_of key self.new.shard ≡ None }
        ensures room { (entry_of key self.old.shard ≡ None → 0 < self.old.spare) → 0 < self.new.spare }
        ensures spare { self.old.spare ≤ self.new.spare }
        ensures kept { IsSome (entry_of key self.old.shard) → self.old.spare + 1 ≤ self.new.spare }
        ensures marks { self.new.marks ≡ self.old.marks }
        ensures marked { self.new.marked ≡ self.old.marked }
    {
        if self.find(key).is_some() {
            self.remove(key);
        }
    }

    /// Takes an entry in: its key is taken out, room is made for its bytes, the entry comes in, and the ghosts are trimmed.
    pub fn take_in(&mut self, entry: &Entry)
        requires room { entry_of entry.now.key self.old.shard ≡ None → 0 < self.old.spare }
        requires off { IsTrue (is_off entry.now) }
        requires sound { IsSoundEntry entry.now }
        ensures shard { self.new.shard ≡ taken_in entry.now self.old.shard }
        ensures spare { self.old.spare ≤ self.new.spare + 1 }
        ensures kept { IsSome (entry_of entry.now.key self.old.shard) → self.old.spare ≤ self.new.spare }
        ensures marks { self.new.marks ≡ self.old.marks }
        ensures marked { self.new.marked ≡ self.old.marked }
    {
        self.take_out(entry.key);
        self.bring_in(entry);
    }

    /// Takes an entry in whose key has none: room is made for its bytes, the entry comes in, and the ghosts are trimmed.
    pub fn bring_in(&mut self, entry: &Entry)
        requires room { 0 < self.old.spare }
        requires absent { entry_of entry.now.key self.old.shard ≡ None }
        requires off { IsTrue (is_off entry.now) }
        requires sound { IsSoundEntry entry.now }
        ensures shard { self.new.shard ≡ trimmed (come entry.now (with_room entry.now.key.size self.old.shard)) }
        ensures spare { self.old.spare ≤ self.new.spare + 1 }
        ensures marks { self.new.marks ≡ self.old.marks }
        ensures marked { self.new.marked ≡ self.old.marked }
    {
        self.make_room(entry.key.size);
        self.add(entry);
        self.trim();
    }
}
