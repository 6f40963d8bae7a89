//! What the events of callers and of cells do to a shard's table.
ghost use Rattle.std.specs.Prelude.{◌≡◌, ℕ, ◌+◌, ◌^◌, ◌<◌, ◌≤◌, if◌then◌else◌, IsTrue, option_map};
ghost use Rattle.blk_ptr.specs.declared.state.State.{State};
ghost use Rattle.arc_core.specs.declared.event.Event.{Event};
ghost use Rattle.arc_core.specs.PlainShard.{entry_of, held_by, holds_of, numbers};
ghost use Rattle.arc_core.specs.Changes.{one_less};
ghost use Rattle.arc_core.specs.Owed.{entries_for, owed_of};
ghost use Rattle.arc_core.specs.Rules.{accessed, arrived_state, target_after};
ghost use Rattle.arc_core.specs.Search.{Stands};
ghost use Rattle.arc_core.specs.Sparing.{victims};
ghost use Rattle.arc_core.specs.Step.{effect, entry_to_read, legal, written_entry};

use super::Table;
use super::search::Search;
use crate::entry::Entry;
use crate::event::{FailedAt, Origin};
use crate::holds::Holds;
use arc_lists::Ghost;
use blk_ptr::{Digest, Key, State};

// The state of an entry whose bytes have arrived.
fn arrived_state(state: State) -> State
    ensures { result ≡ arrived_state state }
{
    match state {
        State::Anon => State::Mru,
        other => other,
    }
}

// What a miss of `n` at tick `t` puts in for a key that had this entry.
fn entry_to_read(n: u32, key: Key, t: u64, old: Option<&Entry>) -> Entry
    requires { n < numbers }
    ensures { result ≡ entry_to_read n key t (option_map (λ e. e.now) old.entry) }
{
    Entry {
        key,
        state: if old.is_some() {
            State::Mfu
        } else {
            State::Anon
        },
        holds: Holds::one(n),
        reading: true,
        last: t,
        place: old.and_then(|entry| entry.place),
        digest: None,
    }
}

// What a cell puts in.
fn written_entry(n: u32, key: Key, digest: Digest, t: u64) -> Entry
    requires { n < numbers }
    ensures { result ≡ written_entry n key digest t }
{
    Entry {
        key,
        state: State::Mru,
        holds: Holds::one(n),
        reading: false,
        last: t,
        place: None,
        digest: Some(digest),
    }
}

// The state in which a miss puts a key in, which had an entry or had none.
fn read_state(was_there: bool) -> State
    ensures { result ≡ (if was_there then State.Mfu else State.Anon) }
{
    if was_there { State::Mfu } else { State::Anon }
}

impl Table {
    /// A hit of `n` at tick `t`. `near` is where the entry stood, and may be any number.
    #[inline(always)]
    pub fn hit_near(&mut self, near: usize, n: u32, key: Key, t: u64)
        requires legal { IsTrue (legal self.old.shard (Event.Hit n key t)) }
        requires counts { owed_of self.old.shard + 1 < 2 ^ 32 }
        ensures { self.new ≡ record self.old { shard = effect self.old.shard (Event.Hit n key t) } }
    {
        let mintime = self.mintime;
        self.place_near(
            near,
            key,
            |entry|
                requires number { n < numbers }
                requires count { holds_of (accessed mintime t entry.old) + 1 < 2 ^ 32 }
            {
                entry.access(mintime, t);
                entry.one_more(n);
            },
        );
    }

    /// The bytes of a read of `n` have arrived.
    pub fn arrive(&mut self, n: u32, key: Key, digest: Digest, from: Origin)
        requires { IsTrue (legal self.old.shard (Event.Arrive n key digest from)) }
        ensures { self.new ≡ record self.old { shard = effect self.old.shard (Event.Arrive n key digest from) } }
    {
        self.place(key, |entry| {
            entry.state = arrived_state(entry.state);
            entry.reading = false;
            entry.digest = Some(digest);
        });
    }

    /// `n` gives one hold back. `near` is where the entry stood, and may be any number.
    #[inline(always)]
    pub fn give_back_near(&mut self, near: usize, n: u32, key: Key)
        requires { IsTrue (legal self.old.shard (Event.Drop n key)) }
        ensures { self.new ≡ record self.old { shard = effect self.old.shard (Event.Drop n key) } }
    {
        self.place_near(near, key, |entry| entry.one_less(n));
    }

    /// `n` begins to read a key at tick `t`.
    pub fn miss(&mut self, n: u32, key: Key, t: u64)
        requires legal { IsTrue (legal self.old.shard (Event.Miss n key t)) }
        requires room { entries_for self.old.shard (Event.Miss n key t) ≤ self.old.spare }
        ensures shard { self.new.shard ≡ effect self.old.shard (Event.Miss n key t) }
        ensures spare { self.old.spare ≤ self.new.spare + entries_for self.old.shard (Event.Miss n key t) }
        ensures marks { self.new.marks ≡ self.old.marks }
        ensures marked { self.new.marked ≡ self.old.marked }
    {
        let old = self.find(key);
        let is_there = old.is_some();
        let entry = entry_to_read(n, key, t, old);
        if is_there {
            self.adapt(key);
            self.take_in(&entry);
        } else {
            self.bring_in(&entry);
        }
    }

    /// A read of `n` has failed.
    pub fn fail(&mut self, n: u32, key: Key, at: FailedAt)
        requires { IsTrue (legal self.old.shard (Event.Fail n key at)) }
        ensures shard { self.new.shard ≡ effect self.old.shard (Event.Fail n key at) }
        ensures spare { self.old.spare ≤ self.new.spare }
        ensures marks { self.new.marks ≡ self.old.marks }
        ensures marked { self.new.marked ≡ self.old.marked }
    {
        self.remove(key);
    }

    /// `n` hands one hold to a cell.
    pub fn hand(&mut self, n: u32, key: Key, to: u32)
        requires legal { IsTrue (legal self.old.shard (Event.Hand n key to)) }
        requires counts { owed_of self.old.shard < 2 ^ 32 }
        ensures { self.new ≡ record self.old { shard = effect self.old.shard (Event.Hand n key to) } }
    {
        self.place(
            key,
            |entry|
                requires from { n < numbers }
                requires some { 0 < held_by n entry.old }
                requires to { to < numbers }
                requires count { holds_of (one_less n entry.old) + 1 < 2 ^ 32 }
            {
                entry.one_less(n);
                entry.one_more(to);
            },
        );
    }

    /// `n` gives one hold back and keeps a private copy.
    pub fn release(&mut self, n: u32, key: Key, sole: bool)
        requires { IsTrue (legal self.old.shard (Event.Release n key sole)) }
        ensures shard { self.new.shard ≡ effect self.old.shard (Event.Release n key sole) }
        ensures spare { self.old.spare ≤ self.new.spare }
        ensures marks { self.new.marks ≡ self.old.marks }
        ensures marked { self.new.marked ≡ self.old.marked }
    {
        if sole {
            self.remove(key);
        } else {
            self.place(key, |entry| entry.one_less(n));
        }
    }

    /// The cell `n` puts a block in that it wrote.
    pub fn insert(&mut self, n: u32, key: Key, digest: Digest, t: u64)
        requires legal { IsTrue (legal self.old.shard (Event.Insert n key digest t)) }
        requires room { entries_for self.old.shard (Event.Insert n key digest t) ≤ self.old.spare }
        ensures shard { self.new.shard ≡ effect self.old.shard (Event.Insert n key digest t) }
        ensures spare { self.old.spare ≤ self.new.spare + entries_for self.old.shard (Event.Insert n key digest t) }
        ensures marks { self.new.marks ≡ self.old.marks }
        ensures marked { self.new.marked ≡ self.old.marked }
    {
        self.take_in(&written_entry(n, key, digest, t));
    }

    // The target after a key with this entry is asked for: it moves where the key is a ghost.
    fn target_after(&self, key: Key, found: Option<&Entry>) -> u64
        requires { option_map (λ e. e.now) found ≡ entry_of key self.now.shard }
        ensures { result ≡ target_after key self.now.shard }
    {
        let Some(entry) = found else {
            return self.p();
        };
        match entry.state {
            State::MruGhost => self.entries.adapted(Ghost::Mru, key.size),
            State::MfuGhost => self.entries.adapted(Ghost::Mfu, key.size),
            State::Anon | State::Mru | State::Mfu | State::L2Only => self.p(),
        }
    }

    /// The search for the victims of a miss, from its start.
    pub fn search_of_miss(&self, n: u32, key: Key, t: u64) -> Search
        requires { IsTrue (legal self.now.shard (Event.Miss n key t)) }
        ensures { Stands self.now.shard self.now.marked (victims self.now.shard (Event.Miss n key t)) result }
    {
        let found = self.find(key);
        let comes = read_state(found.is_some());
        self.search_as_comes(key, comes, found, self.target_after(key, found))
    }

    /// The search for the victims of an insertion, from its start.
    pub fn search_of_insert(&self, n: u32, key: Key, digest: Digest, t: u64) -> Search
        requires { IsTrue (legal self.now.shard (Event.Insert n key digest t)) }
        ensures { Stands self.now.shard self.now.marked (victims self.now.shard (Event.Insert n key digest t)) result }
    {
        self.search_as_comes(key, State::Mru, self.find(key), self.p())
    }
}
