//! A shard without its history: its entries and sequences, and what a feed and a scan for room have in hand.
ghost use Rattle.std.specs.Prelude.{◌≡◌, ℕ, ◌+◌, ◌-◌, ◌/◌, ◌<◌, ◌≤◌, false, IsTrue, IsSome, Some, None, [], length, max, OnOk, OnErr, option_map};
ghost use Rattle.std.specs.Fn.{FnOnceReturnsAtMut, FnOnceTakesAtMut};
ghost use Rattle.blk_ptr.specs.declared.key.Key.{Key};
ghost use Rattle.arc_lists.specs.Adapting.{IsCapacity};
ghost use Rattle.arc_core.specs.PlainShard.{entry_of, opening_shard, size_in};
ghost use Rattle.arc_core.specs.Changes.{come, gone, with_none_passed};
ghost use Rattle.arc_core.specs.Edits.{is_off, placed};
ghost use Rattle.arc_core.specs.Sound.{IsSoundEntry, IsTidy};

mod events;
mod feed;
mod naming;
mod room;
mod scan;
pub mod search;
pub mod walk;

use crate::config::Bounds;
use crate::entries::Entries;
use crate::entry::{Entry, Phase};
use crate::keys::Keys;
use crate::picks::Picks;
use blk_ptr::{Key, NoMemory, State};
use key_table::NO_PLACE;
use std::alloc::Global;
use std::marker::Model;

/// The entries of a shard, with what a feed and a scan for room have in hand. Contracts see a plain shard.
#[derive(Debug, Drop)]
pub struct Table {
    entries: Entries,
    mintime: u64,
    bounds: Bounds,
    passed: Keys,
    phase: Phase,
    picked: Picks,
    picked_bytes: u64,
    marks: usize,
    marked: Keys,
}

impl Model for Table {
    ghost use Rattle.arc_core.specs.PlainTable.{PlainTable};

    ghost Value = { PlainTable };

    ghost use Rattle.arc_core.specs.TableModel.{plain_table, TableKeeps};

    ghost view = { plain_table };

    ghost invariant = { TableKeeps };
}

impl Table {
    pub fn new(alloc: Global, c: u64, mintime: u64, bounds: Bounds) -> Table
        requires { IsCapacity c }
        ensures shard { result.shard ≡ opening_shard c mintime bounds }
        ensures marked { result.marked ≡ [] }
    {
        Table {
            entries: Entries::new(alloc, c),
            mintime,
            bounds,
            passed: Keys::new(alloc),
            phase: Phase::Idle,
            picked: Picks::new(alloc),
            picked_bytes: 0,
            marks: 0,
            marked: Keys::new(alloc),
        }
    }

    /// Makes room for `entries` more entries, and for `marks` more picks and passed keys.
    pub fn reserve(&mut self, entries: usize, marks: usize) -> Result<(), NoMemory>
        ensures table { self.new ≡ record self.old { spare = self.new.spare; marks = self.new.marks } }
        ensures ok { OnOk result (self.new.spare ≡ max self.old.spare entries) }
        ensures marks { OnOk result (self.new.marks ≡ max self.old.marks marks) }
        ensures err { OnErr result (self.new ≡ self.old) }
    {
        // What there is room for in the entries has room everywhere.
        if entries <= self.entries.spare() && marks <= self.marks {
            return Ok(());
        }
        let all = self.marks.max(marks);
        self.passed.reserve(all)?;
        self.picked.reserve(all)?;
        let most = self.entries.len().checked_add(entries).ok_or(NoMemory)?;
        self.marked.reserve(most)?;
        self.entries.reserve(entries)?;
        self.marks = all;
        Ok(())
    }

    /// How many entries there are.
    pub fn len(&self) -> usize
        ensures { result ≡ length self.now.shard.entries }
    {
        self.entries.len()
    }

    /// The entry of a key.
    pub fn find(&self, key: Key) -> Option<&Entry>
        ensures value { option_map (λ e. e.now) result ≡ entry_of key self.now.shard }
        ensures tidy { IsTidy self.now.shard }
    {
        self.entries.find(key)
    }

    /// Changes the entry of a key in place, and puts the key at its sequence's head where nobody holds it then.
    pub fn place<F: FnOnce(&mut Entry)>(&mut self, key: Key, change: F)
        requires there { IsSome (entry_of key self.old.shard) }
        requires takes { IsTidy self.old.shard → (e : Entry) → entry_of key self.old.shard ≡ Some e → FnOnceTakesAtMut F.FnOnce change e }
        requires sound { IsTidy self.old.shard → (e made : Entry) → entry_of key self.old.shard ≡ Some e → FnOnceReturnsAtMut F.FnOnce change e tt made → (made.key ≡ key) × IsSoundEntry made }
        ensures tidy { IsTidy self.old.shard }
        ensures placed { (e made : Entry) × (entry_of key self.old.shard ≡ Some e) × FnOnceReturnsAtMut F.FnOnce change e tt made × (self.new ≡ record self.old { shard = placed made self.old.shard }) }
    {
        self.place_near(NO_PLACE, key, change);
    }

    /// Where the entry of a key stands just now, for the calls that begin near a place. It holds until entries come or go.
    #[inline(always)]
    pub fn place_of(&self, key: Key) -> usize {
        self.entries.place(key)
    }

    /// Changes the entry of a key as `place` does. `near` is where it stood, and may be any number.
    #[inline(always)]
    pub fn place_near<F: FnOnce(&mut Entry)>(&mut self, near: usize, key: Key, change: F)
        requires there { IsSome (entry_of key self.old.shard) }
        requires takes { IsTidy self.old.shard → (e : Entry) → entry_of key self.old.shard ≡ Some e → FnOnceTakesAtMut F.FnOnce change e }
        requires sound { IsTidy self.old.shard → (e made : Entry) → entry_of key self.old.shard ≡ Some e → FnOnceReturnsAtMut F.FnOnce change e tt made → (made.key ≡ key) × IsSoundEntry made }
        ensures tidy { IsTidy self.old.shard }
        ensures placed { (e made : Entry) × (entry_of key self.old.shard ≡ Some e) × FnOnceReturnsAtMut F.FnOnce change e tt made × (self.new ≡ record self.old { shard = placed made self.old.shard }) }
    {
        self.entries.change_near(near, key, change);
    }

    /// Adds an entry of a key that has none, on no sequence.
    pub fn add(&mut self, entry: &Entry)
        requires room { 0 < self.old.spare }
        requires absent { entry_of entry.now.key self.old.shard ≡ None }
        requires off { IsTrue (is_off entry.now) }
        requires sound { IsSoundEntry entry.now }
        ensures { self.new ≡ record self.old { shard = come entry.now self.old.shard; spare = self.old.spare - 1 } }
    {
        self.entries.add(entry);
    }

    /// Removes the entry of a key.
    pub fn remove(&mut self, key: Key)
        requires { IsSome (entry_of key self.old.shard) }
        ensures { self.new ≡ record self.old { shard = gone key self.old.shard; spare = self.old.spare + 1 } }
    {
        self.entries.remove(key);
    }

    /// Forgets the passed keys and the marked ones.
    pub fn end_scan(&mut self)
        ensures now { self.new ≡ record self.old { shard = with_none_passed self.old.shard; marked = [] } }
        ensures tidy { IsTidy self.new.shard }
    {
        self.passed.clear();
        self.marked.clear();
    }

    /// The size of a state in bytes.
    pub fn size(&self, state: State) -> u128
        ensures { result ≡ size_in state self.now.shard }
    {
        self.entries.size(state)
    }

    /// The target in bytes.
    pub fn p(&self) -> u64
        ensures { result ≡ self.now.shard.p }
    {
        self.entries.p()
    }

    /// The capacity in bytes.
    pub fn c(&self) -> u64
        ensures { result ≡ self.now.shard.c }
    {
        self.entries.c()
    }
}
