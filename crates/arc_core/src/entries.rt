//! The entries by their keys, each found once by its key's hash, with the sequences on which they stand, the sizes and the target.
ghost use Rattle.std.specs.Prelude.{◌≡◌, ◌+◌, ◌-◌, ◌/◌, ◌<◌, false, length, max, IsSome, OnOk, OnErr, Some, option_map, map};
ghost use Rattle.std.specs.Fn.{FnOnceReturnsAtMut, FnOnceTakesAtMut};
ghost use Rattle.blk_ptr.specs.Size.{IsBlockSize};
ghost use Rattle.arc_lists.specs.Adapting.{IsCapacity};
ghost use Rattle.arc_lists.specs.ByKey.{has_key, item_at, with_change, with_item, without};
ghost use Rattle.arc_lists.specs.Sequences.{taken_off};
ghost use Rattle.arc_core.specs.Changes.{with_place};
ghost use Rattle.arc_core.specs.Entries.{IsChanged, opening_entries};
ghost use Rattle.arc_core.specs.PlainShard.{entry_key};

mod lists;

use crate::entry::Entry;
use crate::rows::{Linked, Rows};
use arc_lists::{Queues, Sizes};
use blk_ptr::{Key, NoMemory};
use key_table::NO_PLACE;
use std::alloc::Global;
use std::marker::Model;

/// The entries with their sequences. Contracts see the entries in rising order of keys, the sequences, the target and the capacity,
/// and the room that is left.
#[derive(Debug, Drop)]
pub struct Entries {
    rows: Rows,
    queues: Queues,
    sizes: Sizes,
    p: u64,
    c: u64,
}

impl Model for Entries {
    ghost use Rattle.arc_core.specs.Entries.{PlainEntries};

    ghost Value = { PlainEntries };

    ghost use Rattle.arc_core.specs.seats.EntryRows.{entries, EntriesKeep};

    ghost view = { entries };

    ghost invariant = { EntriesKeep };
}

impl Entries {
    /// No entries, with this capacity in bytes, from 4,096 to 2^32. Half of it is for MRU (`arc_init` of OpenZFS's `arc.c`).
    pub fn new(alloc: Global, c: u64) -> Entries
        requires { IsCapacity c }
        ensures { result ≡ opening_entries (c / 2) c }
    {
        Entries {
            rows: Rows::new(alloc),
            queues: Queues::new(alloc),
            sizes: Sizes::zero(),
            p: c / 2,
            c,
        }
    }

    /// How many entries there are.
    pub fn len(&self) -> usize
        ensures { result ≡ length self.now.items }
    {
        self.rows.len()
    }

    /// For how many more there is room.
    pub fn spare(&self) -> usize
        ensures { result ≡ self.now.spare }
    {
        self.rows.spare()
    }

    /// Makes room for `n` more entries. After want of memory they are as before.
    pub fn reserve(&mut self, n: usize) -> Result<(), NoMemory>
        ensures entries { self.new ≡ record self.old { spare = self.new.spare } }
        ensures ok { OnOk result (self.new.spare ≡ max self.old.spare n) }
        ensures err { OnErr result (self.new ≡ self.old) }
    {
        let spare = self.rows.spare();
        if n <= spare {
            return Ok(());
        }
        if n > usize::MAX - self.rows.len() {
            return Err(NoMemory);
        }
        self.queues.widen(n - spare)?;
        self.rows.reserve(n)
    }

    /// The entry of a key.
    pub fn find(&self, key: Key) -> Option<&Entry>
        ensures { option_map (λ e. e.now) result ≡ item_at entry_key key self.now.items }
    {
        match self.rows.find(key) {
            Some(linked) => Some(&linked.entry),
            None => None,
        }
    }

    /// Where the row of a key stands just now, for `change_near`. It holds until entries come or go.
    #[inline(always)]
    pub fn place(&self, key: Key) -> usize {
        self.rows.place(key)
    }

    /// Changes the entry of a key in place, which leaves its key. It leaves the sequence on which it stands, and stands at the head of
    /// its state's where nobody holds it then (`arc_change_state` of OpenZFS's `arc.c`). `near` is where its row stood, and may be any
    /// number.
    #[inline(always)]
    pub fn change_near<F: FnOnce(&mut Entry)>(&mut self, near: usize, key: Key, change: F)
        requires there { IsSome (item_at entry_key key self.old.items) }
        requires takes { (e : Entry) → item_at entry_key key self.old.items ≡ Some e → FnOnceTakesAtMut F.FnOnce change e }
        requires keeps { (e made : Entry) → item_at entry_key key self.old.items ≡ Some e → FnOnceReturnsAtMut F.FnOnce change e tt made → made.key ≡ key }
        requires size { IsBlockSize key.size }
        ensures { IsChanged (λ e made. FnOnceReturnsAtMut F.FnOnce change e tt made) key self.old self.new }
    {
        let linked = self.rows.find_mut_near(near, key);
        let before = linked.entry.state;
        change(&mut linked.entry);
        let (state, unheld) = (linked.entry.state, linked.entry.is_unheld());
        // The key leaves its sequence before it comes to the next one, since there may be no room for one more.
        self.sizes.transfer(before, state, key.size);
        self.queues.leave(before, linked.at);
        linked.at = self.queues.enter(state, key, unheld);
    }

    /// Gives the entry of a key another place on the cache device. The key stays where it stands.
    pub fn put_place(&mut self, key: Key, place: Option<u64>)
        requires { IsSome (item_at entry_key key self.old.items) }
        ensures { self.new ≡ record self.old { items = with_change entry_key key (with_place place) self.old.items } }
    {
        let linked = self.rows.find_mut_near(NO_PLACE, key);
        linked.entry.place = place;
    }

    /// Adds an entry of a key that has none, on no sequence.
    pub fn add(&mut self, entry: &Entry)
        requires room { 0 < self.old.spare }
        requires absent { has_key entry_key entry.now.key self.old.items ≡ false }
        requires size { IsBlockSize entry.now.key.size }
        ensures { self.new ≡ record self.old { items = with_item entry_key entry.now self.old.items; spare = self.old.spare - 1 } }
    {
        let linked = Linked {
            at: None,
            entry: *entry,
        };
        self.rows.add(entry.key, linked);
        self.sizes.add(entry.state, entry.key.size);
    }

    /// Removes the entry of a key: its size no longer counts, and the key stands on no sequence.
    pub fn remove(&mut self, key: Key)
        requires { IsSome (item_at entry_key key self.old.items) }
        ensures { self.new ≡ record self.old {
          items = without entry_key key self.old.items;
          sequences = taken_off key self.old.sequences;
          spare = self.old.spare + 1;
        } }
    {
        let Linked { at, entry } = self.rows.remove(key);
        self.sizes.take(entry.state, key.size);
        self.queues.leave(entry.state, at);
    }
}
