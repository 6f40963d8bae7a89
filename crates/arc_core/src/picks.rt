//! What the feed has picked, in the order of its picks, each found by its key's hash.
ghost use Rattle.std.specs.Prelude.{◌≡◌, ◌+◌, ◌-◌, ◌<◌, ◌≤◌, ◌++◌, ◌∷◌, [], None, map, sum_by, IfSome, IfNone, OnOk};
ghost use Rattle.key_table.specs.PlainTable.{HasKey, IsAmong, row};
ghost use Rattle.arc_lists.specs.Walks.{first_of};
ghost use Rattle.arc_core.specs.Changes.{pick_of, without_pick, writing_phase};
ghost use Rattle.arc_core.specs.seats.KeyRows.{name};
ghost use Rattle.arc_core.specs.Picks.{no_picks};

use crate::entry::{Phase, Picked};
use arc_links::Links;
use arc_lists::Name;
use blk_ptr::{Key, NoMemory};
use key_table::Table;
use std::alloc::Global;
use std::marker::Model;

/// The picks. Contracts see them in their order, and the room that is left.
#[derive(Debug, Drop)]
pub struct Picks {
    // The last pick is at the head.
    list: Links<Picked>,
    // The place of each key's node.
    places: Table<Name, usize>,
    spare: usize,
}

impl Model for Picks {
    ghost use Rattle.arc_core.specs.Picks.{PlainPicks};

    ghost Value = { PlainPicks };

    ghost use Rattle.arc_core.specs.PickPlaces.{picks, PicksKeep};

    ghost view = { picks };

    ghost invariant = { PicksKeep };
}

// The place of a key's node.
fn place_of(places: &Table<Name, usize>, key: Key) -> Option<usize>
    ensures some { IfSome result (λ at. IsAmong (row (name key) at) places.now.rows) }
    ensures none { IfNone result (HasKey (name key) places.now.rows → ⊥) }
{
    places.get(&Name(key)).copied()
}

impl Picks {
    pub fn new(alloc: Global) -> Picks
        ensures { result ≡ no_picks }
    {
        Picks {
            list: Links::new(alloc),
            places: Table::new(alloc),
            spare: 0,
        }
    }

    /// Makes room for `n` more picks.
    pub fn reserve(&mut self, n: usize) -> Result<(), NoMemory>
        ensures items { self.new.items ≡ self.old.items }
        ensures ok { OnOk result (n ≤ self.new.spare) }
        ensures more { self.old.spare ≤ self.new.spare }
    {
        if self.list.reserve(n).is_err() {
            return Err(NoMemory);
        }
        if self.places.reserve(n).is_err() {
            return Err(NoMemory);
        }
        self.spare = self.spare.max(n);
        Ok(())
    }

    /// The pick of a key.
    pub fn find(&self, key: Key) -> Option<Picked>
        ensures { result ≡ pick_of key self.now.items }
    {
        match place_of(&self.places, key) {
            Some(at) => Some(self.list.key_at(at)),
            None => None,
        }
    }

    // The key of the first pick.
    fn first(&self) -> Option<Key>
        ensures { result ≡ first_of (map (λ pick. pick.key) self.now.items) }
    {
        match self.list.last() {
            Some(at) => Some(self.list.key_at(at).key),
            None => None,
        }
    }

    /// A feed that writes goes on as long as there is a pick.
    pub fn phase(&self) -> Phase
        ensures { result ≡ writing_phase self.now.items }
    {
        match self.first() {
            Some(_) => Phase::Writing,
            None => Phase::Idle,
        }
    }

    /// Adds a pick of a key that has none, the last one so far.
    pub fn push(&mut self, pick: Picked)
        requires room { 0 < self.old.spare }
        requires absent { pick_of pick.key self.old.items ≡ None }
        ensures items { self.new.items ≡ self.old.items ++ pick ∷ [] }
        ensures spare { self.new.spare ≡ self.old.spare - 1 }
    {
        let at = self.list.push_head(pick);
        self.places.insert(Name(pick.key), at);
        self.spare -= 1;
    }

    /// Removes the pick of a key, where there is one, and answers how many bytes it has.
    pub fn take(&mut self, key: Key) -> u64
        ensures items { self.new.items ≡ without_pick key self.old.items }
        ensures bytes { sum_by (λ pick. pick.key.size) self.new.items + result ≡ sum_by (λ pick. pick.key.size) self.old.items }
        ensures spare { self.new.spare ≡ self.old.spare }
    {
        match place_of(&self.places, key) {
            Some(at) => {
                let _ = self.places.remove(&Name(key));
                self.list.remove(at).key.size
            }
            None => 0,
        }
    }

    /// Forgets them all.
    pub fn clear(&mut self)
        ensures items { self.new.items ≡ [] }
        ensures spare { self.new.spare ≡ self.old.spare }
    {
        while let Some(key) = self.first() {
            let _ = self.take(key);
        }
    }
}
