//! Keys that are found by their hashes, and forgotten all at once in as much time as there are.
ghost use Rattle.std.specs.Prelude.{◌≡◌, ℕ, ◌+◌, ◌-◌, ◌<◌, ◌≤◌, false, [], ◌++◌, ◌∷◌, length, vec_len, vec_capacity, IsTrue, OnOk, OnErr};
ghost use Rattle.arc_lists.specs.ByKey.{with_item};
ghost use Rattle.arc_lists.specs.Sequences.{stands_on};
ghost use Rattle.arc_core.specs.Keys.{empty_keys};
ghost use Rattle.arc_core.specs.seats.KeyRows.{AreListed, AreListedBut};

use arc_lists::Name;
use blk_ptr::{Key, NoMemory};
use key_table::Table;
use std::alloc::Global;
use std::marker::Model;

/// Keys. Contracts see them in rising order, and the room that is left.
#[derive(Debug, Drop)]
pub struct ManyKeys {
    rows: Table<Name, ()>,
    // The same keys, in the order in which they came.
    order: Vec<Key>,
}

impl Model for ManyKeys {
    ghost use Rattle.arc_core.specs.Keys.{PlainKeys};

    ghost Value = { PlainKeys };

    ghost use Rattle.arc_core.specs.seats.KeyRows.{keys, KeysKeep};

    ghost view = { keys };

    ghost invariant = { KeysKeep };
}

// Takes one key off, where it is there.
fn take_off(rows: &mut Table<Name, ()>, order: &[Key], key: Key)
    requires { AreListedBut key rows.old.rows order.now }
    ensures listed { AreListed rows.new.rows order.now }
    ensures room { rows.new.spare + length rows.new.rows ≡ rows.old.spare + length rows.old.rows }
{
    if rows.get(&Name(key)).is_some() {
        let () = rows.remove(&Name(key));
    }
}

// Takes the keys off that are listed, which are all.
fn take_all(rows: &mut Table<Name, ()>, order: &mut Vec<Key>)
    requires { AreListed rows.old.rows order.old.items }
    ensures rows { rows.new.rows ≡ [] }
    ensures order { order.new.items ≡ [] }
    ensures spare { rows.new.spare ≡ rows.old.spare + length rows.old.rows }
    ensures capacity { vec_capacity order.new ≡ vec_capacity order.old }
{
    while let Some(key) = order.pop() {
        take_off(rows, order, key);
    }
}

// Puts a key behind the others, for which there is room.
fn put_last(order: &mut Vec<Key>, key: Key)
    requires { vec_len order.old < vec_capacity order.old }
    ensures items { order.new.items ≡ order.old.items ++ key ∷ [] }
    ensures len { vec_len order.new ≡ vec_len order.old + 1 }
    ensures capacity { vec_capacity order.old ≤ vec_capacity order.new }
{
    let _ = order.push(key);
}

impl ManyKeys {
    pub fn new(alloc: Global) -> ManyKeys
        ensures { result ≡ empty_keys }
    {
        ManyKeys {
            rows: Table::new(alloc),
            order: Vec::new(alloc),
        }
    }

    /// Makes room for `n` more keys.
    pub fn reserve(&mut self, n: usize) -> Result<(), NoMemory>
        ensures items { self.new.items ≡ self.old.items }
        ensures ok { OnOk result (n ≤ self.new.spare) }
        ensures more { self.old.spare ≤ self.new.spare }
    {
        self.order.reserve(n)?;
        if self.rows.reserve(n).is_err() {
            return Err(NoMemory);
        }
        Ok(())
    }

    /// Whether a key is one of them.
    pub fn has(&self, key: Key) -> bool
        ensures { result ≡ stands_on key self.now.items }
    {
        !self.order.is_empty() && self.rows.get(&Name(key)).is_some()
    }

    /// Whether there is none.
    #[inline]
    pub fn is_empty(&self) -> bool
        ensures { IsTrue result → self.now.items ≡ [] }
    {
        self.order.is_empty()
    }

    /// Adds a key that isn't there.
    pub fn add(&mut self, key: Key)
        requires room { 0 < self.old.spare }
        requires absent { stands_on key self.old.items ≡ false }
        ensures items { self.new.items ≡ with_item (λ k. k) key self.old.items }
        ensures spare { self.new.spare ≡ self.old.spare - 1 }
    {
        self.rows.insert(Name(key), ());
        put_last(&mut self.order, key);
    }

    /// Forgets them all.
    pub fn clear(&mut self)
        ensures items { self.new.items ≡ [] }
        ensures spare { self.new.spare ≡ self.old.spare + length self.old.items }
    {
        take_all(&mut self.rows, &mut self.order);
    }
}
