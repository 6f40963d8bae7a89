//! The table itself.
ghost use Rattle.std.specs.Prelude.{◌≡◌, ◌+◌, ◌-◌, ◌<◌, length, max, OnOk, OnErr, IfSome, IfNone};
ghost use Rattle.std.specs.Borrow.{sem};
ghost use Rattle.key_table.specs.PlainTable.{AreApart, Changes, Gains, HasKey, IsAmong, Loses, no_rows, row};

use crate::chain::{
    NO_PLACE, Slot, chain_of, find, find_by_hash, find_near, place_in_front, set_next, widen,
};
use crate::hashed::Hashed;
use crate::memory::NoMemory;
use slab::Slab;
use std::alloc::Global;
use std::marker::Model;
use std::mem;

/// Rows by their keys, each key once. Contracts see the rows and the room that is left.
#[derive(Debug, Drop)]
pub struct Table<K: Hashed, V> {
    slots: Slab<Slot<K, V>>,
    // The place of the first slot of each chain.
    heads: Vec<usize>,
    spare: usize,
}

impl<K: Hashed, V> Model for Table<K, V> {
    ghost use Rattle.key_table.specs.PlainTable.{PlainTable, table_code};

    ghost Value = { PlainTable K V };

    ghost coded = { table_code K.code V.code };

    ghost use Rattle.key_table.specs.Indexed.{plain, IsTable};

    ghost view = { plain };

    ghost invariant = { IsTable K.hash };
}

impl<K: Hashed + Drop, V> Table<K, V> {
    ghost use Rattle.key_table.specs.Lends.{lends_value};

    /// The empty table, without room.
    pub fn new(alloc: Global) -> Table<K, V>
        ensures { result ≡ no_rows }
    {
        Table {
            slots: Slab::new(alloc),
            heads: Vec::new(alloc),
            spare: 0,
        }
    }

    /// How many rows there are.
    pub fn len(&self) -> usize
        ensures { result ≡ length self.now.rows }
    {
        self.slots.len()
    }

    /// For how many more rows there is room.
    pub fn spare(&self) -> usize
        ensures { result ≡ self.now.spare }
    {
        self.spare
    }

    /// Makes room for `n` more rows. After want of memory the rows and the room are as before.
    pub fn reserve(&mut self, n: usize) -> Result<(), NoMemory>
        ensures rows { self.new ≡ record self.old { spare = self.new.spare } }
        ensures ok { OnOk result (self.new.spare ≡ max self.old.spare n) }
        ensures err { OnErr result (self.new ≡ self.old) }
    {
        if n > self.spare {
            let all = self.slots.len().checked_add(n).ok_or(NoMemory)?;
            self.slots.reserve(n)?;
            widen(&mut self.slots, &mut self.heads, all)?;
            self.spare = n;
        }
        Ok(())
    }

    /// The value of a key.
    pub fn get(&self, key: &K) -> Option<&V>
        ensures some { IfSome result (λ v. IsAmong (row key.now v.now) self.now.rows) }
        ensures none { IfNone result (HasKey key.now self.now.rows → ⊥) }
    {
        let at = find_by_hash(&self.slots, &self.heads, key)?;
        Some(&self.slots[at].value)
    }

    /// The value of a key, to write.
    #[inline(always)]
    pub fn get_mut(&mut self, key: &K) -> Option<&mut V>
        ensures* writes_back { sem 𝓛 (lends_value K.row V.row K.Hashed self.entry key.now result) }
        ensures some { IfSome result (λ v. IsAmong (row key.now v.now) self.old.rows) }
        ensures none { IfNone result (HasKey key.now self.old.rows → ⊥) }
    {
        self.get_mut_near(NO_PLACE, key)
    }

    /// Where the row of a key stands just now, for `get_mut_near`. `NO_PLACE` where there is none. It holds until rows come or go.
    #[inline(always)]
    pub fn place(&self, key: &K) -> usize {
        find_by_hash(&self.slots, &self.heads, key).unwrap_or(NO_PLACE)
    }

    /// The value of a key, to write. `near` is where its row stood, so that there is mostly nothing to search; it may be any number.
    #[inline(always)]
    pub fn get_mut_near(&mut self, near: usize, key: &K) -> Option<&mut V>
        ensures* writes_back { sem 𝓛 (lends_value K.row V.row K.Hashed self.entry key.now result) }
        ensures some { IfSome result (λ v. IsAmong (row key.now v.now) self.old.rows) }
        ensures none { IfNone result (HasKey key.now self.old.rows → ⊥) }
    {
        match find_near(&self.slots, &self.heads, near, key) {
            Some(at) => Some(&mut self.slots[at].value),
            None => None,
        }
    }

    /// Adds the row of a key that has none.
    pub fn insert(&mut self, key: K, value: V)
        requires room { 0 < self.old.spare }
        requires absent { HasKey key self.old.rows → ⊥ }
        ensures rows { Gains self.old.rows self.new.rows (row key value) }
        ensures apart { AreApart self.new.rows }
        ensures spare { self.new.spare ≡ self.old.spare - 1 }
    {
        let chain = chain_of(&key, self.heads.len());
        let next = self.heads[chain];
        let at = self.slots.insert_reserved(Slot { next, key, value });
        // A place is below the capacity, a `usize`, so it is never `NO_PLACE`.
        let _capacity = self.slots.capacity();
        self.heads[chain] = at;
        self.spare -= 1;
    }

    /// Removes the row of a key, and answers its value.
    pub fn remove(&mut self, key: &K) -> V
        requires { HasKey key.now self.old.rows }
        ensures value { IsAmong (row key.now result) self.old.rows }
        ensures rows { Loses self.old.rows self.new.rows key.now }
        ensures apart { AreApart self.new.rows }
        ensures spare { self.new.spare ≡ self.old.spare + 1 }
    {
        let chain = chain_of(key, self.heads.len());
        let at = find(&self.slots, self.heads[chain], key).unwrap();
        let before = place_in_front(&self.slots, self.heads[chain], at);
        let Slot {
            next,
            key: _,
            value,
        } = self.slots.remove(at);
        if before == NO_PLACE {
            self.heads[chain] = next;
        } else {
            set_next(&mut self.slots, before, next);
        }
        self.spare += 1;
        value
    }

    /// Puts another value in the place of a key's, and answers the one that was there.
    pub fn set(&mut self, key: &K, value: V) -> V
        requires { HasKey key.now self.old.rows }
        ensures value { IsAmong (row key.now result) self.old.rows }
        ensures rows { Changes self.old.rows self.new.rows (row key.now value) }
        ensures apart { AreApart self.new.rows }
        ensures spare { self.new.spare ≡ self.old.spare }
    {
        let chain = chain_of(key, self.heads.len());
        let at = find(&self.slots, self.heads[chain], key).unwrap();
        mem::replace(&mut self.slots[at].value, value)
    }
}
