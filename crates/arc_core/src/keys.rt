//! Keys that are found as fast where there are many as where there are few, and forgotten all at once in as much time as there are.
ghost use Rattle.std.specs.Prelude.{◌≡◌, ℕ, ◌+◌, ◌-◌, ◌<◌, ◌≤◌, false, [], length, IsTrue, OnOk};
ghost use Rattle.arc_lists.specs.ByKey.{with_item};
ghost use Rattle.arc_lists.specs.Sequences.{stands_on};
ghost use Rattle.std.specs.List.{list_any};
ghost use Rattle.blk_ptr.specs.Order.{key_eq};
ghost use Rattle.arc_core.specs.Keys.{empty_keys};

mod many;

use blk_ptr::{Key, NoMemory};
use many::ManyKeys;
use std::alloc::Global;
use std::marker::Model;

// So many keys are looked through faster than one is found by its hash. Most events mark fewer.
const FEW: usize = 8;

/// Keys. Contracts see them in rising order, and the room that is left.
#[derive(Debug, Drop)]
pub struct Keys {
    // The first that came, at most `FEW`.
    few: Vec<Key>,
    // Those that came behind them.
    more: ManyKeys,
}

impl Model for Keys {
    ghost use Rattle.arc_core.specs.Keys.{PlainKeys};

    ghost Value = { PlainKeys };

    ghost use Rattle.arc_core.specs.seats.FewKeys.{keys, KeysKeep};

    ghost view = { keys };

    ghost invariant = { KeysKeep };
}

// Whether a key is one of a few.
fn is_among(few: &[Key], key: Key) -> bool
    ensures { result ≡ list_any (λ k. key_eq k key) few.now }
{
    few.iter().any(|k| *k == key)
}

impl Keys {
    pub fn new(alloc: Global) -> Keys
        ensures { result ≡ empty_keys }
    {
        Keys {
            few: Vec::new(alloc),
            more: ManyKeys::new(alloc),
        }
    }

    /// Makes room for `n` more keys.
    pub fn reserve(&mut self, n: usize) -> Result<(), NoMemory>
        ensures items { self.new.items ≡ self.old.items }
        ensures ok { OnOk result (n ≤ self.new.spare) }
        ensures more { self.old.spare ≤ self.new.spare }
    {
        if self.few.capacity() < FEW {
            self.few.reserve(FEW)?;
        }
        let all = n.checked_add(self.few.len()).ok_or(NoMemory)?;
        self.more.reserve(all)
    }

    /// Whether a key is one of them.
    pub fn has(&self, key: Key) -> bool
        ensures { result ≡ stands_on key self.now.items }
    {
        is_among(&self.few, key) || self.more.has(key)
    }

    // Whether there is none.
    #[inline]
    fn is_empty(&self) -> bool
        ensures { IsTrue result → self.now.items ≡ [] }
    {
        self.few.is_empty() && self.more.is_empty()
    }

    /// Adds a key that isn't there.
    pub fn add(&mut self, key: Key)
        requires room { 0 < self.old.spare }
        requires absent { stands_on key self.old.items ≡ false }
        ensures items { self.new.items ≡ with_item (λ k. k) key self.old.items }
        ensures spare { self.new.spare ≡ self.old.spare - 1 }
    {
        if self.few.len() < FEW.min(self.few.capacity()) {
            self.few.push_reserved(key);
        } else {
            self.more.add(key);
        }
    }

    /// Forgets them all. Most often there is none.
    #[inline(always)]
    pub fn clear(&mut self)
        ensures items { self.new.items ≡ [] }
        ensures spare { self.new.spare ≡ self.old.spare + length self.old.items }
    {
        if self.is_empty() {
            return;
        }
        self.clear_all();
    }

    // Forgets them all, of which there are some.
    fn clear_all(&mut self)
        ensures items { self.new.items ≡ [] }
        ensures spare { self.new.spare ≡ self.old.spare + length self.old.items }
    {
        self.few.clear();
        self.more.clear();
    }
}
