//! The keys that were marked as victims of an event, and those that may be, and the room for more.
ghost use Rattle.std.specs.Prelude.{◌≡◌, ◌+◌, ◌++◌, ◌∷◌, [], ◌<◌, ◌≤◌, ◌↔◌, Bool, false, not, find, vec_len, vec_capacity, IsTrue, IsSome, Some, OnOk, OnErr};
ghost use Rattle.blk_ptr.specs.declared.key.Key.{Key};
ghost use Rattle.blk_ptr.specs.declared.state.State.{State};
ghost use Rattle.arc_lists.specs.ByKey.{with_item};
ghost use Rattle.arc_lists.specs.Queues.{IsSequenceOf};
ghost use Rattle.arc_lists.specs.Sequences.{sequence_of, stands_on};
ghost use Rattle.arc_lists.specs.Walks.{oldest_first};
ghost use Rattle.arc_core.specs.PlainShard.{entry_of, members};

use super::Table;
use blk_ptr::{Key, NoMemory};

impl Table {
    /// Whether a key is marked.
    pub fn is_marked(&self, key: Key) -> bool
        ensures { result ≡ stands_on key self.now.marked }
    {
        self.marked.has(key)
    }

    /// Marks a key that has an entry.
    pub fn mark(&mut self, key: Key)
        requires there { IsSome (entry_of key self.old.shard) }
        requires marked { IsSequenceOf (members self.old.shard) self.old.marked }
        requires unmarked { stands_on key self.old.marked ≡ false }
        ensures { self.new ≡ record self.old { marked = with_item (λ k. k) key self.old.marked } }
    {
        self.marked.add(key);
    }

    /// Whether there is room for `entries` more entries, and for `marks` more picks and passed keys.
    #[inline]
    pub fn has_room(&self, entries: usize, marks: usize) -> bool
        ensures { IsTrue result ↔ ((entries ≤ self.now.spare) × (marks ≤ self.now.marks)) }
    {
        entries <= self.entries.spare() && marks <= self.marks
    }

    /// Makes room for `entries` more entries, and for `marks` more picks and passed keys. Where there is too little, room for a fourth
    /// of the entries is made beside, so that not each event that adds a key makes room anew.
    pub fn reserve_more(&mut self, entries: usize, marks: usize) -> Result<(), NoMemory>
        ensures table { self.new ≡ record self.old { spare = self.new.spare; marks = self.new.marks } }
        ensures entries { OnOk result (entries ≤ self.new.spare) }
        ensures marks { OnOk result (marks ≤ self.new.marks) }
        ensures kept_entries { self.old.spare ≤ self.new.spare }
        ensures kept_marks { self.old.marks ≤ self.new.marks }
        ensures err { OnErr result (self.new ≡ self.old) }
    {
        if self.has_room(entries, marks) {
            return Ok(());
        }
        let more = self.len() / 4;
        self.reserve(entries.max(more), marks.saturating_add(more))
    }

    /// Forgets the marked keys.
    pub fn unmark_all(&mut self)
        ensures { self.new ≡ record self.old { marked = [] } }
    {
        self.marked.clear();
    }
}
