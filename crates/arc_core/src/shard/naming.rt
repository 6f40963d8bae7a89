//! The victims of an event, named one by one before it is made.
ghost use Rattle.std.specs.Prelude.{◌≡◌, [], ◌||◌, false, IsTrue, IsSome, IfSome, IfNone};
ghost use Rattle.blk_ptr.specs.declared.key.Key.{Key};
ghost use Rattle.blk_ptr.specs.Order.{key_eq};
ghost use Rattle.arc_lists.specs.Sequences.{stands_on};
ghost use Rattle.arc_core.specs.Halts.{IsSought};
ghost use Rattle.arc_core.specs.PlainShard.{entry_of};
ghost use Rattle.arc_core.specs.ShardLog.{AreAllNamed, IsUnnamed};
ghost use Rattle.arc_core.specs.Search.{Stands};
ghost use Rattle.arc_core.specs.Sparing.{next_victim, victims};
ghost use Rattle.arc_core.specs.Step.{legal};

use super::Shard;
use super::halts::Sought;
use crate::event::Event;
use crate::table::Table;
use crate::table::search::Search;
use blk_ptr::Key;

// Begins the search for an event's victims, where the event has any.
fn begin(table: &Table, e: &Event, search: &mut Search) -> bool
    requires { IsTrue (legal table.now.shard e.now) }
    ensures some { IsTrue result → Stands table.now.shard table.now.marked (victims table.now.shard e.now) search.new }
    ensures none { result ≡ false → (search.new ≡ search.old) × (victims table.now.shard e.now ≡ []) }
{
    match *e {
        Event::Miss { n, key, t } => *search = table.search_of_miss(n, key, t),
        Event::Insert { n, key, digest, t } => *search = table.search_of_insert(n, key, digest, t),
        Event::Resize { c, .. } => *search = table.search_of_capacity(c),
        Event::Pass { .. }
        | Event::Hit { .. }
        | Event::Arrive { .. }
        | Event::Fail { .. }
        | Event::Drop { .. }
        | Event::Past { .. }
        | Event::Hand { .. }
        | Event::Release { .. }
        | Event::Pick { .. }
        | Event::FeedEnd { .. }
        | Event::Set { .. }
        | Event::Leave { .. }
        | Event::Clear { .. }
        | Event::Restore { .. } => return false,
    }
    true
}

// The first victim that isn't marked, by a search from its start.
fn first_victim(sought: &mut Sought, table: &Table, e: &Event) -> Option<Key>
    requires legal { IsTrue (legal table.now.shard e.now) }
    requires sought { IsSought table.now.shard table.now.marked sought.old }
    ensures sought { IsSought table.now.shard table.now.marked sought.new }
    ensures value { result ≡ next_victim table.now.shard table.now.marked e.now }
{
    if begin(table, e, &mut sought.search) {
        sought.event = Some(*e);
        return table.search_on(&mut sought.search);
    }
    None
}

// The first victim that isn't marked: a search that has begun for this event goes on from where it stands.
fn unmarked_victim(sought: &mut Sought, table: &Table, e: &Event) -> Option<Key>
    requires legal { IsTrue (legal table.now.shard e.now) }
    requires sought { IsSought table.now.shard table.now.marked sought.old }
    ensures sought { IsSought table.now.shard table.now.marked sought.new }
    ensures value { result ≡ next_victim table.now.shard table.now.marked e.now }
{
    if sought.is_for(e) {
        return table.search_on(&mut sought.search);
    }
    first_victim(sought, table, e)
}

impl Shard {
    // The first key that an event evicts or drops, and that isn't marked.
    fn next_victim(&mut self, e: &Event) -> Option<Key>
        requires { IsTrue (legal self.old.now e.now) }
        ensures log { self.new ≡ self.old }
        ensures value { result ≡ next_victim self.old.now self.old.marked e.now }
    {
        unmarked_victim(&mut self.halts.sought, &self.table, e)
    }

    /// The first key that an event would evict or drop, and that isn't marked. None: every other key that isn't marked has the same
    /// entry after the event. Only a miss, an insertion and a resize have victims.
    pub fn victim(&mut self, e: &Event) -> Option<Key>
        requires { IsTrue (legal self.old.now e.now) }
        ensures log { self.new ≡ self.old }
        ensures value { result ≡ next_victim self.old.now self.old.marked e.now }
        ensures some { IfSome result (λ k. IsUnnamed k e.now self.old) }
        ensures none { IfNone result (AreAllNamed e.now self.old) }
    {
        // For the proof: what the shard keeps of itself holds here.
        let _sound = &self.history;
        self.next_victim(e)
    }

    /// Marks a key that has an entry, so that `victim` doesn't name it again. The marks are forgotten by `unmark_all`, and by every
    /// event but a pass and a pick.
    pub fn mark(&mut self, key: Key)
        requires { IsSome (entry_of key self.old.now) }
        ensures log { self.new ≡ record self.old { marked = self.new.marked } }
        ensures marked { (j : Key) → stands_on j self.new.marked ≡ (key_eq key j || stands_on j self.old.marked) }
    {
        if !self.table.is_marked(key) {
            self.table.mark(key);
        }
    }

    /// Forgets the marks.
    pub fn unmark_all(&mut self)
        ensures { self.new ≡ record self.old { marked = [] } }
    {
        self.table.unmark_all();
        self.halts.sought.event = None;
    }
}
