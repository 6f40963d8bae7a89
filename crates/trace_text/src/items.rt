//! Lists of the values of traces and reports.
ghost use Rattle.std.specs.Prelude.{◌≡◌, ◌<◌, ◌^◌, ◌↔◌, IfOk, IsTrue, length, slice_get};
ghost use Rattle.std.specs.Arc.{arc_value};
ghost use Rattle.trace_text.specs.Owned.{history_at};

use crate::ends::ShardEnd;
use crate::mapping::Mapping;
use crate::op::Op;
use crate::reply::Reply;
use arc_core::{History as EventList, Restored, Shard};
use blk_ptr::Ptr;
use std::alloc::AllocError;
use std::marker::Model;
use std::sync::Arc;

/// A list whose vector is taken in and given back as it is. Contracts see the list.
#[derive(Drop)]
pub struct Items<T> {
    items: Vec<T>,
}

/// The block pointers of a trace, in the order of their lines.
pub type Blocks = Items<Ptr>;

/// The mappings of a trace, in the order of their lines.
pub type Objects = Items<Mapping>;

/// The operations of a trace, in the order of their lines.
pub type Ops = Items<Op>;

/// The replies of a run, in the order of the operations.
pub type Replies = Items<Reply>;

/// The histories of all shards, in the order of their numbers.
pub type Histories = Items<History>;

/// What the shards end with, in the order of their numbers.
pub type Ends = Items<ShardEnd>;

/// The keys that the start of a cache device restored, in the order in which they were found.
pub type RestoredList = Items<Restored>;

impl<T> Model for Items<T> {
    ghost use Rattle.std.specs.Prelude.{List};

    ghost Value = { List T };

    ghost view = { λ all. all.items.items };
}

/// The events of one shard, in their order: in a list of their own, or in the shard, which a closed cache owns too. Contracts see the events.
#[derive(Drop)]
pub struct History {
    events: Events,
}

/// Where the events of a shard lie.
#[derive(Drop)]
enum Events {
    Listed(EventList),
    InShard(Arc<Vec<Shard>>, usize),
}

impl Model for History {
    ghost use Rattle.std.specs.Prelude.{List};
    ghost use Rattle.arc_core.specs.declared.event.Event.{Event};

    ghost Value = { List Event };

    ghost use Rattle.trace_text.specs.Owned.{events_in};

    ghost view = { λ history. events_in history.events };
}

impl History {
    /// Takes the list as it is. It takes no memory.
    pub fn of_events(events: EventList) -> History
        ensures { result ≡ events.events }
    {
        History {
            events: Events::Listed(events),
        }
    }

    /// The history of the shard of this number, counted from 0; none past the last. The shards get one more owner, and no event is copied.
    pub fn of_shard(shards: &Arc<Vec<Shard>>, number: usize) -> Result<History, AllocError>
        ensures { IfOk result (λ history. history ≡ history_at (arc_value shards.now).items number) }
    {
        let shards = Arc::try_clone(shards)?;
        Ok(History {
            events: Events::InShard(shards, number),
        })
    }

    /// The events, in their order.
    pub fn iter(&self) -> arc_core::Events<'_>
        ensures events { result ≡ self.now }
        ensures few { length self.now < 2 ^ 32 }
    {
        match &self.events {
            Events::Listed(events) => events.iter(),
            Events::InShard(shards, number) => events_of(shards, *number),
        }
    }

    /// How many there are.
    pub fn len(&self) -> usize
        ensures { result ≡ length self.now }
    {
        match &self.events {
            Events::Listed(events) => events.len(),
            Events::InShard(shards, number) => match shards.get(*number) {
                Some(shard) => shard.history().len(),
                None => 0,
            },
        }
    }

    /// Whether there is none.
    pub fn is_empty(&self) -> bool
        ensures { IsTrue result ↔ (length self.now ≡ 0) }
    {
        self.len() == 0
    }
}

/// The events of the shard of this number, counted from 0; none past the last.
fn events_of(shards: &[Shard], number: usize) -> arc_core::Events<'_>
    ensures events { result ≡ history_at shards.now number }
    ensures few { length (history_at shards.now number) < 2 ^ 32 }
{
    let Some(shard) = shards.get(number) else {
        return arc_core::Events::none();
    };
    shard.history().iter()
}

impl<T> Items<T> {
    /// Takes the list as it is. It takes no memory.
    pub fn from_vec(items: Vec<T>) -> Items<T>
        ensures { result ≡ items.items }
    {
        Items { items }
    }

    /// Gives the list back. It takes no memory.
    pub fn into_vec(self) -> Vec<T>
        ensures { result.items ≡ self }
    {
        self.items
    }

    /// How many there are.
    pub fn len(&self) -> usize
        ensures { result ≡ length self.now }
    {
        self.items.len()
    }

    /// Whether there is none.
    pub fn is_empty(&self) -> bool
        ensures { IsTrue result ↔ (length self.now ≡ 0) }
    {
        self.items.is_empty()
    }

    /// All of them, in order.
    pub fn as_slice(&self) -> &[T]
        ensures { result.now ≡ self.now }
    {
        &self.items
    }
}

impl<T: Copy> Items<T> {
    /// The one of this number, counted from 0, or None past the last.
    pub fn get(&self, number: u32) -> Option<T>
        ensures { result ≡ slice_get self.now number }
    {
        self.items.get(number as usize).copied()
    }
}
