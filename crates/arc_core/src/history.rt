//! The events of a shard in their order, each as a run of bytes. Contracts see the list, and for how many more events there is room.
ghost use Rattle.std.specs.Prelude.{◌≡◌, ◌+◌, ◌<◌, ◌≤◌, ◌^◌, ◌++◌, ◌∷◌, ◌↔◌, [], length, take, IsTrue, OnOk, OnErr};
ghost use Rattle.std.specs.Iterator.{YieldsFirst, item_count};
ghost use Rattle.arc_core.specs.EventLog.{after_events};

use crate::event::Event;
use crate::packed::{LONGEST_EVENT, Packed, take_packed, write_packed};
use blk_ptr::NoMemory;
use std::alloc::Global;
use std::marker::Model;

// How many events a history has at most, those included for which there is room, so that the holds on an entry are fewer than 2^32.
const MOST_EVENTS: usize = u32::MAX as usize;

/// A list of events.
#[derive(Debug, Drop)]
pub struct History {
    bytes: Vec<u8>,
    len: usize,
    room: usize,
}

impl Model for History {
    ghost use Rattle.arc_core.specs.EventLog.{EventLog};

    ghost Value = { EventLog };

    ghost use Rattle.arc_core.specs.HistoryModel.{log_of, HistoryKeeps};

    ghost view = { log_of };

    ghost invariant = { HistoryKeeps };
}

/// The events of a history that are left to go over, in their order. Contracts see the list.
#[derive(Debug, Drop)]
pub struct Events<'a> {
    bytes: &'a [u8],
    left: usize,
}

impl<'a> Model for Events<'a> {
    ghost use Rattle.std.specs.Prelude.{List};
    ghost use Rattle.arc_core.specs.declared.event.Event.{Event};
    ghost use Rattle.arc_core.specs.EventLog.{events_in};

    ghost Value = { List Event };

    ghost view = { λ e. events_in e.left e.bytes.now };
}

impl Events<'_> {
    /// No events.
    pub fn none() -> Events<'static>
        ensures { result ≡ [] }
    {
        Events {
            bytes: &[],
            left: 0,
        }
    }
}

impl<'a> Iterator for Events<'a> {
    type Item = Event;

    ghost next_gives = { YieldsFirst (λ events. events) };

    ghost remaining = { item_count (λ events. events) };

    #[inline(always)]
    fn next(&mut self) -> Option<Event> {
        if self.left == 0 {
            return None;
        }
        let (packed, rest) = take_packed(self.bytes);
        self.bytes = rest;
        self.left -= 1;
        Some(packed.event())
    }
}

// What is left of the bytes behind so many events.
fn behind(bytes: &[u8], count: usize) -> &[u8]
    ensures { result.now ≡ after_events count bytes.now }
{
    let mut rest = bytes;
    for _ in 0..count {
        let (_, more) = take_packed(rest);
        rest = more;
    }
    rest
}

impl History {
    /// No events, and no room.
    pub fn new(alloc: Global) -> History
        ensures events { result.events ≡ [] }
        ensures room { result.room ≡ 0 }
    {
        History {
            bytes: Vec::new(alloc),
            len: 0,
            room: 0,
        }
    }

    /// How many there are.
    pub fn len(&self) -> usize
        ensures { result ≡ length self.now.events }
    {
        self.len
    }

    /// For how many more there is room.
    pub fn room(&self) -> usize
        ensures room { result ≡ self.now.room }
        ensures few { self.now.room + length self.now.events < 2 ^ 32 }
    {
        self.room
    }

    /// Makes room for so many beyond those for which there is room. Err is want of memory, and so is a history that would have more than 2^32 - 1 events.
    pub fn reserve(&mut self, more: usize) -> Result<(), NoMemory>
        ensures events { self.new.events ≡ self.old.events }
        ensures ok { OnOk result (self.old.room + more ≤ self.new.room) }
        ensures kept { self.old.room ≤ self.new.room }
        ensures err { OnErr result (self.new ≡ self.old) }
    {
        let most = MOST_EVENTS - self.len;
        let wanted = self.room.checked_add(more).ok_or(NoMemory)?;
        if most < wanted {
            return Err(NoMemory);
        }
        self.bytes.reserve(wanted * LONGEST_EVENT)?;
        let free = (self.bytes.capacity() - self.bytes.len()) / LONGEST_EVENT;
        self.room = free.min(most);
        Ok(())
    }

    /// Appends an event, and makes room first where there is none. Err is want of memory, and so is a history that has 2^32 - 1 events.
    pub fn push(&mut self, event: Event) -> Result<(), NoMemory>
        ensures events { OnOk result (self.new.events ≡ self.old.events ++ event ∷ []) }
        ensures err { OnErr result (self.new ≡ self.old) }
    {
        if self.room() == 0 {
            self.reserve(1)?;
        }
        self.push_reserved(event);
        Ok(())
    }

    /// Appends an event for which there is room. It takes no memory.
    pub fn push_reserved(&mut self, event: Event)
        requires { 0 < self.old.room }
        ensures events { self.new.events ≡ self.old.events ++ event ∷ [] }
        ensures room { self.new.room + 1 ≡ self.old.room }
    {
        let packed = Packed::of(event);
        write_packed(&mut self.bytes, &packed);
        self.len += 1;
        self.room -= 1;
    }

    /// Whether there is none.
    pub fn is_empty(&self) -> bool
        ensures { IsTrue result ↔ (self.now.events ≡ []) }
    {
        self.len() == 0
    }

    /// The events, in their order.
    pub fn iter(&self) -> Events<'_>
        ensures events { result ≡ self.now.events }
        ensures few { length self.now.events < 2 ^ 32 }
    {
        Events {
            bytes: &self.bytes,
            left: self.len,
        }
    }

    /// Forgets the events from this place on.
    pub fn truncate(&mut self, len: usize)
        requires { len ≤ length self.old.events }
        ensures events { self.new.events ≡ take len self.old.events }
        ensures room { self.new.room ≡ self.old.room }
    {
        let bytes = self.bytes.as_slice();
        let rest = behind(bytes, len);
        let kept = bytes.len() - rest.len();
        self.bytes.truncate(kept);
        self.len = len;
    }
}
