//! The events of a cell in their order, each as a run of bytes. Contracts see the list, and for how many more events there is room.
ghost use Rattle.std.specs.Prelude.{◌≡◌, ◌+◌, ◌<◌, ◌≤◌, ◌^◌, ◌++◌, ◌∷◌, ◌↔◌, [], length, IsTrue, OnOk, OnErr};
ghost use Rattle.std.specs.Iterator.{YieldsFirst, item_count};

use crate::event::CellEvent;
use crate::packed::{LONGEST_EVENT, take_event, write_event};
use blk_ptr::NoMemory;
use std::alloc::Global;
use std::marker::Model;

/// A list of events.
#[derive(Debug, Drop)]
pub struct CellHistory {
    bytes: Vec<u8>,
    len: usize,
    room: usize,
}

impl Model for CellHistory {
    ghost use Rattle.dbuf_state.specs.HistoryLog.{HistoryLog};

    ghost Value = { HistoryLog };

    ghost use Rattle.dbuf_state.specs.HistoryModel.{log_of, HistoryKeeps};

    ghost view = { log_of };

    ghost invariant = { HistoryKeeps };
}

/// The events of a history that are left to go over, in their order. Contracts see the list.
#[derive(Debug, Drop)]
pub struct CellEvents<'a> {
    bytes: &'a [u8],
    left: usize,
}

impl<'a> Model for CellEvents<'a> {
    ghost use Rattle.std.specs.Prelude.{List};
    ghost use Rattle.dbuf_state.specs.declared.event.CellEvent.{CellEvent};
    ghost use Rattle.dbuf_state.specs.HistoryLog.{events_in};

    ghost Value = { List CellEvent };

    ghost view = { λ e. events_in e.left e.bytes.now };
}

impl<'a> Iterator for CellEvents<'a> {
    type Item = CellEvent;

    ghost next_gives = { YieldsFirst (λ events. events) };

    ghost remaining = { item_count (λ events. events) };

    fn next(&mut self) -> Option<CellEvent> {
        if self.left == 0 {
            return None;
        }
        let (event, rest) = take_event(self.bytes);
        self.bytes = rest;
        self.left -= 1;
        Some(event)
    }
}

impl CellHistory {
    /// No events, and no room.
    pub fn new(alloc: Global) -> CellHistory
        ensures events { result.events ≡ [] }
        ensures room { result.room ≡ 0 }
    {
        CellHistory {
            bytes: Vec::new(alloc),
            len: 0,
            room: 0,
        }
    }

    /// How many there are.
    pub fn len(&self) -> usize
        ensures len { result ≡ length self.now.events }
        ensures few { result < 2 ^ 63 }
    {
        self.len
    }

    /// Whether there is none.
    pub fn is_empty(&self) -> bool
        ensures { IsTrue result ↔ (self.now.events ≡ []) }
    {
        self.len() == 0
    }

    /// Makes room for so many more, be they the longest. After want of memory the history is as before.
    pub fn reserve(&mut self, more: usize) -> Result<(), NoMemory>
        ensures events { self.new.events ≡ self.old.events }
        ensures ok { OnOk result (more ≤ self.new.room) }
        ensures kept { self.old.room ≤ self.new.room }
        ensures err { OnErr result (self.new ≡ self.old) }
    {
        if more > self.room {
            let wanted = more.checked_mul(LONGEST_EVENT).ok_or(NoMemory)?;
            self.bytes.reserve(wanted)?;
            self.room = (self.bytes.capacity() - self.bytes.len()) / LONGEST_EVENT;
        }
        Ok(())
    }

    /// Appends an event for which there is room. It takes no memory.
    pub fn push(&mut self, event: &CellEvent)
        requires { 0 < self.old.room }
        ensures events { self.new.events ≡ self.old.events ++ event.now ∷ [] }
        ensures room { self.new.room + 1 ≡ self.old.room }
    {
        write_event(&mut self.bytes, event);
        self.len += 1;
        self.room -= 1;
    }

    /// The events, in their order.
    pub fn iter(&self) -> CellEvents<'_>
        ensures { result ≡ self.now.events }
    {
        CellEvents {
            bytes: &self.bytes,
            left: self.len,
        }
    }
}
