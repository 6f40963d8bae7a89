//! The rows of the entries: each entry with the place of its node on a sequence, found by its key's hash.
ghost use Rattle.std.specs.Prelude.{◌≡◌, ◌+◌, ◌-◌, ◌<◌, false, length, max, IsSome, IfNone, IfSome, OnOk, OnErr, Some, None};
ghost use Rattle.std.specs.Borrow.{sem};
ghost use Rattle.arc_lists.specs.ByKey.{has_key, item_at, with_item, without};
ghost use Rattle.arc_core.specs.seats.Seats.{no_seats, seat, seat_key};

use crate::entry::Entry;
use arc_lists::Name;
use blk_ptr::{Key, NoMemory};
use key_table::Table;
use std::alloc::Global;
use std::marker::Model;

/// An entry, and the place of its node on its state's sequence, where it stands there. What a hit reads and writes of the entry
/// follows the place.
#[derive(Clone, Copy, Debug)]
pub struct Linked {
    pub at: Option<usize>,
    pub entry: Entry,
}

/// The rows. Contracts see the seats in rising order of keys, and the room that is left.
#[derive(Debug, Drop)]
pub struct Rows {
    table: Table<Name, Linked>,
}

impl Model for Rows {
    ghost use Rattle.arc_core.specs.seats.Seats.{Seats};

    ghost Value = { Seats };

    ghost use Rattle.arc_core.specs.seats.SeatRows.{seats, AreRowsApart};

    ghost view = { seats };

    ghost invariant = { AreRowsApart };
}

impl Rows {
    ghost use Rattle.arc_core.specs.seats.SeatLends.{lends_linked};

    pub fn new(alloc: Global) -> Rows
        ensures { result ≡ no_seats }
    {
        Rows {
            table: Table::new(alloc),
        }
    }

    /// How many rows there are.
    pub fn len(&self) -> usize
        ensures { result ≡ length self.now.seats }
    {
        self.table.len()
    }

    /// For how many more there is room.
    pub fn spare(&self) -> usize
        ensures { result ≡ self.now.spare }
    {
        self.table.spare()
    }

    /// Makes room for `n` more rows.
    pub fn reserve(&mut self, n: usize) -> Result<(), NoMemory>
        ensures seats { self.new ≡ record self.old { spare = self.new.spare } }
        ensures ok { OnOk result (self.new.spare ≡ max self.old.spare n) }
        ensures err { OnErr result (self.new ≡ self.old) }
    {
        if self.table.reserve(n).is_err() {
            return Err(NoMemory);
        }
        Ok(())
    }

    /// What the row of a key has.
    pub fn find(&self, key: Key) -> Option<&Linked>
        ensures some { IfSome result (λ l. item_at seat_key key self.now.seats ≡ Some (seat key l.now)) }
        ensures none { IfNone result (item_at seat_key key self.now.seats ≡ None) }
    {
        self.table.get(&Name(key))
    }

    /// Where the row of a key stands just now, for `find_mut_near`. It holds until rows come or go.
    #[inline(always)]
    pub fn place(&self, key: Key) -> usize {
        self.table.place(&Name(key))
    }

    /// What the row of a key that is there has, to write. `near` is where it stood, and may be any number.
    #[inline(always)]
    pub fn find_mut_near(&mut self, near: usize, key: Key) -> &mut Linked
        requires { IsSome (item_at seat_key key self.old.seats) }
        ensures* writes_back { sem 𝓛 (lends_linked self.entry key result) }
        ensures linked { item_at seat_key key self.old.seats ≡ Some (seat key result.now) }
    {
        match self.table.get_mut_near(near, &Name(key)) {
            Some(linked) => linked,
            None => unreachable!(),
        }
    }

    /// Adds the row of a key that has none.
    pub fn add(&mut self, key: Key, linked: Linked)
        requires room { 0 < self.old.spare }
        requires absent { has_key seat_key key self.old.seats ≡ false }
        ensures { self.new ≡ record { seats = with_item seat_key (seat key linked) self.old.seats; spare = self.old.spare - 1 } }
    {
        self.table.insert(Name(key), linked);
    }

    /// Removes the row of a key that has one, and answers what it had.
    pub fn remove(&mut self, key: Key) -> Linked
        requires { IsSome (item_at seat_key key self.old.seats) }
        ensures linked { item_at seat_key key self.old.seats ≡ Some (seat key result) }
        ensures seats { self.new ≡ record { seats = without seat_key key self.old.seats; spare = self.old.spare + 1 } }
    {
        self.table.remove(&Name(key))
    }
}
