//! The queue itself.
ghost use Rattle.std.specs.Prelude.{◌≡◌, ℕ, ◌∷◌, [], ◌++◌, OnErr, OnOk, MatchOption};
ghost use Rattle.key_queue.specs.Pairs.{IsTaken, Lacks};

use crate::places::{Places, add_place, take_place};
use crate::slot::{Slot, trim};
use key_table::{NoMemory, Table};
use std::alloc::Global;
use std::collections::VecDeque;
use std::marker::Model;

/// Values in the order in which they came, each under a number. Contracts see the pairs, the oldest first.
#[derive(Debug, Drop)]
pub struct Queue<T> {
    slots: VecDeque<Slot<T>>,
    // The place of the first slot. A slot keeps its place when those in front of it go.
    base: usize,
    places: Places,
}

impl<T> Model for Queue<T> {
    ghost use Rattle.std.specs.Prelude.{ℕ, List};
    ghost use Rattle.std.specs.Coded.{coded×, coded_ℕ, coded_list};

    ghost Value = { List (ℕ × T) };

    ghost coded = { coded_list (coded× coded_ℕ T.code) };

    ghost use Rattle.key_queue.specs.Queues.{IsQueue, pairs_of};

    ghost view = { pairs_of };

    ghost invariant = { IsQueue };
}

impl<T: Drop> Queue<T> {
    /// The empty queue.
    pub fn new(alloc: Global) -> Queue<T>
        ensures { result ≡ [] }
    {
        Queue {
            slots: VecDeque::new(alloc),
            base: 0,
            places: Table::new(alloc),
        }
    }

    /// Puts a value under a number behind all others. After want of memory the queue is as before.
    pub fn push(&mut self, number: u32, value: T) -> Result<(), NoMemory>
        ensures ok { OnOk result (self.new ≡ self.old ++ (number, value) ∷ []) }
        ensures err { OnErr result (self.new ≡ self.old) }
    {
        let place = self.base + self.slots.len();
        if place == usize::MAX {
            return Err(NoMemory);
        }
        self.slots.reserve(1)?;
        let alloc = *self.slots.allocator();
        add_place(&mut self.places, number, place, alloc)?;
        self.slots.push_back_reserved(Slot {
            number,
            value: Some(value),
        });
        Ok(())
    }

    /// Takes the oldest value under a number. None exactly where there is none, and then nothing changes.
    pub fn take_oldest(&mut self, number: u32) -> Option<T>
        ensures { MatchOption result (Lacks number self.old × (self.new ≡ self.old)) (λ v. IsTaken number v self.old self.new) }
    {
        let alloc = *self.slots.allocator();
        let place = take_place(&mut self.places, number, alloc)?;
        let value = self.slots[place - self.base].value.take();
        trim(&mut self.slots, &mut self.base);
        value
    }

    /// Takes the oldest value of all. None exactly where there is none.
    pub fn pop_oldest(&mut self) -> Option<T>
        ensures { MatchOption result ((self.old ≡ []) × (self.new ≡ [])) (λ v. (n : ℕ) × (self.old ≡ (n, v) ∷ self.new)) }
    {
        let number = self.slots.front()?.number;
        self.take_oldest(number)
    }
}
