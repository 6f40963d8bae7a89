//! The live entries in the order in which they were added. What a plan drops is mostly the front of them, and goes at no
//! cost to the others.
ghost use Rattle.std.specs.Prelude.{◌≡◌, ◌+◌, ◌<◌, ◌≤◌, ◌++◌, [], ◌∷◌, drop, false, length, take, map, true, vec_len, OnOk, OnErr};
ghost use Rattle.std.specs.List.{filter};
ghost use Rattle.std.specs.Vec.{vec_capacity};
ghost use Rattle.l2_ring.specs.Queue.{AreOldestFirst, DropsFront, IsPlanOver, fallen};
ghost use Rattle.l2_ring.specs.Ranges.{IsOlder, range_of};
ghost use Rattle.l2_ring.specs.Stays.{stays, falls, live_of};

use crate::live::{Live, Written};
use crate::plan::Plan;
use crate::sift::{count_fallen, keep, leading, let_go, push_all};
use blk_ptr::NoMemory;
use std::alloc::Global;
use std::marker::Model;

/// The live entries, and before them some that a plan dropped and whose room was not given back yet.
#[derive(Debug, Drop)]
pub(crate) struct Queue {
    entries: Vec<Written>,
    /// The first of them that is live.
    first: usize,
    /// Whether the live ones are known to stand from the oldest to the newest.
    ordered: bool,
}

impl Model for Queue {
    ghost use Rattle.std.specs.Prelude.{◌≡◌, ◌-◌, ◌≤◌, drop, length, true};
    ghost use Rattle.std.specs.Vec.{vec_capacity};
    ghost use Rattle.l2_ring.specs.Queue.{QueueState, AreOldestFirst};

    ghost Value = { QueueState };

    ghost view = { λ queue. record {
      live = drop queue.first queue.entries.items;
      spare = vec_capacity queue.entries - length queue.entries.items;
      ordered = queue.ordered;
    } };

    ghost invariant = { λ queue. (queue.first ≤ length queue.entries.items)
        × (queue.ordered ≡ true → AreOldestFirst (drop queue.first queue.entries.items)) };
}

/// Whether the second of the two was written after the first.
fn is_before(older: &Written, newer: &Written) -> bool
    ensures { result ≡ true → IsOlder (range_of newer.now) (range_of older.now) }
{
    let Live { key, place, .. } = older.live;
    let at = newer.live.place;
    older.lap < newer.lap || older.lap == newer.lap && key.size <= at && place <= at - key.size
}

/// Whether the entries are found to stand from the oldest to the newest.
fn are_in_order(entries: &[Written]) -> bool
    ensures { result ≡ true → AreOldestFirst entries.now }
{
    for i in 0..entries.len() {
        let written = &entries[i];
        if written.live.key.size == 0 || 0 < i && !is_before(&entries[i - 1], written) {
            return false;
        }
    }
    true
}

impl Queue {
    /// No entries.
    pub(crate) fn new(alloc: Global) -> Queue
        ensures live { result.live ≡ [] }
    {
        Queue {
            entries: Vec::new(alloc),
            first: 0,
            ordered: true,
        }
    }

    /// The live entries.
    pub(crate) fn live(&self) -> &[Written]
        ensures { result.now ≡ self.now.live }
    {
        &self.entries[self.first..]
    }

    /// Makes room for `n` more entries.
    pub(crate) fn reserve(&mut self, n: usize) -> Result<(), NoMemory>
        ensures live { self.new.live ≡ self.old.live }
        ensures room { OnOk result (n ≤ self.new.spare) }
        ensures refused { OnErr result (self.new.spare ≡ self.old.spare) }
        ensures kept { self.old.spare ≤ self.new.spare }
    {
        self.entries.reserve(n)?;
        Ok(())
    }

    /// Whether the entries stand from the oldest to the newest with this one behind them.
    fn is_next(&self, written: &Written) -> bool
        requires sized { 0 < written.now.live.key.size }
        ensures { result ≡ true → AreOldestFirst (self.now.live ++ written.now ∷ []) }
    {
        match self.live().last() {
            None => true,
            Some(last) => self.ordered && is_before(last, written),
        }
    }

    /// Adds a live entry behind the others.
    pub(crate) fn add(&mut self, written: Written)
        requires room { 1 ≤ self.old.spare }
        requires sized { 0 < written.live.key.size }
        ensures live { self.new.live ≡ self.old.live ++ written ∷ [] }
        ensures spare { self.old.spare ≤ self.new.spare + 1 }
    {
        self.ordered = self.is_next(&written);
        if self.entries.push(written).is_err() {
            unreachable!();
        }
    }

    /// How many of the entries the plan drops. That costs no more than these where the entries are in order.
    pub(crate) fn count_fallen(&self, plan: Plan) -> usize
        requires { IsPlanOver self.now.live plan }
        ensures { result ≡ length (filter (falls plan) self.now.live) }
    {
        if self.ordered {
            leading(self.live(), plan)
        } else {
            count_fallen(self.live(), plan)
        }
    }

    /// Takes the plan over the entries, which stand from the oldest to the newest: those at the front that it drops are
    /// live no longer.
    fn pass(&mut self, plan: Plan, dropped: &mut Vec<Live>)
        requires front { DropsFront plan self.old.live }
        requires ordered { self.old.ordered ≡ true }
        requires room { vec_len dropped.old + fallen plan self.old.live ≤ vec_capacity dropped.old }
        ensures kept { self.new.live ≡ drop (fallen plan self.old.live) self.old.live }
        ensures dropped { dropped.new.items ≡ dropped.old.items ++ map live_of (take (fallen plan self.old.live) self.old.live) }
        ensures spare { self.old.spare ≤ self.new.spare }
    {
        let fallen = leading(self.live(), plan);
        push_all(dropped, &self.live()[..fallen]);
        self.first += fallen;
        if self.entries.len() - self.first < self.first {
            let_go(&mut self.entries, self.first);
            self.first = 0;
        }
    }

    /// Takes the plan over the entries in whatever order.
    fn sift(&mut self, plan: Plan, dropped: &mut Vec<Live>)
        requires ordered { self.old.ordered ≡ false }
        requires room { vec_len dropped.old + length (filter (falls plan) self.old.live) ≤ vec_capacity dropped.old }
        ensures kept { self.new.live ≡ filter (stays plan) self.old.live }
        ensures dropped { dropped.new.items ≡ dropped.old.items ++ map live_of (filter (falls plan) self.old.live) }
        ensures spare { self.old.spare ≤ self.new.spare }
    {
        let_go(&mut self.entries, self.first);
        self.first = 0;
        keep(&mut self.entries, plan, dropped);
        self.ordered = are_in_order(&self.entries);
    }

    /// Moves the entries that the plan drops to the end of `dropped`, and keeps the others, all in their order. Where the
    /// entries are in order, it costs what it drops.
    pub(crate) fn take(&mut self, plan: Plan, dropped: &mut Vec<Live>)
        requires plan { IsPlanOver self.old.live plan }
        requires room { vec_len dropped.old + length (filter (falls plan) self.old.live) ≤ vec_capacity dropped.old }
        ensures kept { self.new.live ≡ filter (stays plan) self.old.live }
        ensures dropped { dropped.new.items ≡ dropped.old.items ++ map live_of (filter (falls plan) self.old.live) }
        ensures spare { self.old.spare ≤ self.new.spare }
    {
        if self.ordered {
            self.pass(plan, dropped);
        } else {
            self.sift(plan, dropped);
        }
    }
}
