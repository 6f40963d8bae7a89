//! The ring and its live entries.
ghost use Rattle.std.specs.Prelude.{◌≡◌, ℕ, ◌+◌, ◌-◌, ◌%◌, ◌<◌, ◌≤◌, ◌⊎◌, ◌↔◌, ◌++◌, [], ◌∷◌, length, map, max, IsTrue, MatchResult, vec_len};
ghost use Rattle.std.specs.List.{filter};
ghost use Rattle.std.specs.Vec.{vec_capacity};
ghost use Rattle.blk_ptr.specs.Size.{sector};
ghost use Rattle.l2_log.specs.Rules.{ring_start, IsRingEnd};
ghost use Rattle.l2_ring.specs.Ring.{IsLower, IsUpper, IsInPart, IsRoom, IsPlanFor, IsPlan, HasPlan, IsSameRing, IsSound, numbers_of, with_hand};
ghost use Rattle.l2_ring.specs.Stays.{stays, falls, live_of, AreLive};

use crate::live::{Live, Written};
use crate::part::Part;
use crate::plan::Plan;
use crate::queue::Queue;
use blk_ptr::NoMemory;
use l2_log::{DevHeader, RING_START};
use std::alloc::Global;
use std::marker::Model;

/// The ring of a cache device, with its live entries in the order in which they were added.
#[derive(Debug, Drop)]
pub struct Ring {
    end: u64,
    hand: u64,
    evict: u64,
    top: u64,
    lap: u64,
    live: Queue,
}

impl Model for Ring {
    ghost use Rattle.l2_ring.specs.Ring.{RingState, IsRing};
    ghost use Rattle.l2_ring.specs.Stays.{AreLive};

    ghost Value = { RingState };

    ghost view = { λ ring. record {
      end = ring.end;
      hand = ring.hand;
      evict = ring.evict;
      top = ring.top;
      lap = ring.lap;
      live = ring.live.live;
      spare = ring.live.spare;
    } };

    ghost invariant = { λ ring. IsRing ring.end ring.hand ring.evict ring.top ring.lap
        × AreLive record { hand = ring.hand; evict = ring.evict; top = ring.top; lap = ring.lap } ring.live.live };
}

impl Ring {
    /// A ring of which nothing was written, that ends at `end`: a multiple of 512, at least 266,240.
    pub fn fresh(alloc: Global, end: u64) -> Ring
        requires { IsRingEnd end }
        ensures numbers { (result.end ≡ end) × (result.hand ≡ ring_start) × (result.evict ≡ ring_start) × (result.top ≡ ring_start) × (result.lap ≡ 1) }
        ensures live { result.live ≡ [] }
    {
        Ring {
            end,
            hand: RING_START,
            evict: RING_START,
            top: RING_START,
            lap: 1,
            live: Queue::new(alloc),
        }
    }

    /// The ring of this header, without live entries.
    pub fn of(alloc: Global, header: &DevHeader) -> Ring
        ensures numbers { (result.end ≡ header.now.end) × (result.hand ≡ header.now.hand) × (result.evict ≡ header.now.evict) × (result.top ≡ header.now.top) × (result.lap ≡ header.now.lap) }
        ensures live { result.live ≡ [] }
    {
        Ring {
            end: header.end,
            hand: header.hand,
            evict: header.evict,
            top: header.top,
            lap: header.lap,
            live: Queue::new(alloc),
        }
    }

    /// The place at which the ring ends.
    pub fn end(&self) -> u64
        ensures end { result ≡ self.now.end }
        ensures sound { IsSound self.now }
    {
        self.end
    }

    /// The place that is written next.
    pub fn hand(&self) -> u64
        ensures hand { result ≡ self.now.hand }
        ensures sound { IsSound self.now }
        ensures placed { AreLive (numbers_of self.now) self.now.live }
    {
        self.hand
    }

    /// The end of what the next writes may overwrite.
    pub fn evict(&self) -> u64
        ensures { result ≡ self.now.evict }
    {
        self.evict
    }

    /// The end of what was written in the lap before.
    pub fn top(&self) -> u64
        ensures { result ≡ self.now.top }
    {
        self.top
    }

    /// The number of the lap.
    pub fn lap(&self) -> u64
        ensures { result ≡ self.now.lap }
    {
        self.lap
    }

    /// The live entries, in the order in which they were added. Each lies in the part of the ring that its own lap asks for.
    pub fn live(&self) -> &[Written]
        ensures entries { result.now ≡ self.now.live }
        ensures placed { AreLive (numbers_of self.now) self.now.live }
        ensures sound { IsSound self.now }
    {
        self.live.live()
    }

    /// The part in which `size` bytes from `place` on lie.
    pub fn part(&self, place: u64, size: u64) -> Part
        requires { 0 < size }
        ensures { IsInPart self.now place size result }
    {
        if RING_START <= place && size <= self.hand && place <= self.hand - size {
            Part::Lower
        } else if self.evict <= place && size <= self.top && place <= self.top - size {
            Part::Upper
        } else {
            Part::Dead
        }
    }

    /// Whether the ring is as long as `n` bytes.
    pub fn fits(&self, n: u64) -> bool
        ensures { IsTrue result ↔ n ≤ self.now.end - ring_start }
    {
        n <= self.end - RING_START
    }

    /// The plan for the next `n` bytes.
    pub fn room(&self, n: u64) -> Plan
        requires { IsRoom self.now n }
        ensures { IsPlanFor self.now n result }
    {
        if n <= self.end - self.hand {
            Plan {
                hand: self.hand,
                evict: self.evict.max(self.hand + n),
                top: self.top,
                lap: self.lap,
            }
        } else {
            Plan {
                hand: RING_START,
                evict: RING_START + n,
                top: self.hand,
                lap: self.lap.saturating_add(1),
            }
        }
    }

    /// How many live entries a plan of this ring drops. Where each was written behind the one added before it, the call
    /// looks at no more than these and one.
    pub fn dropped_by(&self, plan: Plan) -> usize
        requires { IsPlan self.now plan }
        ensures { result ≡ length (filter (falls plan) self.now.live) }
    {
        self.live.count_fallen(plan)
    }

    /// Takes a plan of this ring, and moves the entries that it drops to the end of `dropped`, in their order. It takes
    /// no memory. Where each entry was written behind the one added before it, its cost is that of what it drops.
    pub fn take(&mut self, plan: Plan, dropped: &mut Vec<Live>)
        requires plan { IsPlan self.old plan }
        requires room { vec_len dropped.old + length (filter (falls plan) self.old.live) ≤ vec_capacity dropped.old }
        ensures numbers { HasPlan plan self.old self.new }
        ensures live { self.new.live ≡ filter (stays plan) self.old.live }
        ensures dropped { dropped.new.items ≡ dropped.old.items ++ map live_of (filter (falls plan) self.old.live) }
        ensures spare { self.old.spare ≤ self.new.spare }
        ensures sound { IsSound self.new × AreLive (numbers_of self.new) self.new.live }
    {
        self.live.take(plan, dropped);
        self.hand = plan.hand;
        self.evict = plan.evict;
        self.top = plan.top;
        self.lap = plan.lap;
    }

    /// Makes room for `n` more entries. After want of memory the ring is as before.
    pub fn reserve(&mut self, n: usize) -> Result<(), NoMemory>
        ensures numbers { IsSameRing self.old self.new }
        ensures live { self.new.live ≡ self.old.live }
        ensures room { MatchResult result (λ _. n ≤ self.new.spare) (λ _. self.new.spare ≡ self.old.spare) }
        ensures kept { self.old.spare ≤ self.new.spare }
    {
        self.live.reserve(n)
    }

    /// Adds a live entry. Its own lap is the ring's in the lower part, and the lap before in the upper part.
    pub fn add(&mut self, live: Live)
        requires room { 1 ≤ self.old.spare }
        requires sized { 0 < live.key.size }
        requires live { IsLower self.old live.place live.key.size ⊎ IsUpper self.old live.place live.key.size }
        ensures numbers { IsSameRing self.old self.new }
        ensures lower { IsLower self.old live.place live.key.size → self.new.live ≡ self.old.live ++ record { live = live; lap = self.old.lap } ∷ [] }
        ensures upper { IsUpper self.old live.place live.key.size → self.new.live ≡ self.old.live ++ record { live = live; lap = self.old.lap - 1 } ∷ [] }
        ensures spare { self.old.spare ≤ self.new.spare + 1 }
    {
        let lap = match self.part(live.place, live.key.size) {
            Part::Lower => self.lap,
            _ => self.lap - 1,
        };
        self.live.add(Written { live, lap });
    }

    /// Moves the hand on by `n` bytes, which were written.
    pub fn advance(&mut self, n: u64)
        requires aligned { n % sector ≡ 0 }
        requires planned { self.old.hand + n ≤ self.old.evict }
        ensures hand { self.new.hand ≡ self.old.hand + n }
        ensures same { (self.new.end ≡ self.old.end) × (self.new.evict ≡ self.old.evict) × (self.new.top ≡ self.old.top) × (self.new.lap ≡ self.old.lap) }
        ensures live { self.new.live ≡ self.old.live }
        ensures spare { self.new.spare ≡ self.old.spare }
        ensures sound { IsSound self.new × AreLive (numbers_of self.new) self.new.live }
    {
        self.hand += n;
    }

    /// Moves the hand back to where it stood before some bytes, which are not to count. The live entries of the lower
    /// part end at or before that place.
    pub fn rewind(&mut self, hand: u64)
        requires aligned { hand % sector ≡ 0 }
        requires from { ring_start ≤ hand }
        requires back { hand ≤ self.old.hand }
        requires live { AreLive (with_hand (numbers_of self.old) hand) self.old.live }
        ensures hand { self.new.hand ≡ hand }
        ensures same { (self.new.end ≡ self.old.end) × (self.new.evict ≡ self.old.evict) × (self.new.top ≡ self.old.top) × (self.new.lap ≡ self.old.lap) }
        ensures live { self.new.live ≡ self.old.live }
        ensures spare { self.new.spare ≡ self.old.spare }
        ensures sound { IsSound self.new }
    {
        self.hand = hand;
    }
}
