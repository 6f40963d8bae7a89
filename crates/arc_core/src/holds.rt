//! The holds on an entry.
ghost use Rattle.std.specs.Prelude.{◌≡◌, ◌+◌, ◌-◌, ◌^◌, ◌<◌, ◌==◌, not, length, sum, slice_index, slice_set};
ghost use Rattle.std.specs.List.{list_all};
ghost use Rattle.arc_core.specs.PlainShard.{no_holds, numbers, one_hold};
ghost use Rattle.arc_core.specs.View.{first_holder};

use crate::entry::NUMBERS;
use std::marker::Model;

/// How many holds each number has on an entry. Contracts see the list of the counts.
#[derive(Clone, Copy, Debug, PartialEq, Eq)]
pub struct Holds {
    // How many there are in all, so that no look sums the counts.
    total: u32,
    counts: [u32; NUMBERS],
}

impl Model for Holds {
    ghost use Rattle.std.specs.Prelude.{◌≡◌, ℕ, List, sum};
    ghost use Rattle.std.proofs.Common.{ap, sym};

    ghost Value = { List ℕ };

    ghost view = { λ h. h.counts };

    ghost invariant = { λ h. h.total ≡ sum h.counts };

    ghost inverse = { λ counts. record { total = sum counts; counts = counts } };

    ghost inverse_ok = { λ h kept. ap (λ n. record h { total = n }) (sym kept) };
}

// The least number that has a hold.
fn first_of(counts: &[u32]) -> Option<u32>
    requires { length counts.now ≡ numbers }
    ensures { result ≡ first_holder 0 counts.now }
{
    for (n, count) in counts.iter().enumerate() {
        if *count != 0 {
            return Some(n as u32);
        }
    }
    None
}

impl Holds {
    /// No holds.
    pub fn none() -> Holds
        ensures { result ≡ no_holds }
    {
        Holds {
            total: 0,
            counts: [0; NUMBERS],
        }
    }

    /// One hold of `n`, and none of any other number.
    pub fn one(n: u32) -> Holds
        requires { n < numbers }
        ensures { result ≡ one_hold n }
    {
        let mut counts = [0; NUMBERS];
        counts[n as usize] = 1;
        Holds { total: 1, counts }
    }

    /// One hold of `n` more.
    pub fn one_more(&mut self, n: u32)
        requires number { n < numbers }
        requires count { sum self.old + 1 < 2 ^ 32 }
        ensures { self.new ≡ slice_set self.old n (slice_index self.old n + 1) }
    {
        self.counts[n as usize] += 1;
        self.total += 1;
    }

    /// One hold of `n` less.
    pub fn one_less(&mut self, n: u32)
        requires number { n < numbers }
        requires count { 0 < slice_index self.old n }
        ensures { self.new ≡ slice_set self.old n (slice_index self.old n - 1) }
    {
        self.counts[n as usize] -= 1;
        self.total -= 1;
    }

    /// Whether `n` has a hold.
    pub fn has(&self, n: u32) -> bool
        requires { n < numbers }
        ensures { result ≡ not (slice_index self.now n == 0) }
    {
        self.counts[n as usize] != 0
    }

    /// How many there are in all.
    pub fn total(&self) -> u32
        ensures { result ≡ sum self.now }
    {
        self.total
    }

    /// Whether there is none.
    pub fn is_none(&self) -> bool
        ensures { result ≡ list_all (λ count. count == 0) self.now }
    {
        self.total == 0
    }

    /// The least number that has a hold.
    pub fn first(&self) -> Option<u32>
        ensures { result ≡ first_holder 0 self.now }
    {
        first_of(&self.counts)
    }
}
