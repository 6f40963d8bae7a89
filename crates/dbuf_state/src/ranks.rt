//! A row of ranks, the least of which is known at once.
ghost use Rattle.std.specs.Prelude.{◌≡◌, ◌<◌, ◌≤◌, ◌+◌, ◌-◌, ◌*◌, ◌++◌, ℕ, List, [], Option, None, length, drop, replicate, slice_set, OnOk, OnErr};
ghost use Rattle.dbuf_state.specs.declared.rank.Rank.{Rank};
ghost use Rattle.dbuf_state.specs.Ranks.{IsLeast, IsTournament, IsWon, padded};

use crate::rank::{Rank, lesser};
use blk_ptr::NoMemory;
use std::alloc::Global;
use std::marker::Model;

/// A row of places, each with a rank or none, as the leaves of a tournament: to write one, or to name the least, costs no more
/// than the tournament is high. Contracts see the row.
#[derive(Drop)]
pub struct Ranks {
    alloc: Global,
    half: usize,
    nodes: Vec<Option<Rank>>,
}

impl Model for Ranks {
    ghost use Rattle.std.specs.Prelude.{List, Option, drop};
    ghost use Rattle.dbuf_state.specs.declared.rank.Rank.{Rank};
    ghost use Rattle.dbuf_state.specs.Ranks.{IsTournament};

    ghost Value = { List (Option Rank) };

    ghost view = { λ ranks. drop ranks.half ranks.nodes.items };

    ghost invariant = { λ ranks. IsTournament ranks.half ranks.nodes.items };
}

// Plays again all matches of the leaf or node at `from`, once what stands there was changed.
fn replay(nodes: &mut [Option<Rank>], half: usize, from: usize)
    requires even { length nodes.old ≡ 2 * half }
    requires within { from < 2 * half }
    requires positive { 0 < from }
    requires others { (j : ℕ) → 0 < j → j < half → (2 * j ≡ from → ⊥) → (2 * j + 1 ≡ from → ⊥) → IsWon nodes.old j }
    ensures won { IsTournament half nodes.new }
    ensures leaves { drop half nodes.new ≡ drop half nodes.old }
{
    let mut at = from;
    while at > 1 {
        at /= 2;
        nodes[at] = lesser(nodes[2 * at], nodes[2 * at + 1]);
    }
}

// Writes a leaf.
fn write(nodes: &mut [Option<Rank>], half: usize, place: usize, rank: Option<Rank>)
    requires tournament { IsTournament half nodes.old }
    requires within { place < half }
    ensures won { IsTournament half nodes.new }
    ensures leaves { drop half nodes.new ≡ slice_set (drop half nodes.old) place rank }
{
    nodes[half + place] = rank;
    replay(nodes, half, half + place);
}

// Plays all matches.
fn play(nodes: &mut [Option<Rank>], half: usize)
    requires { length nodes.old ≡ 2 * half }
    ensures won { IsTournament half nodes.new }
    ensures leaves { drop half nodes.new ≡ drop half nodes.old }
{
    let mut at = half;
    while at > 1 {
        at -= 1;
        nodes[at] = lesser(nodes[2 * at], nodes[2 * at + 1]);
    }
}

impl Ranks {
    /// No places.
    pub fn new(alloc: Global) -> Ranks
        ensures { result ≡ [] }
    {
        Ranks {
            alloc,
            half: 0,
            nodes: Vec::new(alloc),
        }
    }

    /// Adds places without a rank where there are fewer than this number. After want of memory the row is as before.
    pub fn grow(&mut self, places: usize) -> Result<(), NoMemory>
        ensures ok { OnOk result (self.new ≡ padded places self.old) }
        ensures err { OnErr result (self.new ≡ self.old) }
    {
        if places <= self.half {
            return Ok(());
        }
        let all = places.checked_mul(2).ok_or(NoMemory)?;
        let mut nodes = Vec::new(self.alloc);
        nodes.resize(places, None)?;
        nodes.extend_from_slice(&self.nodes[self.half..])?;
        nodes.resize(all, None)?;
        play(&mut nodes, places);
        self.half = places;
        self.nodes = nodes;
        Ok(())
    }

    /// Writes a place.
    pub fn set(&mut self, place: usize, rank: Option<Rank>)
        requires { place < length self.old }
        ensures { self.new ≡ slice_set self.old place rank }
    {
        write(&mut self.nodes, self.half, place, rank);
    }

    /// The least rank of the row.
    pub fn least(&self) -> Option<Rank>
        ensures { IsLeast result self.now }
    {
        if self.half == 0 { None } else { self.nodes[1] }
    }
}
