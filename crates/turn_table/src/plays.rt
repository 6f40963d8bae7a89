//! What each step on the table tells. These types are for the proofs alone.
ghost use Rattle.std.specs.Prelude.{Option, None};
ghost use Rattle.turn_table.specs.Standings.{TurnsKeep, tried, brought, gave, learnt, whole, meeting, spent, left_with, leaving};

use crate::rule::TurnRule;
use crate::standing::Standing;
use atomic_table::{Join, Play, Split, TableRule};
use std::marker::{Brand, PhantomData};
use std::snapshot::Snapshot;

/// What the table is told once, when it is made.
pub struct Setup<K> {
    pub parties: u32,
    pub turns: u32,
    pub key: Snapshot<K>,
}

impl<K> Drop for Setup<K> {
    fn drop(self) {
        let Setup {
            parties: _,
            turns: _,
            key: _,
        } = self;
    }
}

/// The user's rule, lifted to the words, the slots and the seats.
pub struct Ruled<R> {
    rule: PhantomData<R>,
}

impl<V, R: TurnRule<V>> TableRule<Option<V>, Standing<R::View>, Setup<R::Key>> for Ruled<R> {
    ghost holds = { λ k. TurnsKeep R.holds k.parties k.turns };

    ghost first = { λ k. whole k.parties (R.first k.key.value) };
}

pub struct Try<R> {
    rule: PhantomData<R>,
}

impl<V, R: TurnRule<V>> Play<Option<V>, Standing<R::View>> for Try<R> {
    ghost then = { tried R.holds R.won R.lost };
}

pub struct Bring;

impl<V, W> Play<Option<V>, Standing<W>> for Bring {
    ghost then = { brought };
}

/// The view that a call picks, for the proof alone. A call at `Brand` picks it.
pub trait Next<W> {
    ghost next: { Option W };
}

impl<W> Next<W> for Brand {
    ghost next = { None };
}

pub struct Give<N> {
    next: PhantomData<N>,
}

impl<V, W, N: Next<W>> Play<Option<V>, Standing<W>> for Give<N> {
    ghost then = { gave N.next };
}

/// A party learns what the one that joined it last has seen.
pub struct Learn<R> {
    rule: PhantomData<R>,
}

impl<V, R: TurnRule<V>> Play<Option<V>, Standing<R::View>> for Learn<R> {
    ghost then = { learnt R.holds R.learned };
}

/// Another party joins. Nothing is learned.
pub struct Gather<V, R> {
    rule: PhantomData<(V, R)>,
}

impl<V, R: TurnRule<V>> Join<Standing<R::View>> for Gather<V, R> {
    ghost both = { λ x y. meeting x y x.own };

    ghost spent = { spent R.blank };
}

/// The party that joined last parts, and learns what the other has seen.
pub struct Part<V, R> {
    rule: PhantomData<(V, R)>,
}

impl<V, R: TurnRule<V>> Split<Standing<R::View>> for Part<V, R> {
    ghost left = { left_with };

    ghost right = { λ x. leaving (λ w. R.learned w x.own) x };
}

/// The same, where nothing is learned.
pub struct Deal;

impl<W> Split<Standing<W>> for Deal {
    ghost left = { left_with };

    ghost right = { leaving (λ w. w) };
}
