//! The rule of the cache: what all turns and all that the parties know keep between any two steps.
use crate::item::Item;
use crate::view::Known;
use arc_core::{Config, Keeps};
use std::marker::PhantomData;
use std::snapshot::Snapshot;
use turn_table::TurnRule;

/// What the parties know at the start is made of these: the cache's numbers, and the cells before they moved in.
#[derive(Drop)]
pub struct Settled<C> {
    /// The cache's numbers.
    pub config: Config,
    /// The cells, by their numbers.
    pub cells: Snapshot<Vec<C>>,
}

/// The rule of the cache. Contracts name it; no value of it is made.
pub struct Pact<C> {
    of: PhantomData<C>,
}

impl<C: Keeps> TurnRule<Item<C>> for Pact<C> {
    ghost use Rattle.arc_table.specs.opening.Opening.{about_of};
    ghost use Rattle.arc_table.specs.pact.Rule.{Pact as pact};
    ghost use Rattle.arc_table.specs.Views.{newcomer, after_won, after_lost, after_learned, no_one, IsFair};
    ghost use Rattle.arc_table.specs.pact.RuleLaws.{keeps_won as won_keeps, keeps_lost as lost_keeps, keeps_learned as learned_keeps};

    type View = Known<C>;

    type Key = Settled<C>;

    ghost holds = { pact C.Keeps };

    ghost first = { λ key n. newcomer (about_of C.Keeps key.config key.cells.value.items) n };

    ghost won = { λ _ i v w. after_won C.Keeps i v w };

    ghost lost = { λ _ i owner w. after_lost i owner w };

    ghost gives = { IsFair };

    ghost learned = { after_learned };

    ghost blank = { no_one };

    ghost keeps_won = { won_keeps C.Keeps };

    ghost keeps_lost = { lost_keeps C.Keeps };

    ghost keeps_learned = { learned_keeps C.Keeps };
}
