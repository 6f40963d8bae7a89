//! The shared cache, how it begins, and how parties join and part.
ghost use Rattle.std.specs.Prelude.{◌≡◌, ℕ, ◌<◌, [], IfOk};
ghost use Rattle.arc_core.specs.Config.{IsConfig};
ghost use Rattle.turn_table.specs.Moments.{WasSo};
ghost use Rattle.turn_table.specs.Places.{met, IsLast, stayed, parted};
ghost use Rattle.arc_table.specs.Cache.{IsPartyOf, all_newcomers};
ghost use Rattle.arc_table.specs.opening.Opening.{AreFresh, AreFreshCells, about_of};
ghost use Rattle.arc_table.specs.pact.Rule.{Pact as pact};
ghost use Rattle.arc_table.specs.Views.{after_learned};

use crate::item::Item;
use crate::opening::items;
use crate::pact::{Pact, Settled};
use arc_core::{Config, Keeps};
use blk_ptr::NoMemory;
use std::alloc::Global;
use std::marker::Model;
use std::snapshot::Snapshot;
use turn_table::Turns;

/// The right of a caller, or of the feeder, to act under its number. Contracts see that number, what the party knows, and its turns in hand.
pub type Party<C> = turn_table::Party<Item<C>, Pact<C>>;

/// The shared cache: cells, buckets and shards, each behind a turn. Contracts see its row of turns and its numbers.
#[derive(Drop)]
pub struct Arcs<C: Keeps> {
    pub(crate) turns: Turns<Item<C>, Pact<C>>,
    pub(crate) config: Config,
    pub(crate) alloc: Global,
}

impl<C: Keeps> Model for Arcs<C> {
    ghost use Rattle.arc_table.specs.Cache.{Cache, IsCache};

    ghost Value = { Cache };

    ghost view = { λ a. record { row = a.turns; config = a.config } };

    ghost invariant = { λ a. IsCache a.turns a.config };
}

impl<C: Keeps + Drop> Arcs<C> {
    /// A cache with these numbers over these cells, and its parties by their numbers: the callers, and then the feeder. The shards
    /// are at their start, and the buckets are empty. Err is want of memory.
    pub fn new(
        alloc: Global,
        config: &Config,
        cells: Vec<C>,
    ) -> Result<(Arcs<C>, Vec<Party<C>>), NoMemory>
        requires config { IsConfig config.now }
        requires cells { AreFreshCells C.Keeps config.now cells.items }
        ensures config { IfOk result (λ r. r.0.config ≡ config.now) }
        ensures parties { IfOk result (λ r. r.1.items ≡ all_newcomers r.0 (about_of C.Keeps config.now cells.items)) }
    {
        let settled = Settled {
            config: *config,
            cells: Snapshot::of(&cells),
        };
        let values = items(alloc, config, cells)?;
        let made = Turns::new(alloc, values, config.callers + 1, &settled);
        let Ok((turns, parties)) = made else {
            return Err(NoMemory);
        };
        let arcs = Arcs {
            turns,
            config: *config,
            alloc,
        };
        Ok((arcs, parties))
    }
}

impl<C: Keeps> Arcs<C> {
    /// The numbers with which the cache was made.
    pub fn config(&self) -> &Config
        ensures { result.now ≡ self.now.config }
    {
        &self.config
    }

    /// `other` joins `party`, which keeps what either has made, holds and claims under its own number, and has seen what either has seen.
    /// At one moment of it the pact held with what both had known before: so of what both had seen of a turn, one begins with the other.
    pub fn join(&self, party: &mut Party<C>, other: Party<C>)
        requires row { IsPartyOf self.now party.old × IsPartyOf self.now other }
        requires free { (party.old.held ≡ []) × (other.held ≡ []) }
        ensures joined { party.new ≡ met party.old other (after_learned party.old.own other.own) }
        ensures moment { WasSo (pact C.Keeps) (met party.old other party.old.own) }
    {
        self.turns.join(party, other);
    }

    /// The party of this number, which joined `party` last, parts from it. It has all that is its own, and has seen what `party` has seen.
    pub fn part(&self, party: &mut Party<C>, number: u32) -> Party<C>
        requires row { IsPartyOf self.now party.old }
        requires free { party.old.held ≡ [] }
        requires last { IsLast number party.old.joined }
        ensures party { party.new ≡ stayed party.old }
        ensures result { result ≡ parted (λ w. after_learned w party.old.own) party.old party.old.joined }
    {
        self.turns.part(party, number)
    }
}
