//! How a cache ends.
ghost use Rattle.std.specs.Prelude.{◌≡◌, ◌++◌, ◌+◌, ◌≤◌, ℕ, ◌<◌, length, IfOk, vec_len, vec_capacity};
ghost use Rattle.std.specs.Arc.{arc_value};
ghost use Rattle.turn_table.specs.Places.{SomeHas};
ghost use Rattle.arc_table.specs.Ended.{AreAtRest, Ends, cells_in, shards_in};
ghost use Rattle.arc_table.specs.Geometry.{parties_of};

use crate::arcs::{Arcs, Party};
use crate::item::Item;
use arc_core::{Config, Keeps, Shard};
use blk_ptr::NoMemory;
use std::marker::Model;
use std::sync::Arc;

/// What the turns of a cache had at its end: its shards with their whole histories, and its cells; and the numbers with which the cache was
/// made. `Arcs::close` alone makes one. Contracts see all three.
#[derive(Drop)]
pub struct Closed<C> {
    config: Config,
    // Counted, so that a report of the run owns the histories too and needs no copy of them.
    shards: Arc<Vec<Shard>>,
    cells: Vec<C>,
}

impl<C> Model for Closed<C> {
    ghost use Rattle.std.specs.Arc.{arc_value};
    ghost use Rattle.arc_table.specs.Ended.{Ended};

    ghost Value = { Ended C };

    ghost view = { λ c. record { config = c.config; shards = (arc_value c.shards).items; cells = c.cells.items } };
}

impl<C> Closed<C> {
    /// The numbers with which the cache was made.
    pub fn config(&self) -> &Config
        ensures { result.now ≡ self.now.config }
    {
        &self.config
    }

    /// The shards, by their numbers.
    pub fn shards(&self) -> &[Shard]
        ensures { result.now ≡ self.now.shards }
    {
        &self.shards
    }

    /// The shards, by their numbers, for one more owner. None is copied.
    pub fn shared_shards(&self) -> Result<Arc<Vec<Shard>>, NoMemory>
        ensures { IfOk result (λ shared. (arc_value shared).items ≡ self.now.shards) }
    {
        let shared = Arc::try_clone(&self.shards)?;
        Ok(shared)
    }

    /// The cells, by their numbers.
    pub fn cells(&self) -> &[C]
        ensures { result.now ≡ self.now.cells }
    {
        &self.cells
    }
}

// The cells and the shards among these values, in their order.
fn sort_out<C: Drop>(values: Vec<Item<C>>, cells: &mut Vec<C>, shards: &mut Vec<Shard>)
    requires cells { vec_len cells.old + length (cells_in values.items) ≤ vec_capacity cells.old }
    requires shards { vec_len shards.old + length (shards_in values.items) ≤ vec_capacity shards.old }
    ensures cells { cells.new.items ≡ cells.old.items ++ cells_in values.items }
    ensures shards { shards.new.items ≡ shards.old.items ++ shards_in values.items }
{
    for value in values {
        match value {
            Item::Cell(cell) => cells.push_reserved(cell),
            Item::Bucket(bucket) => drop(bucket),
            Item::Shard(shard) => shards.push_reserved(shard.into_shard()),
        }
    }
}

impl<C: Keeps + Drop> Arcs<C> {
    /// The shards and the cells, once all parties are there and none holds a turn. They meet the pact, with what the parties know. Err is
    /// want of memory, and then they are lost.
    pub fn close(self, parties: Vec<Party<C>>) -> Result<Closed<C>, NoMemory>
        requires rest { AreAtRest self parties.items }
        requires all { (n : ℕ) → n < parties_of self.config → SomeHas n parties.items }
        ensures { IfOk result (λ closed. Ends C.Keeps self parties.items closed) }
    {
        let Arcs {
            turns,
            config,
            alloc,
        } = self;
        let mut shards = Vec::with_capacity(alloc, config.shards as usize)?;
        let mut cells = Vec::with_capacity(alloc, config.cells as usize)?;
        let Ok(values) = turns.close(parties) else {
            return Err(NoMemory);
        };
        sort_out(values, &mut cells, &mut shards);
        let shards = Arc::new(alloc, shards)?;
        Ok(Closed {
            config,
            shards,
            cells,
        })
    }
}
