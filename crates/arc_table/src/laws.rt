//! The laws of what a party knows after its calls: each is the contract of a function with nothing to do.
ghost use Rattle.arc_table.specs.Cells.{IsCellKept, IsCellKeptByRead, IsCellKeptByRoomy, IsCellTaken, IsSeenAtGive, IsSeenAtTake};
ghost use Rattle.arc_table.specs.feeder.Listing.{IsPickFew, IsPickKeptByClear, IsPickKeptByRestore, IsPickLeft, IsPickOfOne, IsPickPlain, IsPickSet};

use arc_core::Keeps;
use vdev_io::{CacheDev, Pool};

/// What the feeder lists as picked after each of its calls: a key that is set or left leaves its shard's list, and nothing else of any list changes.
pub fn calls_settle_picks<C: Keeps>()
    ensures set { IsPickSet C.Keeps }
    ensures leave { IsPickLeft C.Keeps }
    ensures clear { IsPickKeptByClear C.Keeps }
    ensures restore { IsPickKeptByRestore C.Keeps }
    ensures pick { IsPickOfOne C.Keeps }
{}

/// What a feed picks of a shard: within the bound of one feed, no key twice, and none that has a place; and where the feeder has every number by a
/// join, just the candidates, one after another.
pub fn picks_are_candidates<C: Keeps>()
    ensures few { IsPickFew C.Keeps }
    ensures plain { IsPickPlain C.Keeps }
{}

/// What a cell is that was just taken, and what the events of other calls leave of a cell in hand.
pub fn cells_stay_in_hand<C: Keeps>()
    ensures taken { IsCellTaken C.Keeps }
    ensures kept { IsCellKept C.Keeps }
    ensures roomy { IsCellKeptByRoomy C.Keeps }
{}

/// A read changes nothing of a cell in hand.
pub fn reads_leave_cells<C: Keeps, P: Pool, D: CacheDev>()
    ensures { IsCellKeptByRead C.Keeps P.Pool D.CacheDev }
{}

/// A party that takes cells and gives them back has seen all that it made, of shards and of cells; and it finds of a cell what it had seen, and then
/// what others made.
pub fn parties_see_their_entries<C: Keeps>()
    ensures take { IsSeenAtTake C.Keeps }
    ensures give { IsSeenAtGive C.Keeps }
{}
