//! Laws of a sync, each the contract of a function that does nothing.
ghost use Rattle.txg_sync.specs.Laws.{BlocksStandInARow, NoneIsThere, PlacesAddUp};

/// A law of a sync: its blocks stand one behind the other in the pool, and no byte before or behind them is changed.
pub fn blocks_stand_in_a_row()
    ensures bytes { BlocksStandInARow }
    ensures places { PlacesAddUp }
{}

/// A law of a sync whose party has every number: where no key that was taken in before reaches past its place, none of its blocks is in the cache already.
pub fn none_is_there()
    ensures { NoneIsThere }
{}
