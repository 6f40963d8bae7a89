//! The sync of a transaction group: the dirty blocks of all cells are written to the pool, one behind the other (`dbuf_sync_leaf` of OpenZFS's `dbuf.c`).
#![tactic(auto)]

mod cells;
mod due;
mod laws;
mod need;
mod syncing;
mod write;

pub use due::Due;
pub use laws::{blocks_stand_in_a_row, none_is_there};
pub use syncing::{SyncFault, Synced, sync};
