//! The shared cache: cells, buckets and shards, each behind a turn of one row, under one rule.
#![tactic(auto)]

mod about;
mod arcs;
mod arrivals;
mod both;
mod cells;
mod closed;
mod drops;
mod evict;
mod feeds;
mod fetch;
mod front;
mod gives;
mod handing;
mod headers;
mod heap_bucket;
mod heap_shard;
mod hits;
mod hold;
mod in_hand;
mod inserts;
mod item;
mod laws;
mod look;
mod looking;
mod misses;
mod opening;
mod pact;
mod past;
mod picks;
mod read;
mod resizes;
mod restores;
mod scan;
mod spare;
mod view;

pub use about::About;
pub use arcs::{Arcs, Party};
pub use closed::Closed;
pub use drops::TryDrop;
pub use feeds::Cleared;
pub use front::Front;
pub use heap_bucket::HeapBucket;
pub use heap_shard::HeapShard;
pub use hits::TryHit;
pub use hold::Hold;
pub use inserts::Inserted;
pub use item::Item;
pub use laws::{
    calls_settle_picks, cells_stay_in_hand, parties_see_their_entries, picks_are_candidates,
    reads_leave_cells,
};
pub use look::{BucketTurn, Look};
pub use pact::{Pact, Settled};
pub use picks::Picked;
pub use read::Read;
pub use resizes::ResizeStop;
pub use restores::RestoreStop;
pub use view::{Known, Ledger, Line, Mine, Note};
