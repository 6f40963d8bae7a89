//! The ring of the cache device: where the next bytes go, which of the ranges behind them are live still, and which entries a plan drops.
//!
//! The ring is the range from [`RING_START`](l2_log::RING_START) to its end. It is written from the hand on. What was
//! written in this lap lies below the hand, in the lower part. What is left of the lap before lies between the evict
//! mark and the top, in the upper part. Everything else is dead.
#![tactic(auto)]

mod laws;
mod live;
mod part;
mod plan;
mod queue;
mod ring;
mod sift;

pub use laws::{one_range_falls_together, plans_are_one};
pub use live::{Live, Written};
pub use part::Part;
pub use plan::Plan;
pub use ring::Ring;
