//! A queue by number: values in the order in which they came, each under a number, where the oldest one under a number is found in a time that doesn't grow
//! with the number of values.
#![tactic(auto)]

mod places;
mod queue;
mod slot;

pub use key_table::NoMemory;
pub use queue::Queue;
