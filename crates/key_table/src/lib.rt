//! A table by key: each key's row is found in a time that doesn't grow with the number of keys, and a row that goes leaves its room.
#![tactic(auto)]

mod chain;
mod hashed;
mod memory;
mod table;

pub use chain::NO_PLACE;
pub use hashed::Hashed;
pub use memory::NoMemory;
pub use table::Table;
