//! Doubly linked lists of plain elements: each element stands at a place that stays its own until it is removed.
#![tactic(auto)]

mod links;
mod memory;
mod node;

pub use links::Links;
pub use memory::NoMemory;
