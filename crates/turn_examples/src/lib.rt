//! Three small rules over turns, as a pattern for larger ones.
#![tactic(auto)]

pub mod histories;
pub mod refusals;
pub mod twins;
