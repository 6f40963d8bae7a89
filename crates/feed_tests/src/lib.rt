//! Tests of a feed of the cache device over the shared cache. There is no code here but tests.
#![tactic(auto)]

#[cfg(test)]
mod faults;
#[cfg(test)]
mod memory;
