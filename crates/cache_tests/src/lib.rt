//! Tests of turns and of the shared cache: rules over turns, the owners of a block, and callers of the cache that meet. There is no
//! code here but tests, and what they share.
#![tactic(auto)]

#[cfg(test)]
mod buckets;
#[cfg(test)]
mod rules;
#[cfg(test)]
mod scenes;
#[cfg(test)]
mod turns;
