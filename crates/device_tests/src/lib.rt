//! Tests of what lies outside the cache: keys, the adapters over files, objects in memory, and calls of the cache device that fail or
//! crash. There is no code here but tests, and what they share.
#![tactic(auto)]

#[cfg(test)]
mod cache_device;
#[cfg(test)]
mod fakes;
#[cfg(test)]
mod files;
#[cfg(test)]
mod keys;
#[cfg(test)]
mod memory;
