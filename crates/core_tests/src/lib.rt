//! Tests of what stands below the shared cache: linked lists, the table by key, the queue by number, the sequences of the cache, and
//! one shard. There is no code here but tests, and what they share.
#![tactic(auto)]

#[cfg(test)]
mod memory;
#[cfg(test)]
mod shard;
