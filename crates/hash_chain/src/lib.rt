//! Buckets of headers: what the shared cache keeps of a key beside its shard.
#![tactic(auto)]

mod bucket;
mod header;
mod kept;

pub use bucket::Bucket;
pub use header::Header;
pub use kept::Kept;
