//! What is settled about a cache when it is made. No value of it is made.
use arc_core::Config;
use std::collections::LinkedList;

/// The numbers with which a cache was made, and what each cell was when it moved in.
pub struct About {
    /// The numbers of the cache.
    pub config: Config,
    /// By cell, what its layer tells of how it was.
    pub openings: LinkedList<LinkedList<u64>>,
}
