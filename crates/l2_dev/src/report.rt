//! What a feed of the cache device did. No call makes one yet.

/// How a feed ended.
#[derive(Clone, Copy, Debug, PartialEq, Eq)]
pub enum FeedStop {
    /// All shards were fed.
    Done,
    /// The device failed.
    DevFault,
    /// Memory was refused.
    NoMemory,
}

/// What a feed did.
#[derive(Clone, Copy, Debug, PartialEq, Eq)]
pub struct FeedReport {
    /// How many blocks were picked.
    pub picked: u32,
    /// The sum of their sizes, in bytes.
    pub bytes: u64,
    /// How many of them have a place now.
    pub written: u32,
    /// How many places were taken away, since they may be written over.
    pub cleared: u64,
    /// How it ended.
    pub end: FeedStop,
}
