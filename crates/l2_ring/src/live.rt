//! What the device holds, and in which lap it was written.
use blk_ptr::{Digest, Key};

/// A block that the device holds.
#[derive(Clone, Copy, Debug, PartialEq, Eq)]
pub struct Live {
    /// The block's key.
    pub key: Key,
    /// The place of its first byte on the device, a multiple of 512.
    pub place: u64,
    /// The SHA-256 of its bytes. Only an entry that was read from a log block of version 1 has none.
    pub digest: Option<Digest>,
}

/// A live entry, and when it was written.
#[derive(Clone, Copy, Debug, PartialEq, Eq)]
pub struct Written {
    /// The entry.
    pub live: Live,
    /// The lap of the ring in which it was written, from 1 on.
    pub lap: u64,
}
