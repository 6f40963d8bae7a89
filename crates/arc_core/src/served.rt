//! How a read was answered, why it was not, and what a start finds on a cache device.
use blk_ptr::{Digest, Key, KeyFault};

/// Where the bytes of an answered read came from.
#[derive(Clone, Copy, Debug, PartialEq, Eq)]
pub enum Served {
    /// They were cached.
    Hit,
    /// They were read from the pool.
    Pool,
    /// They were read from the cache device.
    L2,
    /// They were read from the pool past the cache, which keeps other bytes under the key.
    Past,
}

/// Why a read was refused.
#[derive(Clone, Copy, Debug, PartialEq, Eq)]
pub enum ReadFault {
    /// The pool failed.
    PoolFault,
    /// The pool gave bytes of this digest, which isn't the pointer's.
    Mismatch { found: Digest },
    /// The key names no block of the pool.
    Key(KeyFault),
    /// Memory was refused.
    NoMemory,
}

/// A key that stands on the cache device since an earlier run.
#[derive(Clone, Copy, Debug, PartialEq, Eq)]
pub struct Restored {
    /// The key.
    pub key: Key,
    /// The place of its bytes on the device, in bytes from the device's start.
    pub place: u64,
    /// The SHA-256 of its bytes, where the device tells it.
    pub digest: Option<Digest>,
}
