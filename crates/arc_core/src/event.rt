//! The events of a shard: every change that it knows, and what each says of itself.
use blk_ptr::{Digest, Key};

/// Where the bytes of a read came from.
#[derive(Clone, Copy, Debug, PartialEq, Eq)]
pub enum Origin {
    /// The pool.
    Pool,
    /// The cache device.
    L2,
}

/// Where a read had come when it failed.
#[derive(Clone, Copy, Debug, PartialEq, Eq)]
pub enum FailedAt {
    /// The pool was not read.
    Unread,
    /// The pool was read: it failed, or gave other bytes.
    Pool,
}

/// Why a picked key gets no place on the cache device.
#[derive(Clone, Copy, Debug, PartialEq, Eq)]
pub enum Why {
    /// The entry is gone or has changed since.
    Gone,
    /// The device failed.
    Device,
    /// Memory was refused.
    Memory,
}

/// One change of one shard. `n` is the number of who made it: a caller, the feeder or a cell of dbufs.
/// The tick `t` and every place are at most 2^64 - 1.
#[derive(Clone, Copy, Debug, PartialEq, Eq)]
pub enum Event {
    /// The scan of `n` passed this key, since `owner` held its bucket.
    Pass {
        n: u32,
        key: Key,
        owner: u32,
    },
    /// `n` asked for the key at tick `t`, and its bytes are cached.
    Hit {
        n: u32,
        key: Key,
        t: u64,
    },
    /// `n` asked for the key at tick `t`, and begins to read its bytes.
    Miss {
        n: u32,
        key: Key,
        t: u64,
    },
    /// The bytes of a read arrived, with this digest.
    Arrive {
        n: u32,
        key: Key,
        digest: Digest,
        from: Origin,
    },
    /// A read failed.
    Fail {
        n: u32,
        key: Key,
        at: FailedAt,
    },
    /// `n` gave one hold back.
    Drop {
        n: u32,
        key: Key,
    },
    /// `n` read the pool past the cache, which keeps bytes of another digest under this key.
    Past {
        n: u32,
        key: Key,
        kept: Digest,
    },
    /// `n` handed one hold to a cell.
    Hand {
        n: u32,
        key: Key,
        to: u32,
    },
    /// The cell `n` put a block in that it wrote.
    Insert {
        n: u32,
        key: Key,
        digest: Digest,
        t: u64,
    },
    /// `n` gave one hold back and keeps a private copy; `sole` where it was the only hold.
    Release {
        n: u32,
        key: Key,
        sole: bool,
    },
    /// The feeder picked the key to be written to the cache device.
    Pick {
        n: u32,
        key: Key,
    },
    /// The feeder has picked all that it may.
    FeedEnd {
        n: u32,
    },
    /// The picked key was written at this place of the cache device.
    Set {
        n: u32,
        key: Key,
        place: u64,
    },
    /// The picked key gets no place.
    Leave {
        n: u32,
        key: Key,
        why: Why,
    },
    /// The key's place on the cache device is no longer its own.
    Clear {
        n: u32,
        key: Key,
    },
    /// The key stands at this place of the cache device since an earlier run, with this digest where the device tells one.
    Restore {
        n: u32,
        key: Key,
        place: u64,
        digest: Option<Digest>,
    },
    /// The capacity becomes `c` bytes.
    Resize {
        n: u32,
        c: u64,
    },
}
