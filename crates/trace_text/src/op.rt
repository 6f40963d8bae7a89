//! The operations of a trace.
use crate::run::Run;
use dbuf_state::{Oid, Window};

/// One operation of a trace.
#[derive(Drop)]
pub enum Op {
    /// Caller `n` reads block `x` at tick `t`, shows the window `w` of its bytes, and lets the block go.
    Read {
        n: u32,
        t: u64,
        x: u32,
        w: Window,
    },
    /// Caller `n` reads block `x` at tick `t` and keeps it.
    Hold {
        n: u32,
        t: u64,
        x: u32,
    },
    /// Caller `n` lets go the block `x` that it has kept for the longest time.
    Drop {
        n: u32,
        x: u32,
    },
    /// Caller `n` shows the window `w` of the block `at` at tick `t` (`dbuf_hold` and `dbuf_rele` of `dbuf.c`).
    Get {
        n: u32,
        t: u64,
        at: Oid,
        w: Window,
    },
    /// Caller `n` gives the block `at` the bytes `size` times `fill` at tick `t` (`dmu_write` of a whole block).
    Put {
        n: u32,
        t: u64,
        at: Oid,
        size: u32,
        fill: u8,
    },
    /// Caller `n` writes `bytes` over those of the block `at` from byte `from` on, at tick `t` (`dmu_write` of a part).
    Patch {
        n: u32,
        t: u64,
        at: Oid,
        from: u32,
        bytes: Run,
    },
    /// Caller `n` keeps the dbuf of the block `at` at tick `t` (`dbuf_hold`).
    Pin {
        n: u32,
        t: u64,
        at: Oid,
    },
    /// Caller `n` ends one of its pins of the dbuf of `at` (`dbuf_rele`).
    Unpin {
        n: u32,
        at: Oid,
    },
    /// One feed of the cache device (`l2arc_feed_thread` of `arc.c`).
    Feed,
    /// The group ends, and all dirty blocks are written to the pool at tick `t` (`spa_sync`).
    Txg {
        t: u64,
    },
    /// The group ends, and every shard may cache `c` bytes from here on.
    Cap {
        c: u64,
    },
}
