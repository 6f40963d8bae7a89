//! One shard: a trace with ample memory, by hand from the rules of its events. Those of other events, and which victims are named, are
//! computed from the definitions in `arc_core/proofs/WorkedRows`.
mod feeds;

use arc_core::{Bounds, Event, Origin, Shard};
use blk_ptr::{Digest, Key};

const BOUNDS: Bounds = Bounds {
    write_max: 8_388_608,
    headroom: 2,
};

const DIGEST: Digest = Digest([0; 32]);

/// The i-th of blocks of one size, one after the other.
fn block(size: u64, i: u64) -> Key {
    Key {
        offset: size.wrapping_mul(i),
        size,
        birth: 1,
    }
}

/// Makes an event, where it may come and memory is there.
fn make(shard: &mut Shard, event: Event) -> bool {
    if shard.reserve(3, 1).is_err() || !shard.legal(&event) {
        return false;
    }
    shard.step(event);
    true
}

fn miss(key: Key, t: u64) -> Event {
    Event::Miss { n: 0, key, t }
}

fn arrive(key: Key) -> Event {
    Event::Arrive {
        n: 0,
        key,
        digest: DIGEST,
        from: Origin::Pool,
    }
}

/// Caller 0 reads a block that is missing, and gives it back.
fn fetch(shard: &mut Shard, key: Key, t: u64) -> bool {
    make(shard, miss(key, t)) && make(shard, arrive(key)) && make(shard, Event::Drop { n: 0, key })
}

/// Reads so many blocks of a quarter of 4,096 bytes, one after the other, and answers whether all were missing.
fn fetch_quarters(shard: &mut Shard, blocks: u64) -> bool {
    for i in 0..blocks {
        if !fetch(shard, block(1024, i), i) {
            return false;
        }
    }
    true
}
