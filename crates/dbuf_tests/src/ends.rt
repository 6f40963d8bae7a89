//! A row of every call in which a call of the pool fails: what each of them answers.
use arc_core::{Bounds, Config, ReadFault};
use dbuf_examples::{Answered, Scene, end_all, every_call, oid_of, opened};
use dbuf_state::DbufFault;
use std::alloc::Global;
use std::sync::Wait;
use txg_sync::{SyncFault, Synced};

// One caller, one shard, and a cell of 4,096 bytes.
const WIDE: Config = Config {
    callers: 1,
    shards: 1,
    buckets: 16,
    cells: 1,
    c: 4096,
    mintime: 0,
    dbuf_bytes: 4096,
    bounds: Bounds {
        write_max: 8_388_608,
        headroom: 2,
    },
};

// What every call answers where these calls of the pool fail. None where memory for the cache or its end was refused.
pub(crate) fn every_call_of<R: Wait>(alloc: Global, rt: &R, fails: &[u64]) -> Option<Answered> {
    let Scene {
        arcs,
        mut one,
        mut feeder,
        mut pool,
    } = opened(alloc, &WIDE, 2, 2048, fails).ok()?;
    let answered = every_call(alloc, &arcs, rt, &mut one, &mut feeder, &mut pool);
    match end_all(alloc, rt, arcs, one, feeder) {
        Ok(_closed) => Some(answered),
        Err(_) => None,
    }
}

// Why a call was refused whose read the pool failed.
const POOL: DbufFault = DbufFault::Read(ReadFault::PoolFault);

// Whether the gets show what was written: each byte of the second block is 1, the first byte of the first one was patched, and the new one is written
// whole. The first get is refused where the pool failed it.
fn show_all(answered: &Answered, first_fails: bool) -> bool {
    let first = if first_fails { Err(POOL) } else { Ok([1, 1]) };
    answered.gets == [first, Ok([1, 1]), Ok([9, 0]), Ok([0xab, 0xab])]
}

// Whether all calls between them were done, but for the hold where the pool failed it, and then the end of its pin.
fn are_done(answered: &Answered, hold_fails: bool) -> bool {
    if hold_fails {
        let no_pin = DbufFault::NoPin(oid_of(0));
        answered.calls == [Err(POOL), Ok(()), Err(no_pin), Ok(())]
    } else {
        answered.calls == [Ok(()); 4]
    }
}

// Whether the sync wrote both dirty blocks, or was refused where the pool failed it.
fn are_written(answered: &Answered, write_fails: bool) -> bool {
    let both = Synced {
        blocks: 2,
        bytes: 1024,
        next: 2048,
    };
    let expected = if write_fails {
        Err(SyncFault::PoolFault)
    } else {
        Ok(both)
    };
    answered.sync == expected
}

// Whether a row of which this call of the pool fails is answered as it has to be: the first reads for the first get, the second for the hold, and the
// third and the fourth write.
fn is_right<R: Wait>(alloc: Global, rt: &R, call: u64) -> bool {
    match every_call_of(alloc, rt, &[call]) {
        Some(answered) => {
            show_all(&answered, call == 0)
                && are_done(&answered, call == 1)
                && are_written(&answered, call == 2 || call == 3)
        }
        None => false,
    }
}

#[test]
fn a_call_of_the_pool_fails(rt: HostRuntime) {
    for call in 0..5 {
        assert!(rt; is_right(rt.alloc(), &rt, call));
    }
}
