//! Callers that meet in a cache of two callers that keeps 4,096 bytes, with ample memory.
ghost use Rattle.std.specs.Prelude.{◌≡◌, IfOk};
ghost use Rattle.arc_examples.specs.Ready.{IsNew, IsReady};

mod joins;
mod looks;

use arc_core::{Bounds, Config};
use arc_examples::{Pair, SIZE, opened_pair, run_soak};
use blk_ptr::{Key, NoMemory, Ptr, digest_of};
use std::alloc::Global;

// Two callers, one shard of 4,096 bytes, 16 buckets and one cell.
const TWO: Config = Config {
    callers: 2,
    shards: 1,
    buckets: 16,
    cells: 1,
    c: 4096,
    mintime: 0,
    dbuf_bytes: 4096,
    bounds: Bounds {
        write_max: 8_388_608,
        headroom: 2,
    },
};

// The pointer of the block of this number, among blocks of 2,048 zeros.
fn big(number: u64) -> Ptr {
    let key = Key {
        offset: number.wrapping_mul(2048),
        size: 2048,
        birth: 1,
    };
    let digest = digest_of(&[0; 2048]);
    Ptr { key, digest }
}

// Such a cache, over pools of 6,144 zeros.
fn opened(alloc: Global) -> Result<Pair, NoMemory>
    ensures config { IfOk result (λ p. (p.arcs.config.callers ≡ 2) × (p.arcs.config.shards ≡ 1) × (p.arcs.config.cells ≡ 1)) }
    ensures feeder { IfOk result (λ p. IsReady p.arcs p.feeder.party × (p.feeder.party.number ≡ 2)) }
    ensures new { IfOk result (λ p. IsNew p.arcs 2 p.feeder.party × IsNew p.arcs 1 p.two.party) }
    ensures one { IfOk result (λ p. IsReady p.arcs p.one.party × (p.one.party.number ≡ 0)) }
    ensures two { IfOk result (λ p. IsReady p.arcs p.two.party × (p.two.party.number ≡ 1)) }
{
    opened_pair(alloc, &TWO, 6144 / SIZE)
}

// Four callers do their calls, and the histories replay. A scan passes a key only where it meets a taken bucket, so one soak of a few has to.
#[test]
fn soaks_replay(rt: HostRuntime) {
    let mut passed = false;
    for _ in 0..4 {
        let Ok(soaked) = run_soak(&rt, rt.alloc()) else {
            panic!(rt; "memory")
        };
        assert!(rt; soaked.replay);
        passed = soaked.passes > 0;
        if passed {
            break;
        }
    }
    assert!(rt; passed);
}
