//! What both loads stand on: cells that keep nothing, the blocks, and draws.
ghost use Rattle.std.specs.Prelude.{◌≡◌};

use arc_core::{Bounds, Config, Keeps};
use arc_table::Party;
use blk_ptr::{Digest, Key, Ptr};
use vdev_io::MemPool;

/// A cell that keeps nothing.
#[derive(Clone, Copy, Drop)]
pub struct Plain;

impl Keeps for Plain {
    ghost use Rattle.std.specs.Prelude.{[], ⊤};

    ghost holds = { λ _. [] };

    ghost entries = { λ _. [] };

    ghost opening = { λ _. [] };

    ghost claims = { λ _ _. [] };

    ghost sound = { λ _. ⊤ };

    fn keeps(&self, _key: Key) -> u64 {
        0
    }
}

/// What a caller works with, and how its draws begin.
#[derive(Drop)]
pub struct Caller {
    /// Its party.
    pub party: Party<Plain>,
    /// Its fork of the pool.
    pub pool: MemPool,
    /// What its draws begin with.
    pub seed: u64,
}

/// The bytes of a block.
pub const SIZE: u64 = 512;

// The SHA-256 of so many zeros.
const ZEROS: Digest = Digest([
    0x07, 0x6a, 0x27, 0xc7, 0x9e, 0x5a, 0xce, 0x2a, 0x3d, 0x47, 0xf9, 0xdd, 0x2e, 0x83, 0xe4, 0xff,
    0x6e, 0xa8, 0x87, 0x2b, 0x3c, 0x22, 0x18, 0xf6, 0x6c, 0x92, 0xb8, 0x9b, 0x55, 0xf3, 0x65, 0x60,
]);

/// The pointer of the block of this number.
pub fn ptr_of(block: u64) -> Ptr {
    let key = Key {
        offset: block.wrapping_mul(SIZE),
        size: SIZE,
        birth: 1,
    };
    Ptr { key, digest: ZEROS }
}

/// The number that is drawn after `x`, below 2^31.
pub fn draw(x: u64) -> u64 {
    x.wrapping_mul(1_103_515_245).wrapping_add(12_345) % (1 << 31)
}

/// The numbers of a cache of four callers.
pub fn config_of(shards: u32, buckets: u32, c: u64) -> Config
    ensures callers { result.callers ≡ 4 }
    ensures cells { result.cells ≡ 1 }
{
    let bounds = Bounds {
        write_max: 8_388_608,
        headroom: 2,
    };
    Config {
        callers: 4,
        shards,
        buckets,
        cells: 1,
        c,
        mintime: 0,
        dbuf_bytes: 4096,
        bounds,
    }
}
