//! Keys: values from outside for what a clause states by a definition.
use blk_ptr::{Key, hash_of};

fn key(offset: u64) -> Key {
    Key {
        offset,
        size: 512,
        birth: 1,
    }
}

#[test]
fn keys_are_spread_over_buckets(rt: HostRuntime) {
    let rows = [
        (0, 0x20, 0),
        (512, 0x9e37_79b9_e17d_058c, 12),
        (1024, 0x3c6e_f372_c2fa_0b38, 8),
    ];
    for (offset, hash, bucket) in rows {
        let key = key(offset);
        assert!(rt; hash_of(key) == hash && key.bucket(1, 16) == bucket && key.shard(1) == 0);
    }
}
