//! Where a key stands in a cache of several shards.
ghost use Rattle.std.specs.Prelude.{◌≡◌, ℕ, ◌<◌, ◌/◌, ◌%◌};
ghost use Rattle.blk_ptr.specs.Hash.{hash_of_key, shard_of, bucket_of};

use crate::key::{Key, SECTOR};

/// The odd number nearest to 2^64 divided by the golden ratio: places that follow one another are spread by it.
const GOLDEN: u64 = 0x9e37_79b9_7f4a_7c15;

/// The hash of a key, by which its shard and its bucket are found.
pub fn hash_of(key: Key) -> u64
    ensures { result ≡ hash_of_key key }
{
    let spread = (key.offset / SECTOR)
        .wrapping_mul(GOLDEN)
        .wrapping_add((key.size / SECTOR).wrapping_mul(31))
        .wrapping_add(key.birth);
    spread ^ (spread >> 32)
}

// A hash divided by `n`. Where `n` is a power of two it is shifted, since a division of 64 bits takes many times as long.
fn quotient(hash: u64, n: u32) -> u64
    requires { 0 < n }
    ensures { result ≡ hash / n }
{
    if n.is_power_of_two() {
        hash >> n.trailing_zeros()
    } else {
        hash / u64::from(n)
    }
}

// What that division leaves: the low bits of the hash where `n` is a power of two.
fn remainder(hash: u64, n: u32) -> u32
    requires { 0 < n }
    ensures { result ≡ hash % n }
{
    if n.is_power_of_two() {
        (hash & u64::from(n - 1)) as u32
    } else {
        (hash % u64::from(n)) as u32
    }
}

impl Key {
    /// The shard in which this key stands, of so many: from 0 on.
    pub fn shard(self, shards: u32) -> u32
        requires { 0 < shards }
        ensures { result ≡ shard_of shards self }
    {
        remainder(hash_of(self), shards)
    }

    /// The bucket in which this key stands in its shard, of so many shards with so many buckets each: from 0 on.
    pub fn bucket(self, shards: u32, buckets: u32) -> u32
        requires some_shards { 0 < shards }
        requires some_buckets { 0 < buckets }
        ensures { result ≡ bucket_of shards buckets self }
    {
        remainder(quotient(hash_of(self), shards), buckets)
    }
}
