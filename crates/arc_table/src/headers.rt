//! The header of a key in its bucket, read and brought up to its entry.
ghost use Rattle.std.specs.Prelude.{◌≡◌, ◌-◌, ◌<◌, ◌^◌, IfOk, IfSome, IsSome, Some, is_some, length, slice_get};
ghost use Rattle.blk_ptr.specs.declared.state.State.TheVariants as state;
ghost use Rattle.arc_core.specs.PlainShard.{entry_of};
ghost use Rattle.hash_chain.specs.Chain.{IsAlikeTo, IsWith, given, header_at};
ghost use Rattle.hash_chain.specs.declared.header.Header.{Header};
ghost use Rattle.arc_table.specs.Ready.{IsReady, has_block, keeps_block, said_near};
ghost use Rattle.arc_table.specs.pact.Standing.{Follows, bytes_at, bytes_of, followed};

use crate::heap_bucket::HeapBucket;
use arc_core::Shard;
use blk_ptr::{Block, Digest, Key, NoMemory, Ptr, State};
use hash_chain::Header;
use std::sync::Arc;

// One owner more of the block that the header at `at` has.
pub(crate) fn block_at(bucket: &HeapBucket, at: usize) -> Result<Arc<Block>, NoMemory>
    requires range { at < length bucket.now.headers }
    requires block { IsSome (bytes_of (slice_get bucket.now.headers at)) }
    ensures { IfOk result (λ block. bytes_of (slice_get bucket.now.headers at) ≡ Some block.value) }
{
    let Some(kept) = &bucket.at(at).block else {
        unreachable!()
    };
    kept.share()
}

// Whether a header has a block, of this digest.
fn keeps_block(header: &Header, digest: Digest) -> bool
    ensures { result ≡ keeps_block digest header.now }
{
    match header.digest {
        Some(kept) => header.block.is_some() && kept == digest,
        None => false,
    }
}

// Where the header stands that has a block of the pointer.
#[inline(always)]
pub(crate) fn find_ready(bucket: &HeapBucket, ptr: &Ptr) -> Option<usize>
    ensures ready { IfSome result (λ at. IsReady ptr.now at bucket.now.headers) }
    ensures there { is_some result ≡ has_block ptr.now bucket.now.headers }
{
    let at = bucket.find(ptr.key)?;
    if !keeps_block(bucket.at(at), ptr.digest) {
        return None;
    }
    Some(at)
}

// Near which place of its shard the entry of a header's key stood when that was last said, or `usize::MAX`.
#[inline]
pub(crate) fn near_of(header: &Header) -> usize
    ensures { result ≡ said_near header.now }
{
    match &header.block {
        Some(kept) => kept.near(),
        None => usize::MAX,
    }
}

// The same, where it was said, and else where the entry stands.
fn place_near(header: &Header, shard: &Shard, key: Key) -> usize
    ensures { said_near header.now < 2 ^ 64 - 1 → result ≡ said_near header.now }
{
    let near = near_of(header);
    if near < usize::MAX {
        return near;
    }
    shard.place_of(key)
}

// Gives the block of a hold back to the key's header, and answers near which place the key's entry stands.
#[inline(always)]
pub(crate) fn give_block(
    bucket: &mut HeapBucket,
    shard: &Shard,
    key: Key,
    block: Arc<Block>,
) -> usize
    requires { IsAlikeTo (header_at key bucket.old.headers) block.value }
    ensures given { (h : Header) → header_at key bucket.old.headers ≡ Some h → IsWith key (Some (given block result h)) bucket.old.headers bucket.new.headers }
    ensures near { (h : Header) → header_at key bucket.old.headers ≡ Some h → said_near h < 2 ^ 64 - 1 → result ≡ said_near h }
{
    let Some(at) = bucket.find(key) else {
        return usize::MAX;
    };
    let near = place_near(bucket.at(at), shard, key);
    bucket.give_block(at, block, near);
    near
}

// One owner more of the block that the key's header has.
pub(crate) fn block_of(bucket: &HeapBucket, key: Key) -> Result<Arc<Block>, NoMemory>
    requires { IsSome (bytes_at key bucket.now.headers) }
    ensures { IfOk result (λ block. bytes_at key bucket.now.headers ≡ Some block.value) }
{
    let Some(at) = bucket.find(key) else {
        unreachable!()
    };
    block_at(bucket, at)
}

// The key's header says the state and the place of its entry from now on, and goes where the entry is gone. It takes no memory.
pub(crate) fn follow(bucket: &mut HeapBucket, shard: &Shard, key: Key)
    requires { IsSome (header_at key bucket.old.headers) }
    ensures { Follows key shard.now.now bucket.old.headers bucket.new.headers }
{
    let Some(at) = bucket.find(key) else {
        unreachable!()
    };
    follow_at(bucket, shard, key, at);
}

// The same, where the header stands at `at`.
pub(crate) fn follow_at(bucket: &mut HeapBucket, shard: &Shard, key: Key, at: usize)
    requires range { at < length bucket.old.headers }
    requires found { header_at key bucket.old.headers ≡ slice_get bucket.old.headers at }
    requires key { IfSome (slice_get bucket.old.headers at) (λ h. h.key ≡ key) }
    ensures { Follows key shard.now.now bucket.old.headers bucket.new.headers }
{
    match shard.entry(key) {
        Some(entry) => bucket.change_state(at, entry.state, entry.place),
        None => {
            bucket.remove(at);
        }
    }
}

// The same after a hit. An MFU entry stays what it is, so its header says all of it already.
pub(crate) fn follow_hit(bucket: &mut HeapBucket, shard: &Shard, key: Key, at: usize)
    requires range { at < length bucket.old.headers }
    requires found { header_at key bucket.old.headers ≡ slice_get bucket.old.headers at }
    requires key { IfSome (slice_get bucket.old.headers at) (λ h. h.key ≡ key) }
    requires mfu { (h : Header) → slice_get bucket.old.headers at ≡ Some h → h.state ≡ state.Mfu → followed h (entry_of key shard.now.now) ≡ Some h }
    ensures { Follows key shard.now.now bucket.old.headers bucket.new.headers }
{
    if bucket.at(at).state != State::Mfu {
        follow_at(bucket, shard, key, at);
    }
}
