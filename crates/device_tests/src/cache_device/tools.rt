//! What the tests share: a device of the least length, its blocks, and feeds of one block each.
ghost use Rattle.std.specs.Prelude.{◌≡◌, ◌≤◌, [], length, IfOk, IfSome};
ghost use Rattle.blk_ptr.specs.Key.{IsWellFormed};

use arc_core::Restored;
use blk_ptr::{Block, Key};
use l2_dev::*;
use l2_log::LOG_LEN;
use l2_ring::Live;
use std::alloc::{AllocError, Global};
use vdev_io::{CacheDev, MemCache};

/// The bytes of a device with the shortest ring: four log blocks fit.
pub(super) const LEN: usize = 266_240;

/// The block of this number: 512 bytes, one behind the other in the pool.
pub(super) fn key(number: u8) -> Key
    ensures formed { IsWellFormed result }
    ensures size { result.size ≡ 512 }
{
    Key {
        offset: 512 * u64::from(number),
        size: 512,
        birth: 1,
    }
}

/// The bytes of that block.
pub(super) fn block(alloc: Global, number: u8) -> Result<Block, AllocError>
    ensures { IfOk result (λ block. length block ≡ 512) }
{
    let bytes = vec![in alloc; number; 512]?;
    Ok(Block::seal(bytes))
}

/// The place of that block where blocks 0 to 3 are fed one by one to a device on which nothing was written: the last begins
/// the ring's second lap.
pub(super) fn place(number: u8) -> u64
    ensures { result ≤ 136_192 }
{
    if number < 3 {
        4096 + 66_048 * u64::from(number)
    } else {
        4096
    }
}

/// A device in memory of which nothing was written.
pub(super) fn empty(alloc: Global) -> Option<MemCache> {
    let bytes = vec![in alloc; 0u8; LEN].ok()?;
    Some(MemCache::new(bytes, Vec::new(alloc)))
}

/// Starts a device that is long enough.
pub(super) fn open<D: CacheDev>(alloc: Global, dev: D) -> Option<(L2Dev<D>, Vec<Restored>, Stop)>
    ensures whole { IfSome result (λ t. t.0.cursor.ring.end ≤ D.size t.0.dev) }
    ensures none { IfSome result (λ t. t.0.cursor.pending ≡ []) }
{
    match L2Dev::start(alloc, dev) {
        Started::Ready { l2, restored, stop } => Some((l2, restored, stop)),
        Started::Short { .. } | Started::NoMemory { .. } => None,
    }
}

/// A feed of one block of 512 bytes: begin, put, commit. Answers the block's place.
fn feed<D: CacheDev>(
    l2: &mut L2Dev<D>,
    dropped: &mut Vec<Live>,
    key: Key,
    block: &Block,
) -> Result<u64, DevErr>
    requires whole { l2.old.cursor.ring.end ≤ D.size l2.old.dev }
    requires none { l2.old.cursor.pending ≡ [] }
    requires formed { IsWellFormed key }
    requires sized { (key.size ≡ 512) × (length block.now ≡ 512) }
    ensures whole { l2.new.cursor.ring.end ≤ D.size l2.new.dev }
    ensures none { l2.new.cursor.pending ≡ [] }
{
    let _ring = l2.ring();
    l2.begin(512 + LOG_LEN as u64, dropped)?;
    let place = l2.put(key, block)?;
    l2.commit()?;
    Ok(place)
}

/// A device that was fed, and what each feed answered.
#[derive(Drop)]
pub(super) struct Fed<D: CacheDev> {
    pub l2: L2Dev<D>,
    pub answers: Vec<Result<u64, DevErr>>,
}

/// Starts a device, and feeds these blocks one by one, whatever is answered.
pub(super) fn after_feeds<D: CacheDev>(alloc: Global, dev: D, numbers: &[u8]) -> Option<Fed<D>> {
    let (mut l2, _, _) = open(alloc, dev)?;
    let mut answers = Vec::new(alloc);
    let mut dropped = Vec::new(alloc);
    for number in numbers {
        let block = block(alloc, *number).ok()?;
        answers
            .push(feed(&mut l2, &mut dropped, key(*number), &block))
            .ok()?;
    }
    Some(Fed { l2, answers })
}

/// Whether these blocks were restored, in this order, each at its place and with its digest.
pub(super) fn has_restored(alloc: Global, restored: &[Restored], numbers: &[u8]) -> bool {
    if restored.len() != numbers.len() {
        return false;
    }
    for (found, number) in restored.iter().zip(numbers) {
        let Ok(block) = block(alloc, *number) else {
            return false;
        };
        let expected = Restored {
            key: key(*number),
            place: place(*number),
            digest: Some(block.digest()),
        };
        if *found != expected {
            return false;
        }
    }
    true
}

/// The image of a device that was fed.
pub(super) fn image_of(alloc: Global, fed: Fed<MemCache>) -> Option<Vec<u8>> {
    fed.l2.stop().bytes().to_vec(alloc).ok()
}

/// The image of a device that these blocks are fed to.
pub(super) fn fed_image(alloc: Global, dev: MemCache, numbers: &[u8]) -> Option<Vec<u8>> {
    image_of(alloc, after_feeds(alloc, dev, numbers)?)
}

/// What a start of this image restores, and why the walk ended.
pub(super) fn rebuilt(alloc: Global, image: Vec<u8>) -> Option<(Vec<Restored>, Stop)> {
    let (_, restored, stop) = open(alloc, MemCache::new(image, Vec::new(alloc)))?;
    Some((restored, stop))
}
