//! A bucket of headers: the owners of a block that is taken and given back, which no clause counts.
ghost use Rattle.std.specs.Prelude.{◌≡◌};

use blk_ptr::{Block, Key, NoMemory, State};
use hash_chain::{Bucket, Header, Kept};
use std::alloc::Global;
use std::sync::Arc;
use std::test::Fail;

fn key(offset: u64) -> Key
    ensures { result ≡ record { offset = offset; size = 512; birth = 1 } }
{
    Key {
        offset,
        size: 512,
        birth: 1,
    }
}

fn header(offset: u64, block: Option<Kept>) -> Header
    ensures { result.key ≡ record { offset = offset; size = 512; birth = 1 } }
{
    Header {
        key: key(offset),
        state: State::Mru,
        reading: false,
        place: None,
        digest: None,
        block,
    }
}

// Adds a header, where its key has none.
fn put(bucket: &mut Bucket, header: Header) -> Result<(), NoMemory> {
    bucket.reserve(1)?;
    if bucket.find(header.key).is_none() {
        bucket.add(header);
    }
    Ok(())
}

// Takes the block that the key's header keeps and gives it back, at an entry that stands near `near`. Answers near which place it stood before.
fn lend(bucket: &mut Bucket, key: Key, near: usize) -> Option<usize> {
    let at = bucket.find(key)?;
    let before = bucket.at(at).block.as_ref()?.near();
    let Ok(owner) = bucket.take_block(at) else {
        return None;
    };
    bucket.give_block(at, owner, near);
    Some(before)
}

// A block of zero bytes.
fn zeros(alloc: Global) -> Result<Arc<Block>, Fail> {
    let bytes = vec![in alloc; 0u8; 512]?;
    Ok(Arc::new(alloc, Block::seal(bytes))?)
}

// A bucket of two headers, of which the second keeps this block.
fn with_block(alloc: Global, block: &Arc<Block>) -> Result<Bucket, NoMemory> {
    let mut bucket = Bucket::new(alloc);
    put(&mut bucket, header(0, None))?;
    let kept = Kept::new(Arc::try_clone(block)?);
    put(&mut bucket, header(512, Some(kept)))?;
    Ok(bucket)
}

#[test]
fn a_block_given_back_is_taken_again(rt: HostRuntime) -> Result<(), Fail> {
    let block = zeros(rt.alloc())?;
    let mut bucket = with_block(rt.alloc(), &block)?;
    let before = [
        lend(&mut bucket, key(0), 3),
        lend(&mut bucket, key(512), 3),
        lend(&mut bucket, key(512), 5),
    ];
    assert!(rt; before == [None, Some(usize::MAX), Some(3)]);
    // The test itself has one owner, and the header the block and the spare.
    assert!(rt; Arc::strong_count(&block) == 3);
    Ok(())
}
