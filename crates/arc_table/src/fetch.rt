//! How the bytes of a block are read and hashed, from the cache device or the pool (`l2arc_read_done` of OpenZFS's `arc.c`, which goes on with
//! the pool where the device's bytes are wrong). What is called from outside takes the party, which holds no bucket and no shard then, and can't
//! take one: it is lent to be read.
ghost use Rattle.std.specs.Prelude.{◌≡◌, ◌≢◌, ◌⊎◌, ℕ, List, Option, ◌+◌, ◌≤◌, ◌<◌, vec_len, IfOk, IfErr, IfSome, OnOk, OnErr, OnSome, [], ◌∷◌, Some, None, Ok, Err};
ghost use Rattle.blk_ptr.specs.Key.{IsValid};
ghost use Rattle.blk_ptr.specs.Ptr.{IsOf, range_of, sha256_of};
ghost use Rattle.arc_core.specs.Config.{IsConfig};
ghost use Rattle.vdev_io.specs.Calls.{Call, MakesCall, MakesDeviceCalls, answered};
ghost use Rattle.vdev_io.specs.Faults.{CountsOne, Rose};
ghost use Rattle.arc_table.specs.Fetching.{AsksDevice, CameFromCache, CameFromPool, CountsPool, CountsPoolFault, FailsPool, HasFetched, IsNoMismatch, IsNotToAsk, IsToAsk, Unserved, WasUnread, bytes_from, origin_of, read_at};
ghost use Rattle.arc_table.specs.Looking.{HasNoLook};
ghost use Rattle.arc_table.specs.Reading.{EndsPast, KeepsDevice};

use crate::arcs::{Arcs, Party};
use crate::read::Read;
use arc_core::{EntryView, FailedAt, Keeps, Origin, ReadFault};
use blk_ptr::{Block, Digest, Key, NoMemory, Ptr};
use std::alloc::Global;
use std::sync::Arc;
use vdev_io::{CacheDev, Failed, Pool};

/// Why the bytes of a block were not had.
#[derive(Clone, Copy, Debug, PartialEq, Eq)]
pub(crate) enum Unfetched {
    /// The pool failed.
    PoolFault,
    /// The pool gave bytes of this digest, which isn't the pointer's.
    Mismatch { found: Digest },
    /// Memory was refused, before the pool was read or after.
    NoMemory { at: FailedAt },
}

/// A block that was fetched: one owner of it for the reader and one for the cache, and where it came from.
#[derive(Drop)]
pub(crate) struct Fetched {
    pub(crate) block: Arc<Block>,
    pub(crate) shared: Arc<Block>,
    pub(crate) from: Origin,
}

// Reads the bytes in a key's range from the pool, once.
fn read_range<P: Pool>(alloc: Global, pool: &mut P, key: Key) -> Result<Vec<u8>, Unfetched>
    requires { IsValid (P.size pool.old) key }
    ensures size { IfOk result (λ bytes. vec_len bytes ≡ key.size) }
    ensures bytes { IfOk result (λ bytes. IfSome (P.told pool.old) (λ image. bytes.items ≡ range_of image key)) }
    ensures read { OnOk result (CountsOne (P.reads pool.old) (P.reads pool.new)) }
    ensures err { IfErr result IsNoMismatch }
    ensures rose { result ≡ Err Unfetched.PoolFault → Rose (P.faults pool.old) (P.faults pool.new) }
    ensures counted { IfErr result (λ why. CountsPool why (P.reads pool.old) (P.reads pool.new)) }
    ensures fault { CountsPoolFault (P.faults pool.old) (P.faults pool.new) result }
    ensures unread { result ≡ Err (Unfetched.NoMemory FailedAt.Unread) → pool.new ≡ pool.old }
    ensures kept { P.faults pool.old ≤ P.faults pool.new }
    ensures told { P.told pool.new ≡ P.told pool.old }
    ensures size_kept { P.size pool.new ≡ P.size pool.old }
    ensures others { P.other_calls pool.new ≡ P.other_calls pool.old }
{
    let Ok(mut bytes) = vec![in alloc; 0u8; key.size as usize] else {
        return Err(Unfetched::NoMemory {
            at: FailedAt::Unread,
        });
    };
    let Ok(()) = pool.read(key.offset, &mut bytes) else {
        return Err(Unfetched::PoolFault);
    };
    Ok(bytes)
}

// Reads the block from the pool, once, and compares its digest.
fn read_pool<P: Pool>(alloc: Global, pool: &mut P, ptr: &Ptr) -> Result<Block, Unfetched>
    requires { IsValid (P.size pool.old) ptr.now.key }
    ensures of { IfOk result (λ block. IsOf block ptr.now) }
    ensures bytes { IfOk result (λ block. IfSome (P.told pool.old) (λ image. block ≡ range_of image ptr.now.key)) }
    ensures read { OnOk result (CountsOne (P.reads pool.old) (P.reads pool.new)) }
    ensures err { IfErr result (FailsPool (P.faults pool.old) (P.faults pool.new) (P.told pool.old) ptr.now) }
    ensures counted { IfErr result (λ why. CountsPool why (P.reads pool.old) (P.reads pool.new)) }
    ensures fault { CountsPoolFault (P.faults pool.old) (P.faults pool.new) result }
    ensures unread { result ≡ Err (Unfetched.NoMemory FailedAt.Unread) → pool.new ≡ pool.old }
    ensures kept { P.faults pool.old ≤ P.faults pool.new }
    ensures told { P.told pool.new ≡ P.told pool.old }
    ensures size { P.size pool.new ≡ P.size pool.old }
    ensures others { P.other_calls pool.new ≡ P.other_calls pool.old }
{
    let block = Block::seal(read_range(alloc, pool, ptr.key)?);
    let found = block.digest();
    if found != ptr.digest {
        return Err(Unfetched::Mismatch { found });
    }
    Ok(block)
}

// Reads so many bytes from this place of the cache device, once, where it doesn't fail.
fn read_place<D: CacheDev>(
    alloc: Global,
    cache: &mut D,
    place: u64,
    key: Key,
) -> Result<Option<Vec<u8>>, NoMemory>
    requires { place + key.size ≤ D.size cache.old }
    ensures size { IfOk result (λ answer. IfSome answer (λ bytes. vec_len bytes ≡ key.size)) }
    ensures bytes { IfOk result (λ answer. IfSome answer (λ bytes. IfSome (D.told cache.old) (λ image. bytes.items ≡ bytes_from image place key))) }
    ensures gave { IfOk result (λ answer. OnSome answer (MakesDeviceCalls D.CacheDev (answered Call.Gave (read_at place key) ∷ []) cache.old cache.new)) }
    ensures failed { result ≡ Ok None → MakesDeviceCalls D.CacheDev (answered Call.Failed (read_at place key) ∷ []) cache.old cache.new }
    ensures err { OnErr result (cache.new ≡ cache.old) }
    ensures keeps { KeepsDevice D.CacheDev cache.old cache.new }
{
    let mut bytes = vec![in alloc; 0u8; key.size as usize]?;
    let Ok(()) = cache.read(place, &mut bytes) else {
        return Ok(None);
    };
    Ok(Some(bytes))
}

// Reads the block from this place of the cache device, once, where the device doesn't fail and has bytes of the pointer there.
fn read_cache<D: CacheDev>(
    alloc: Global,
    cache: &mut D,
    ptr: &Ptr,
    place: u64,
) -> Result<Option<Block>, NoMemory>
    requires { place + ptr.now.key.size ≤ D.size cache.old }
    ensures some { IfOk result (λ answer. IfSome answer (λ block. IsOf block ptr.now)) }
    ensures bytes { IfOk result (λ answer. IfSome answer (λ block. IfSome (D.told cache.old) (λ image. block ≡ bytes_from image place ptr.now.key))) }
    ensures gave { IfOk result (λ answer. OnSome answer (MakesDeviceCalls D.CacheDev (answered Call.Gave (read_at place ptr.now.key) ∷ []) cache.old cache.new)) }
    ensures none { result ≡ Ok None → MakesDeviceCalls D.CacheDev (answered Call.Failed (read_at place ptr.now.key) ∷ []) cache.old cache.new
        ⊎ (MakesDeviceCalls D.CacheDev (answered Call.Gave (read_at place ptr.now.key) ∷ []) cache.old cache.new × IfSome (D.told cache.old) (λ image. ¬ IsOf (bytes_from image place ptr.now.key) ptr.now)) }
    ensures err { OnErr result (cache.new ≡ cache.old) }
    ensures keeps { KeepsDevice D.CacheDev cache.old cache.new }
{
    let Some(bytes) = read_place(alloc, cache, place, ptr.key)? else {
        return Ok(None);
    };
    let block = Block::seal(bytes);
    if block.digest() != ptr.digest {
        return Ok(None);
    }
    Ok(Some(block))
}

// The place at which the cache device is to be asked for a block of which this was known.
fn place_to_ask(found: Option<EntryView>, ptr: &Ptr, len: u64) -> Option<u64>
    ensures some { IfSome result (λ place. IsToAsk ptr.now found len place) }
    ensures none { result ≡ None → IsNotToAsk ptr.now found len }
{
    let entry = found?;
    let place = entry.place?;
    if let Some(digest) = entry.digest
        && digest != ptr.digest
    {
        return None;
    }
    if len < ptr.key.size || place > len - ptr.key.size {
        return None;
    }
    Some(place)
}

// Reads the block from the cache device, where the device is to be asked for it and has bytes of the pointer.
fn ask_cache<D: CacheDev>(
    alloc: Global,
    cache: &mut D,
    ptr: &Ptr,
    found: Option<EntryView>,
) -> Result<Option<Block>, NoMemory>
    ensures some { IfOk result (λ answer. IfSome answer (λ block. CameFromCache D.CacheDev ptr.now found block cache.old cache.new)) }
    ensures none { result ≡ Ok None → Unserved D.CacheDev ptr.now found cache.old cache.new }
    ensures err { OnErr result (cache.new ≡ cache.old) }
    ensures keeps { KeepsDevice D.CacheDev cache.old cache.new }
{
    let Some(place) = place_to_ask(found, ptr, cache.len()) else {
        return Ok(None);
    };
    read_cache(alloc, cache, ptr, place)
}

// Both owners of a block. All the memory that the end of a read takes is taken here.
fn share(alloc: Global, block: Block, from: Origin) -> Result<Fetched, NoMemory>
    ensures block { IfOk result (λ f. f.block.value ≡ block) }
    ensures shared { IfOk result (λ f. f.shared.value ≡ block) }
    ensures from { IfOk result (λ f. f.from ≡ from) }
{
    let block = Arc::new(alloc, block)?;
    let shared = Arc::try_clone(&block)?;
    Ok(Fetched {
        block,
        shared,
        from,
    })
}

// Reads the bytes in a key's range into memory that was taken before. The pool is read once.
fn read_into<P: Pool>(pool: &mut P, key: Key, mut bytes: Vec<u8>) -> Result<Vec<u8>, Failed>
    requires valid { IsValid (P.size pool.old) key }
    requires room { vec_len bytes ≡ key.size }
    ensures size { IfOk result (λ bytes. vec_len bytes ≡ key.size) }
    ensures bytes { IfOk result (λ bytes. IfSome (P.told pool.old) (λ image. bytes.items ≡ range_of image key)) }
    ensures ok { OnOk result (MakesCall P.Pool Call.Gave pool.old pool.new) }
    ensures err { OnErr result (MakesCall P.Pool Call.Failed pool.old pool.new) }
{
    pool.read(key.offset, &mut bytes)?;
    Ok(bytes)
}

// A block of these bytes, where they have the pointer's digest, and else the digest that they have.
fn sealed(bytes: Vec<u8>, ptr: &Ptr) -> Result<Block, Digest>
    requires { vec_len bytes ≡ ptr.now.key.size }
    ensures of { IfOk result (λ block. IsOf block ptr.now) }
    ensures bytes { IfOk result (λ block. block ≡ bytes.items) }
    ensures other { IfErr result (λ found. found ≢ ptr.now.digest) }
    ensures found { IfErr result (λ found. found ≡ sha256_of bytes.items) }
{
    let block = Block::seal(bytes);
    let found = block.digest();
    if found != ptr.digest {
        return Err(found);
    }
    Ok(block)
}

impl<C: Keeps> Arcs<C> {
    // Fetches the block from the pool, which is read once.
    pub(crate) fn fetch_pool<P: Pool>(
        &self,
        party: &Party<C>,
        pool: &mut P,
        ptr: &Ptr,
    ) -> Result<Fetched, Unfetched>
        requires look { HasNoLook self.now party.now }
        requires valid { IsValid (P.size pool.old) ptr.now.key }
        ensures ok { IfOk result (λ f. CameFromPool ptr.now f.block.value (P.told pool.old) (P.reads pool.old) (P.reads pool.new)) }
        ensures shared { IfOk result (λ f. f.shared.value ≡ f.block.value) }
        ensures from { IfOk result (λ f. f.from ≡ Origin.Pool) }
        ensures err { IfErr result (FailsPool (P.faults pool.old) (P.faults pool.new) (P.told pool.old) ptr.now) }
        ensures counted { IfErr result (λ why. CountsPool why (P.reads pool.old) (P.reads pool.new)) }
        ensures fault { CountsPoolFault (P.faults pool.old) (P.faults pool.new) result }
        ensures unread { WasUnread origin_of result → pool.new ≡ pool.old }
        ensures kept { P.faults pool.old ≤ P.faults pool.new }
        ensures told { P.told pool.new ≡ P.told pool.old }
        ensures size { P.size pool.new ≡ P.size pool.old }
        ensures others { P.other_calls pool.new ≡ P.other_calls pool.old }
    {
        let _ = party;
        let block = read_pool(self.alloc, pool, ptr)?;
        let Ok(fetched) = share(self.alloc, block, Origin::Pool) else {
            return Err(Unfetched::NoMemory { at: FailedAt::Pool });
        };
        Ok(fetched)
    }

    // Fetches the block, of which this was known when its read began: from the cache device where that has it, else from the pool, which is
    // read once then. It takes all the memory that the end of the read takes.
    pub(crate) fn fetch<P: Pool, D: CacheDev>(
        &self,
        party: &Party<C>,
        pool: &mut P,
        cache: &mut D,
        ptr: &Ptr,
        found: Option<EntryView>,
    ) -> Result<Fetched, Unfetched>
        requires look { HasNoLook self.now party.now }
        requires valid { IsValid (P.size pool.old) ptr.now.key }
        ensures config { IsConfig self.now.config }
        ensures ok { IfOk result (λ f. HasFetched ptr.now f.from f.block.value (P.told pool.old) (P.reads pool.old) (P.reads pool.new)) }
        ensures of { IfOk result (λ f. IsOf f.block.value ptr.now) }
        ensures shared { IfOk result (λ f. f.shared.value ≡ f.block.value) }
        ensures device { AsksDevice D.CacheDev ptr.now found result cache.old cache.new }
        ensures err { IfErr result (FailsPool (P.faults pool.old) (P.faults pool.new) (P.told pool.old) ptr.now) }
        ensures counted { IfErr result (λ why. CountsPool why (P.reads pool.old) (P.reads pool.new)) }
        ensures fault { CountsPoolFault (P.faults pool.old) (P.faults pool.new) result }
        ensures unread { WasUnread origin_of result → pool.new ≡ pool.old }
        ensures kept { P.faults pool.old ≤ P.faults pool.new }
        ensures told { P.told pool.new ≡ P.told pool.old }
        ensures size { P.size pool.new ≡ P.size pool.old }
        ensures others { P.other_calls pool.new ≡ P.other_calls pool.old }
        ensures keeps { KeepsDevice D.CacheDev cache.old cache.new }
    {
        let Ok(answer) = ask_cache(self.alloc, cache, ptr, found) else {
            return Err(Unfetched::NoMemory {
                at: FailedAt::Unread,
            });
        };
        let Some(block) = answer else {
            return self.fetch_pool(party, pool, ptr);
        };
        let Ok(fetched) = share(self.alloc, block, Origin::L2) else {
            return Err(Unfetched::NoMemory {
                at: FailedAt::Unread,
            });
        };
        Ok(fetched)
    }

    // Reads a block past the cache, which keeps bytes of the digest `kept` under its key, into memory that was taken before. The pool is read
    // once.
    pub(crate) fn read_past<P: Pool>(
        &self,
        party: &Party<C>,
        pool: &mut P,
        ptr: &Ptr,
        bytes: Vec<u8>,
        kept: Digest,
    ) -> Result<Read, ReadFault>
        requires look { HasNoLook self.now party.now }
        requires valid { IsValid (P.size pool.old) ptr.now.key }
        requires room { vec_len bytes ≡ ptr.now.key.size }
        ensures { EndsPast P.Pool ptr.now kept pool.old pool.new result }
    {
        let _ = party;
        let Ok(bytes) = read_into(pool, ptr.key, bytes) else {
            return Err(ReadFault::PoolFault);
        };
        let block = match sealed(bytes, ptr) {
            Ok(block) => block,
            Err(found) => return Err(ReadFault::Mismatch { found }),
        };
        let Ok(block) = Arc::new(self.alloc, block) else {
            return Err(ReadFault::NoMemory);
        };
        Ok(Read::Past { block, kept })
    }
}
