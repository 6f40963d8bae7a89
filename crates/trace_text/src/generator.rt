//! The made trace: reads of drawn blocks over a pool of zero bytes.
ghost use Rattle.std.specs.Prelude.{◌<◌, ◌≤◌, ◌≡◌, ◌^◌, IfOk, map};
ghost use Rattle.std.specs.List.{range_with_len};
ghost use Rattle.trace_text.specs.Generator.{IsGenerated, next_draw, generated_block, generated_read, zero_digest};
ghost use Rattle.trace_text.specs.Grammar.{IsFormed};

use crate::bounds::DEFAULT_BOUNDS;
use crate::items::{Blocks, Objects, Ops};
use crate::op::Op;
use crate::trace::Trace;
use arc_core::Config;
use blk_ptr::{Digest, Key, NoMemory, Ptr, SECTOR, digest_of};
use dbuf_state::Window;
use std::alloc::{AllocError, Global};

/// The most blocks of a generated trace.
pub const MOST_GENERATED_BLOCKS: u32 = 32_768;

/// The most operations of a generated trace.
pub const MOST_GENERATED_READS: u32 = 1_000_000;

/// Makes a trace of reads of blocks that are drawn by the linear congruential generator of the C standard's example of
/// `rand`, over a pool of zero bytes, by one caller in one shard with room for a quarter of the blocks. Err is want of
/// memory.
pub fn gen_trace(alloc: Global, seed: u32, blocks: u32, ops: u32) -> Result<Trace, NoMemory>
    requires seeded { seed < 2 ^ 31 }
    requires some { 1 ≤ blocks }
    requires few { blocks ≤ MOST_GENERATED_BLOCKS }
    requires short { ops ≤ MOST_GENERATED_READS }
    ensures drawn { IfOk result (IsGenerated seed blocks ops) }
    ensures formed { IfOk result IsFormed }
{
    Ok(generated(alloc, seed, blocks, ops)?)
}

/// The sizes, the blocks and the reads of a generated trace.
fn generated(alloc: Global, seed: u32, blocks: u32, ops: u32) -> Result<Trace, AllocError>
    requires seeded { seed < 2 ^ 31 }
    requires some { 1 ≤ blocks }
    ensures { IfOk result (IsGenerated seed blocks ops) }
{
    let config = Config {
        callers: 1,
        shards: 1,
        buckets: 256,
        cells: 1,
        c: (u64::from(blocks) * 128).max(4096),
        mintime: 0,
        dbuf_bytes: 0,
        bounds: DEFAULT_BOUNDS,
    };
    Ok(Trace {
        config,
        blocks: Blocks::from_vec(zero_blocks(alloc, blocks)?),
        objects: Objects::from_vec(Vec::new(alloc)),
        ops: Ops::from_vec(drawn_reads(alloc, seed, blocks, ops)?),
    })
}

/// The digest of one sector of zero bytes.
#[tactic(auto, unfolding(crate::specs::Generator::zero_digest))]
fn zero_digest() -> Digest
    ensures { result ≡ zero_digest }
{
    digest_of(&[0; 512])
}

/// Blocks of one sector of zero bytes each, one after the other.
fn zero_blocks(alloc: Global, count: u32) -> Result<Vec<Ptr>, AllocError>
    ensures { IfOk result (λ blocks. blocks.items ≡ map generated_block (range_with_len 0 count)) }
{
    let digest = zero_digest();
    let mut blocks = Vec::with_capacity(alloc, count as usize)?;
    for number in 0..count {
        let key = Key {
            offset: u64::from(number) * SECTOR,
            size: SECTOR,
            birth: 1,
        };
        blocks.push(Ptr { key, digest })?;
    }
    Ok(blocks)
}

/// Reads of drawn blocks, at rising ticks from 1.
fn drawn_reads(alloc: Global, seed: u32, blocks: u32, count: u32) -> Result<Vec<Op>, AllocError>
    requires seeded { seed < 2 ^ 31 }
    requires some { 1 ≤ blocks }
    ensures { IfOk result (λ reads. reads.items ≡ map (generated_read seed blocks) (range_with_len 0 count)) }
{
    let mut reads = Vec::with_capacity(alloc, count as usize)?;
    let mut drawn = seed;
    for number in 0..count {
        drawn = next(drawn);
        let x = drawn / 65536 % blocks;
        let w = Window { at: 0, len: 0 };
        let t = u64::from(number) + 1;
        reads.push(Op::Read { n: 0, t, x, w })?;
    }
    Ok(reads)
}

/// The draw after this one.
fn next(drawn: u32) -> u32
    requires { drawn < 2 ^ 31 }
    ensures next { result ≡ next_draw drawn }
    ensures small { result < 2 ^ 31 }
{
    ((u64::from(drawn) * 1_103_515_245 + 12345) % (1 << 31)) as u32
}
