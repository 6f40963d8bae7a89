//! A cache over cells of dbufs, whose blocks are mapped, with its parties, and a pool that has the blocks' bytes.
ghost use Rattle.std.specs.Prelude.{◌≡◌, ◌+◌, length, IfOk, OnOk};
ghost use Rattle.std.specs.List.{AllByRecursion};
ghost use Rattle.arc_core.specs.Config.{IsConfig};
ghost use Rattle.arc_examples.specs.Ready.{AreNew};
ghost use Rattle.dbuf_examples.specs.Mapped.{IsMapped, IsOne};

use arc_core::Config;
use arc_table::{Arcs, Closed, Party};
use blk_ptr::{Key, NoMemory, Ptr, digest_of};
use dbuf_cells::{Cells, HeapCell, Kept};
use dbuf_state::{Cell, Oid};
use std::alloc::Global;
use vdev_io::MemPool;

/// The bytes of a block.
const SIZE: u64 = 512;

/// A cache of one caller, the caller, the feeder, and the pool.
#[derive(Drop)]
pub struct Scene {
    /// The cache.
    pub arcs: Cells,
    /// The caller.
    pub one: Party<HeapCell>,
    /// The feeder.
    pub feeder: Party<HeapCell>,
    /// The pool.
    pub pool: MemPool,
}

/// The block of this number, of the one object.
pub fn oid_of(block: u64) -> Oid {
    Oid { object: 0, block }
}

/// Each byte of the block of this number.
pub fn byte_of(block: u64) -> u8 {
    (block % 251) as u8
}

/// The pointer of the block of this number.
pub fn ptr_of(block: u64) -> Ptr {
    let key = Key {
        offset: block.wrapping_mul(SIZE),
        size: SIZE,
        birth: 1,
    };
    let digest = digest_of(&[byte_of(block); 512]);
    Ptr { key, digest }
}

// Maps the block of this number.
fn map_one(cell: &mut Cell<Kept>, block: u64) -> Result<(), NoMemory>
    requires { IsMapped cell.old }
    ensures { OnOk result (IsMapped cell.new) }
{
    let at = oid_of(block);
    if cell.mapped(at).is_some() {
        return Err(NoMemory);
    }
    cell.map(at, ptr_of(block))
}

// Maps those of so many blocks that belong to the cell of this number, of so many.
fn map_all(cell: &mut Cell<Kept>, i: u64, cells: u64, blocks: u64) -> Result<(), NoMemory>
    requires { IsMapped cell.old }
    ensures { OnOk result (IsMapped cell.new) }
{
    for block in 0..blocks {
        if block.checked_rem(cells) == Some(i) {
            map_one(cell, block)?;
        }
    }
    Ok(())
}

// The cell of this number, of so many, that keeps so many bytes of these blocks.
fn cell_of_blocks(
    alloc: Global,
    limit: u64,
    i: u64,
    cells: u64,
    blocks: u64,
) -> Result<HeapCell, NoMemory>
    ensures { IfOk result (λ cell. IsMapped cell.value) }
{
    let mut cell = Cell::new(alloc, limit);
    map_all(&mut cell, i, cells, blocks)?;
    Ok(Box::new(alloc, cell)?)
}

// All cells of a configuration, with these blocks.
fn cells_of(alloc: Global, config: &Config, blocks: u64) -> Result<Vec<HeapCell>, NoMemory>
    ensures count { IfOk result (λ cells. length cells.items ≡ config.now.cells) }
    ensures mapped { IfOk result (λ cells. AllByRecursion (λ c. IsMapped c.value) cells.items) }
{
    let mut cells = Vec::new(alloc);
    let count = config.cells;
    for i in 0..count {
        cells.push(cell_of_blocks(
            alloc,
            config.dbuf_bytes,
            u64::from(i),
            u64::from(count),
            blocks,
        )?)?;
    }
    Ok(cells)
}

/// The bytes of so many blocks, and zeros behind them, so many bytes in all.
pub fn image_of(alloc: Global, blocks: u64, len: usize) -> Result<Vec<u8>, NoMemory> {
    let mut bytes = Vec::new(alloc);
    for block in 0..blocks {
        bytes.extend_from_slice(&[byte_of(block); 512])?;
    }
    bytes.resize(len, 0)?;
    Ok(bytes)
}

/// A new cache, its parties by their numbers, and a pool of so many bytes, the first of which are those of so many blocks; the calls of these
/// numbers fail on it.
pub fn opened(
    alloc: Global,
    config: &Config,
    blocks: u64,
    len: usize,
    fails: &[u64],
) -> Result<Scene, NoMemory>
    requires valid { IsConfig config.now }
    requires callers { config.now.callers ≡ 1 }
    ensures config { IfOk result (λ s. s.arcs.config ≡ config.now) }
    ensures one { IfOk result (λ s. IsOne s.arcs 0 s.one) }
    ensures feeder { IfOk result (λ s. IsOne s.arcs 1 s.feeder) }
{
    let image = image_of(alloc, blocks, len)?;
    let fails = fails.to_vec(alloc)?;
    let (arcs, mut parties, pool) = made(alloc, config, blocks, image, fails)?;
    let feeder = last_of(&arcs, &mut parties)?;
    let one = last_of(&arcs, &mut parties)?;
    Ok(Scene {
        arcs,
        one,
        feeder,
        pool,
    })
}

/// A new cache with these blocks, its parties by their numbers, and a pool of these bytes; the calls of these numbers fail on it.
pub fn made(
    alloc: Global,
    config: &Config,
    blocks: u64,
    image: Vec<u8>,
    fails: Vec<u64>,
) -> Result<(Cells, Vec<Party<HeapCell>>, MemPool), NoMemory>
    requires valid { IsConfig config.now }
    ensures config { IfOk result (λ r. r.0.config ≡ config.now) }
    ensures parties { IfOk result (λ r. AreNew r.0 0 r.1.items) }
    ensures count { IfOk result (λ r. length r.1.items ≡ config.now.callers + 1) }
{
    let cells = cells_of(alloc, config, blocks)?;
    let (arcs, parties) = Arcs::new(alloc, config, cells)?;
    let pool = MemPool::new(alloc, image, fails, Vec::new(alloc))?;
    Ok((arcs, parties, pool))
}

/// Of these parties, which stand by their numbers, the last.
pub fn last_of(
    arcs: &Cells,
    parties: &mut Vec<Party<HeapCell>>,
) -> Result<Party<HeapCell>, NoMemory>
    requires { AreNew arcs.now 0 parties.old.items }
    ensures one { IfOk result (λ p. IsOne arcs.now (length parties.new.items) p) }
    ensures rest { OnOk result (AreNew arcs.now 0 parties.new.items) }
    ensures count { OnOk result (length parties.new.items + 1 ≡ length parties.old.items) }
{
    let _ = arcs;
    match parties.pop() {
        Some(party) => Ok(party),
        None => Err(NoMemory),
    }
}

/// The shards and the cells of such a cache at its end.
pub(crate) fn end(
    alloc: Global,
    arcs: Cells,
    one: Party<HeapCell>,
    feeder: Party<HeapCell>,
) -> Result<Closed<HeapCell>, NoMemory>
    requires callers { arcs.config.callers ≡ 1 }
    requires one { IsOne arcs 0 one }
    requires feeder { IsOne arcs 1 feeder }
{
    let parties = vec![in alloc; one, feeder]?;
    arcs.close(parties)
}
