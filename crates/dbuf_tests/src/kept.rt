//! What a kept block shows, and how many holds a cell on the heap counts.
use arc_core::Keeps;
use blk_ptr::{Block, Key, Shows};
use dbuf_cells::{HeapCell, Kept};
use dbuf_state::Cell;
use std::alloc::Global;
use std::sync::Arc;
use std::test::Fail;

// The first block of a pool, of 512 zero bytes.
fn loose(alloc: Global) -> Result<Kept, Fail> {
    let block = Block::seal(vec![in alloc; 0; 512]?);
    let key = Key {
        offset: 0,
        size: 512,
        birth: 1,
    };
    Ok(Kept::Loose {
        key,
        block: Arc::new(alloc, block)?,
    })
}

#[test]
fn a_loose_block_is_no_hold(rt: HostRuntime) -> Result<(), Fail> {
    let kept = loose(rt.alloc())?;
    assert!(rt; kept.key().size == 512);
    assert!(rt; kept.block().bytes().len() == 512);
    assert!(rt; !kept.held());
    Ok(())
}

#[test]
fn an_empty_cell_on_the_heap_keeps_no_hold(rt: HostRuntime) -> Result<(), Fail> {
    let alloc = rt.alloc();
    let cell: HeapCell = Box::new(alloc, Cell::new(alloc, 4096))?;
    assert!(rt; cell.keeps(loose(alloc)?.key()) == 0);
    Ok(())
}
