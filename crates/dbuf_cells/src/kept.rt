//! A block that a dbuf keeps: by a hold on the entry of the cache, or loose (the arc buf of a dbuf in OpenZFS's dbuf.c).
use arc_table::{Arcs, Hold};
use blk_ptr::{Block, Key, Shows};
use dbuf_state::Cell;
use std::sync::Arc;

/// A block that a dbuf keeps.
#[derive(Debug, Drop)]
pub enum Kept {
    /// The block of an entry of the cache, which is held.
    Held(Hold),
    /// A block that nothing in the cache holds, since it was read past the cache, or written where the cache has another entry.
    Loose {
        /// The key under which it was read or written.
        key: Key,
        /// Its bytes.
        block: Arc<Block>,
    },
}

/// A cell of dbufs on the heap, so that a turn moves a word and not the cell.
pub type HeapCell = Box<Cell<Kept>>;

/// The shared cache below the cells of dbufs.
pub type Cells = Arcs<HeapCell>;

impl Shows for Kept {
    ghost use Rattle.dbuf_cells.specs.Kept.{bytes_of, is_held, key_of};

    ghost key_of = { key_of };

    ghost bytes_of = { bytes_of };

    ghost is_held = { is_held };

    fn key(&self) -> Key {
        match self {
            Kept::Held(hold) => hold.key(),
            Kept::Loose { key, .. } => *key,
        }
    }

    fn block(&self) -> &Block {
        match self {
            Kept::Held(hold) => hold.block(),
            Kept::Loose { block, .. } => block,
        }
    }

    fn held(&self) -> bool {
        match self {
            Kept::Held(_) => true,
            Kept::Loose { .. } => false,
        }
    }
}
