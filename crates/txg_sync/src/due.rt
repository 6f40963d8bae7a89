//! Which blocks are to be written: the dirty ones of all cells, by rising Oids.
ghost use Rattle.std.specs.Prelude.{◌≡◌, ◌≤◌, ◌++◌, map, IfOk, OnOk, IsPermutation, IsSortedBy, length};
ghost use Rattle.std.specs.List.{AllByRecursion};
ghost use Rattle.txg_sync.specs.InHand.{IsKnown};
ghost use Rattle.txg_sync.specs.Items.{due_in, due_lt, dues_from, dues_in};

use crate::cells::told;
use blk_ptr::NoMemory;
use dbuf_cells::HeapCell;
use dbuf_state::Oid;
use std::alloc::Global;

/// A block that is to be written, and the number of the cell in which it stands. They go by the Oid, and then by the cell.
#[derive(Clone, Copy, Debug, PartialEq, Eq, PartialOrd, Ord)]
pub struct Due {
    /// Which block of which object.
    pub at: Oid,
    /// The number of its cell.
    pub cell: u32,
}

// Adds these Oids, which are a cell's.
fn add_all(oids: &[Oid], cell: u32, dues: &mut Vec<Due>) -> Result<(), NoMemory>
    ensures { OnOk result (dues.new.items ≡ dues.old.items ++ map (due_in cell) oids.now) }
{
    for at in oids {
        dues.push(Due { at: *at, cell })?;
    }
    Ok(())
}

// Adds the dirty blocks of a cell.
fn add_dirty(cell: &HeapCell, i: u32, dues: &mut Vec<Due>) -> Result<(), NoMemory>
    ensures known { OnOk result (IsKnown cell.now) }
    ensures dues { OnOk result (IsPermutation (dues.old.items ++ dues_in i cell.now.value.dbufs) dues.new.items) }
{
    told(cell);
    let oids = cell.dirty()?;
    add_all(&oids, i, dues)
}

// The dirty blocks of these cells, cell by cell.
fn gather(alloc: Global, cells: &[HeapCell]) -> Result<Vec<Due>, NoMemory>
    requires { length cells.now ≤ 16 }
    ensures known { OnOk result (AllByRecursion IsKnown cells.now) }
    ensures all { IfOk result (λ dues. IsPermutation (dues_from 0 cells.now) dues.items) }
{
    let mut dues = Vec::new(alloc);
    for i in 0..cells.len() {
        add_dirty(&cells[i], i as u32, &mut dues)?;
    }
    Ok(dues)
}

/// The dirty blocks of these cells, the first of which has the number 0, by rising Oids.
pub(crate) fn dirty_of(alloc: Global, cells: &[HeapCell]) -> Result<Vec<Due>, NoMemory>
    requires { length cells.now ≤ 16 }
    ensures known { OnOk result (AllByRecursion IsKnown cells.now) }
    ensures rising { IfOk result (λ dues. IsSortedBy due_lt dues.items) }
    ensures all { IfOk result (λ dues. IsPermutation (dues_from 0 cells.now) dues.items) }
{
    let mut dues = gather(alloc, cells)?;
    dues.sort()?;
    Ok(dues)
}
