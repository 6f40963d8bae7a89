//! How many bytes the dirty blocks have.
ghost use Rattle.std.specs.Prelude.{◌≡◌, ◌≤◌, length};
ghost use Rattle.blk_ptr.specs.Size.{largest_block};
ghost use Rattle.txg_sync.specs.InHand.{AreDueIn, IsDueIn};
ghost use Rattle.txg_sync.specs.Items.{bytes_of_due, need_of};

use crate::due::Due;
use dbuf_cells::HeapCell;

// How many bytes a dirty block has.
fn size_of(cells: &[HeapCell], due: Due) -> u64
    requires { IsDueIn cells.now due }
    ensures size { result ≡ length (bytes_of_due cells.now due) }
    ensures most { result ≤ largest_block }
{
    cells[due.cell as usize].dirty_bytes(due.at).len() as u64
}

/// How many bytes these dirty blocks have.
pub(crate) fn need_of(cells: &[HeapCell], dues: &[Due]) -> u128
    requires { AreDueIn cells.now dues.now }
    ensures { result ≡ need_of cells.now dues.now }
{
    let mut need: u128 = 0;
    for due in dues {
        need += u128::from(size_of(cells, *due));
    }
    need
}
