//! In which cell a block's dbuf stands.
ghost use Rattle.std.specs.Prelude.{◌≡◌, ◌<◌};
ghost use Rattle.arc_core.specs.Config.{IsConfig};
ghost use Rattle.arc_table.specs.Geometry.{IsCell};
ghost use Rattle.dbuf_cells.specs.Places.{cell_of};

use crate::kept::Cells;
use dbuf_state::Oid;

// The place of a block among so many cells.
#[tactic(auto, using(crate::proofs::Mods::mod_below))]
fn place_among(cells: u32, at: Oid) -> u32
    requires { 0 < cells }
    ensures cell { result ≡ cell_of cells at }
    ensures within { result < cells }
{
    let cells = u64::from(cells);
    ((at.object % cells + at.block % cells) % cells) as u32
}

/// The number of a block's cell.
pub fn cell_of(arcs: &Cells, at: Oid) -> u32
    requires { IsConfig arcs.now.config }
    ensures cell { result ≡ cell_of arcs.now.config.cells at }
    ensures range { IsCell arcs.now.config result }
{
    place_among(arcs.config().cells, at)
}
