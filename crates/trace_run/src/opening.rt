//! How the shared cache of a run begins: its cells map what the trace's lines say, and each caller and the feeder has a party.
ghost use Rattle.std.specs.Prelude.{◌≡◌, ◌<◌, All, IfOk, length, map};
ghost use Rattle.arc_core.specs.Config.{IsConfig};
ghost use Rattle.arc_table.specs.Geometry.{parties_of};
ghost use Rattle.arc_table.specs.opening.Opening.{AreFreshCells};
ghost use Rattle.dbuf_cells.specs.Places.{cell_of};
ghost use Rattle.trace_text.specs.Grammar.{AreApart, IsFormed, IsMappingOn};
ghost use Rattle.trace_run.specs.Opened.{AreOpened, HasBegun};
ghost use Rattle.trace_run.specs.Openings.{AllKnow, mappings_in, openings_of};

use arc_core::Keeps;
use arc_table::{Arcs, Party};
use blk_ptr::{NoMemory, Ptr};
use dbuf_cells::{Cells, HeapCell};
use dbuf_state::{Cell, Oid};
use std::alloc::Global;
use trace_text::{Mapping, Trace};

/// The number of a block's cell, of so many.
#[tactic(auto, using(crate::proofs::BeginLemmas::mod_below))]
fn place_among(cells: u32, at: Oid) -> u32
    requires { 0 < cells }
    ensures { result ≡ cell_of cells at }
{
    let cells = u64::from(cells);
    ((at.object % cells + at.block % cells) % cells) as u32
}

/// The cell of this number, of so many, at its start: it maps what these lines say of its Oids, and has this limit of clean bytes.
fn begun_cell(
    alloc: Global,
    limit: u64,
    cells: u32,
    i: u32,
    blocks: &[Ptr],
    lines: &[Mapping],
) -> Result<HeapCell, NoMemory>
    requires some { 0 < cells }
    requires on { All (IsMappingOn (length blocks.now)) lines.now }
    requires apart { AreApart lines.now }
    ensures { IfOk result (λ cell. HasBegun limit (mappings_in cells i blocks.now lines.now) cell.value) }
{
    let mut cell = Cell::new(alloc, limit);
    for number in 0..lines.len() {
        let line = lines[number];
        if place_among(cells, line.at) == i {
            cell.map(line.at, blocks[line.block as usize])?;
        }
    }
    Ok(Box::new(alloc, cell)?)
}

/// The cells of a trace at their start.
fn begun_cells(alloc: Global, trace: &Trace) -> Result<Vec<HeapCell>, NoMemory>
    requires { IsFormed trace.now }
    ensures fresh { IfOk result (λ cells. AreFreshCells ⟦<HeapCell as Keeps>⟧ trace.now.config cells.items) }
    ensures openings { IfOk result (λ cells. map ⟦<HeapCell as Keeps>⟧.opening cells.items ≡ openings_of trace.now) }
{
    let limit = trace.config.dbuf_bytes;
    let count = trace.config.cells;
    let blocks = trace.blocks.as_slice();
    let lines = trace.objects.as_slice();
    let mut cells = Vec::new(alloc);
    for made in 0..count {
        cells.push(begun_cell(alloc, limit, count, made, blocks, lines)?)?;
    }
    Ok(cells)
}

/// The same cache, which has a party for each caller and one for the feeder.
fn with_parties(arcs: Cells) -> Cells
    ensures same { result ≡ arcs }
    ensures parties { result.row.parties ≡ parties_of result.config }
{
    arcs
}

/// The cache of a trace at its start, and its parties by their numbers: the callers, and then the feeder.
pub(crate) fn open_cache(
    alloc: Global,
    trace: &Trace,
) -> Result<(Cells, Vec<Party<HeapCell>>), NoMemory>
    requires { IsFormed trace.now }
    ensures config { IfOk result (λ r. r.0.config ≡ trace.now.config) }
    ensures parties { IfOk result (λ r. AreOpened r.0 r.1.items) }
    ensures known { IfOk result (λ r. AllKnow (openings_of trace.now) r.1.items) }
{
    let cells = begun_cells(alloc, trace)?;
    let (arcs, parties) = Arcs::new(alloc, &trace.config, cells)?;
    Ok((with_parties(arcs), parties))
}
