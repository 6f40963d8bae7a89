//! The cells of a run are ended by the feeder, while all callers have joined it.
ghost use Rattle.std.specs.Prelude.{◌≡◌, ◌<◌, ◌++◌, ◌∷◌, [], IfOk, List, vec_len};
ghost use Rattle.arc_table.specs.declared.view.Known.{Known};
ghost use Rattle.dbuf_cells.specs.Turns.{OnHeap};
ghost use Rattle.turn_table.specs.Places.{Place};
ghost use Rattle.trace_run.specs.dbufs.CellEnds.{EndedCells, EndedCrew};
ghost use Rattle.trace_run.specs.Meeting.{MayGoOn};

use crate::ending::{join_all, numbers_of, part_all};
use arc_table::Party;
use blk_ptr::NoMemory;
use dbuf_cells::{Cells, HeapCell, end_cells};
use std::alloc::Global;
use std::sync::Wait;

/// Every cell is ended by the feeder. The others join it before, so that it has seen all that they did, and part from it behind.
pub(crate) fn end_cells_joined(
    alloc: Global,
    rt: &impl Wait,
    arcs: &Cells,
    mut feeder: Party<HeapCell>,
    others: Vec<Party<HeapCell>>,
) -> Result<(Party<HeapCell>, Vec<Party<HeapCell>>), NoMemory>
    requires { MayGoOn arcs.now [] feeder others.items }
    ensures { IfOk result (λ r. EndedCells arcs.now feeder others.items r.0 r.1.items) }
{
    let numbers = numbers_of(alloc, &others)?;
    join_all(arcs, &mut feeder, others);
    end_cells(arcs, rt, &mut feeder)?;
    let others = part_all(alloc, arcs, &mut feeder, numbers)?;
    Ok((feeder, others))
}

/// Every cell is ended by the last of the parties, which is the feeder's.
pub(crate) fn end_crew(
    alloc: Global,
    rt: &impl Wait,
    arcs: &Cells,
    mut parties: Vec<Party<HeapCell>>,
) -> Result<Vec<Party<HeapCell>>, NoMemory>
    requires some { 0 < vec_len parties }
    requires may { (rest : List (Place (Known OnHeap))) (feeder : Place (Known OnHeap)) → parties.items ≡ rest ++ feeder ∷ [] → MayGoOn arcs.now [] feeder rest }
    ensures { IfOk result (λ news. EndedCrew arcs.now parties.items news.items) }
{
    let Some(feeder) = parties.pop() else {
        unreachable!()
    };
    let (feeder, mut parties) = end_cells_joined(alloc, rt, arcs, feeder, parties)?;
    parties.push(feeder)?;
    Ok(parties)
}
