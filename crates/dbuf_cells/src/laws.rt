//! Laws of cells, each the contract of a function that does nothing.
ghost use Rattle.dbuf_cells.specs.Laws.{CellsAreTold, MappedSizesPass};

/// A law of sound cells: what the object map has of a block, and what is pinned, follow from the opening and the events.
pub fn cells_are_told()
    ensures told { CellsAreTold }
    ensures sizes { MappedSizesPass }
{}
