//! The dbufs of all cells over the shared cache: what a dbuf keeps of it, and the calls on a dbuf.
#![tactic(auto)]

mod ending;
mod evict;
mod getting;
mod kept;
mod laws;
mod loading;
mod patching;
mod place;
mod putting;
mod turn;
mod unholding;

pub use ending::end_cells;
pub use getting::{get, hold};
pub use kept::{Cells, HeapCell, Kept};
pub use laws::cells_are_told;
pub use patching::patch;
pub use place::cell_of;
pub use putting::put;
pub use unholding::unhold;
