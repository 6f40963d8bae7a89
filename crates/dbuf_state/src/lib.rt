//! The dbufs of one cell: the layer above the cache, as far as it needs no thread.
#![tactic(auto)]

mod bytes;
mod cell;
mod change;
mod dbuf;
mod event;
mod fault;
mod history;
mod index;
mod keeps;
mod laws;
mod oid;
mod packed;
mod pins;
mod rank;
mod ranks;
mod room;
mod shown;
mod standing;
mod state;
mod window;

pub use bytes::Bytes;
pub use cell::Cell;
pub use change::Change;
pub use dbuf::{Content, Dbuf};
pub use event::CellEvent;
pub use fault::DbufFault;
pub use history::{CellEvents, CellHistory};
pub use laws::{
    a_history_goes_on, calls_are_their_events, cells_are_in_their_outlines, cells_come_to_rest,
    cells_stay_legal, claims_go_with_what_is_read, ended_cells_keep_nothing,
    holds_go_with_what_is_kept, numbers_are_read_back, outlines_are_told, plain_cells_are_read,
    replays_are_alike, what_counts_alike, what_is_out_for_a_while,
};
pub use oid::Oid;
pub use pins::{PinCount, Pins};
pub use shown::{MOST_SHOWN, Shown};
pub use standing::Standing;
pub use state::{DbState, Mapped, Mapping};
pub use window::Window;
