//! ARC(c), the adaptive replacement cache as Megiddo and Modha published it (FAST 2003), over page numbers.
//!
//! It is the policy alone, with no pages: which of them would be cached, and so which are hits. `specs/Arc.antt` has the
//! publication's rules on four plain lists, and `specs/Bounds.antt` what holds of the lists after any pages.
#![tactic(auto)]

mod directory;
mod laws;
mod pages;
mod paper;
mod queue;
mod queues;
mod spot;
mod text;

pub use key_table::NoMemory;
pub use laws::bounds_are_kept;
pub use paper::{MOST_PAGES, Paper};
pub use text::paper_text;
