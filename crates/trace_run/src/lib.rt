//! The run of a trace: from the words and the source to the report on the sink. Lists of pages and logs of events are answered too.
#![tactic(auto)]

mod alone;
mod bounded;
mod cells;
mod check;
mod device;
mod device_forks;
mod ending;
mod feeder;
mod get;
mod group;
mod groups;
mod in_order;
mod in_turn;
mod kept_blocks;
mod laws;
mod lines;
mod objects;
mod opening;
mod paper;
mod ran;
mod resizing;
mod restoring;
mod run_trace;
mod status;
mod syncing;
mod together;
mod top;
mod words;
mod zero_pool;

pub use laws::{nothing_in_place_is_refused, traces_in_place_are_done};
pub use ran::Ending;
pub use status::{Outcome, Status};
pub use top::run;
