//! The cache device: what is written to it, and what is found on it again.
#![tactic(auto)]

mod cursor;
mod device;
mod fault;
mod laws;
mod rebuild;
mod report;
mod start;
mod stop;
mod walk;
mod write;

pub use device::L2Dev;
pub use fault::DevErr;
pub use laws::{
    crashes_inside_calls, lists_have_ends, more_is_a_collision, newest_is_restored,
    reads_keep_promises,
};
pub use report::{FeedReport, FeedStop};
pub use start::Started;
pub use stop::Stop;
