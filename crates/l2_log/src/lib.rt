//! The bytes of the cache device: its header, and the log blocks that name what it holds.
//!
//! Numbers are 64 bits wide, the lowest byte first. What no field covers is zero, and a reader refuses
//! anything else there. There are two versions: in version 2, the one that is written, an entry has the digest of its block.
//! So a [`DevHeader`] or a [`LogBlock`] has exactly one spelling, and a reader answers
//! the first refusal in a fixed order where bytes are not one. The magics, the sizes and the chain of log
//! blocks are OpenZFS's (`l2arc_dev_hdr_phys`, `l2arc_log_blk_phys`).
#![tactic(auto)]

mod entry;
mod entry_bytes;
mod fault;
mod header;
mod header_bytes;
mod log_block;
mod log_bytes;
mod pointer;
mod pointer_bytes;
mod words;

pub use entry::{LARGEST_OLD_BLOCK, LogEntry};
pub use fault::{LogFault, LogReadFault};
pub use header::{DevHeader, HEADER_LEN, LEAST_RING_END, RING_START, VERSION};
pub use log_block::{Entries, LOG_LEN, LogBlock, MOST_ENTRIES, MOST_OLD_ENTRIES};
pub use pointer::LogPtr;
