//! The outside as traits: where a trace comes from, where a report goes, and the disks between.
//!
//! Sources, sinks, pools and devices count their faults, and no count falls. [`Failed`] is answered only by a call in which the
//! count rose, so code that is generic over a trait cannot make a fault up. What an object holds is told where
//! it is known, as by the objects in memory, and the clauses on content speak of that.
#![tactic(auto)]

mod device;
mod fault;
mod file;
mod file_cache;
mod file_pool;
mod gate;
mod memory;
mod pool;
mod sink;
mod source;
mod stream;
mod whole;

pub use device::{CacheDev, NoCache};
pub use fault::{Failed, IoFault};
pub use file::OpenFault;
pub use file_cache::{FileCache, LONGEST_CACHE};
pub use file_pool::{FilePool, LONGEST_POOL};
pub use gate::{FreeGate, Gate};
pub use memory::{MemCache, MemPool, MemSink, MemSource, SectorDisk, every_crash_has_its_flags};
pub use pool::Pool;
pub use sink::Sink;
pub use source::Source;
pub use stream::{StdSink, StdSource};
pub use whole::{ReadAllFault, read_all, write_all};
