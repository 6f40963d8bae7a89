//! Objects in memory, which tell what they hold and fail just the calls that they are told to fail.

mod cache;
mod calls;
mod journal;
mod pool;
mod sectors;
mod sink;
mod source;

pub use cache::MemCache;
pub use pool::MemPool;
pub use sectors::{SectorDisk, every_crash_has_its_flags};
pub use sink::MemSink;
pub use source::MemSource;
