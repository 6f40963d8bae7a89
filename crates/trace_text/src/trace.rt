use crate::items::{Blocks, Objects, Ops};
use arc_core::Config;

/// What a trace's text says.
#[derive(Drop)]
pub struct Trace {
    /// The sizes of the cache.
    pub config: Config,
    /// The block pointers, which operations name by their number from 0.
    pub blocks: Blocks,
    /// The blocks of objects, and which block pointer each is at the start. None is mapped twice.
    pub objects: Objects,
    /// The operations.
    pub ops: Ops,
}
