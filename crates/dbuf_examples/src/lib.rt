//! The calls on dbufs put together: a cache over cells whose blocks are mapped, and a row of every call on it.
#![tactic(auto)]

mod ends;
mod scene;

pub use ends::{Answered, NEW, end_all, every_call};
pub use scene::{Scene, byte_of, image_of, last_of, made, oid_of, opened, ptr_of};
