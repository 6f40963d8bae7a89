//! An event as a run of bytes: the form in which a history keeps it.
mod taking;
mod writing;

use crate::oid::Oid;
pub(crate) use taking::take_event;
pub(crate) use writing::{LONGEST_EVENT, write_event};

/// What each event begins with: its kind, who did it, and which block; zeros where it has none.
#[derive(Clone, Copy, Debug)]
pub(crate) struct Head {
    pub(crate) kind: u64,
    pub(crate) n: u32,
    pub(crate) at: Oid,
}
