//! Where a page stands.

use crate::queue::Queue;

/// The list of a page, and the place of its node there.
#[derive(Clone, Copy, Debug, PartialEq, Eq)]
pub(crate) struct Spot {
    pub(crate) queue: Queue,
    pub(crate) at: usize,
}
