use dbuf_state::Oid;

/// A line of a trace that says what a block of an object is at the start.
#[derive(Clone, Copy)]
pub struct Mapping {
    /// The object, and which of its blocks.
    pub at: Oid,
    /// The number of the block pointer, from 0 (`dn_phys->dn_blkptr` of OpenZFS's `dnode.h`).
    pub block: u32,
}
