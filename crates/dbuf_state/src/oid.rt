//! The names of a cell's blocks.

/// A block of an object: which object, and which of its blocks. Oids go by the object, and then by the block.
#[derive(Clone, Copy, Debug, PartialEq, Eq, PartialOrd, Ord, Hash)]
pub struct Oid {
    /// The object's number in its object set (`dn_object` of OpenZFS's `dnode.h`).
    pub object: u64,
    /// The block's number in the object (`db_blkid` of `dbuf.c`).
    pub block: u64,
}
