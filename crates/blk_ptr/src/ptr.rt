use crate::digest::Digest;
use crate::key::Key;

/// A block pointer: which block, and the digest that its bytes must have.
#[derive(Clone, Copy, Debug, PartialEq, Eq)]
pub struct Ptr {
    /// The block.
    pub key: Key,
    /// The SHA-256 of its bytes.
    pub digest: Digest,
}
