//! Bytes that are sealed with their SHA-256.
ghost use Rattle.std.specs.Prelude.{◌≡◌, ℕ, List};
ghost use Rattle.blk_ptr.specs.Ptr.{sha256_of};

use crate::digest::{Digest, digest_of};
use std::marker::Model;

/// The bytes of a block, with their digest beside them. Contracts see the list of the bytes.
#[derive(Debug, Drop)]
pub struct Block {
    bytes: Vec<u8>,
    digest: Digest,
}

impl Model for Block {
    ghost Value = { List ℕ };

    ghost view = { λ block. block.bytes.items };

    ghost invariant = { λ block. block.digest ≡ sha256_of block.bytes.items };
}

impl Block {
    /// Takes the bytes and computes their digest, once. It takes no memory.
    pub fn seal(bytes: Vec<u8>) -> Block
        ensures { result ≡ bytes.items }
    {
        let digest = digest_of(&bytes);
        Block { bytes, digest }
    }

    /// The SHA-256 of the bytes, which is not computed again.
    pub fn digest(&self) -> Digest
        ensures { result ≡ sha256_of self.now }
    {
        self.digest
    }

    /// The bytes.
    pub fn bytes(&self) -> &[u8]
        ensures { result.now ≡ self.now }
    {
        &self.bytes
    }
}
