//! A SHA-256, and how it is printed.
ghost use Rattle.std.specs.Prelude.{◌≡◌, Some};
ghost use Rattle.hex.specs.Hex.{encode_lower};
ghost use Rattle.blk_ptr.specs.Ptr.{sha256_of};

use crate::hex_text::Hex;
use sha2::{Digest as _, Sha256};
use std::fmt;

/// A SHA-256 digest (FIPS 180-4), as 32 bytes in the order in which they are printed.
#[derive(Clone, Copy, Debug, PartialEq, Eq, PartialOrd, Ord)]
pub struct Digest(pub [u8; 32]);

/// The SHA-256 of `bytes`.
pub fn digest_of(bytes: &[u8]) -> Digest
    ensures { result ≡ sha256_of bytes.now }
{
    Digest(Sha256::digest(bytes))
}

impl fmt::Display for Digest {
    ghost output = { λ digest. Some (encode_lower digest.0) };

    fn fmt<W: fmt::Write>(&self, f: &mut fmt::Formatter<W>) -> fmt::Result {
        Hex::new(&self.0).fmt(f)
    }
}
