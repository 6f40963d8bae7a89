//! A look at a bucket, whose turn is kept until the look ends.
ghost use Rattle.std.specs.Prelude.{◌≡◌, option_map};
ghost use Rattle.hash_chain.specs.Chain.{header_at};

use crate::heap_bucket::HeapBucket;
use blk_ptr::Key;
use hash_chain::Header;

/// A bucket whose turn a party keeps. Contracts see its turn, the key that was asked for, and its headers.
#[derive(Drop)]
pub struct BucketTurn {
    pub(crate) turn: u32,
    pub(crate) key: Key,
    pub(crate) bucket: HeapBucket,
}

/// What `try_look` gave.
#[derive(Drop)]
pub enum Look {
    /// The bucket's turn was free.
    Seen(BucketTurn),
    /// The party of this number had the bucket's turn.
    Busy { owner: u32 },
}

impl BucketTurn {
    /// The header of the key that was asked for.
    pub fn header(&self) -> Option<&Header>
        ensures { option_map (λ h. h.now) result ≡ header_at self.now.key self.now.bucket.headers }
    {
        let at = self.bucket.find(self.key)?;
        Some(self.bucket.at(at))
    }
}
