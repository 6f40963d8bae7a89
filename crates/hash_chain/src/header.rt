//! What a bucket keeps of one key.
use crate::kept::Kept;
use blk_ptr::{Digest, Key, State};

/// What a bucket keeps of one key (`arc_buf_hdr_t` of OpenZFS's `arc_impl.h`). It says what the key's entry in its shard says, and has the bytes besides.
#[derive(Debug, Drop)]
pub struct Header {
    /// The key.
    pub key: Key,
    /// The bytes, where they are cached, with what the last reader gave back.
    pub block: Option<Kept>,
    /// Where the entry stands.
    pub state: State,
    /// Whether some party is reading the bytes just now.
    pub reading: bool,
    /// The SHA-256 of the bytes, where it is known. A ghost has one too.
    pub digest: Option<Digest>,
    /// The first byte's place on the cache device, where it is there.
    pub place: Option<u64>,
}
