//! What is changed of one dbuf at a time.
use crate::bytes::Bytes;
use crate::shown::Shown;
use crate::state::DbState;
use blk_ptr::Ptr;

/// A change of one dbuf.
#[derive(Drop)]
pub enum Change<H> {
    /// `n` brings its bytes.
    Reading(u32),
    /// Its bytes could not be brought.
    Unread,
    /// It keeps this.
    Keep(H),
    /// What it keeps is taken out, and this is its state afterwards.
    Unkeep(DbState),
    /// It is written as a whole.
    Dirty(Bytes),
    /// These bytes are written over its dirty ones, from a byte on.
    Written(u32, Shown),
    /// Its dirty bytes are in the pool, where this pointer names them, and it keeps this.
    Synced(Ptr, H),
    /// `n` pins it.
    Pin(u32),
    /// `n` takes a pin back.
    Unpin(u32),
    /// It was used.
    Used(u64),
    /// It is emptied, and its pins go.
    Clear,
}
