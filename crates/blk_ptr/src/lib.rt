//! Block pointers, and blocks that are sealed by their digest.
//!
//! A block is named by a [`Key`]: a place in the pool, a size and a birth. A [`Ptr`] adds the SHA-256
//! that the block's bytes must have, as OpenZFS's `blkptr_t` carries a checksum. A [`Block`] is a list
//! of bytes whose digest was computed when it was made, so whoever is shown one can rely on it.
#![tactic(auto)]

mod block;
mod digest;
mod hash;
mod hex_text;
mod key;
mod memory;
mod ptr;
mod shows;
mod state;

pub use block::Block;
pub use digest::{Digest, digest_of};
pub use hash::hash_of;
pub use hex_text::Hex;
pub use key::{Key, KeyFault, LARGEST_BLOCK, SECTOR, is_block_size};
pub use memory::NoMemory;
pub use ptr::Ptr;
pub use shows::Shows;
pub use state::State;
