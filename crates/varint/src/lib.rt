//! Numbers in as few bytes as they need, as the varint encoding of `bincode` has them: one byte below 251; else 251, 252 or 253 and then two,
//! four or eight bytes, the lowest first. Numbers and runs of bytes are appended to a list that has room, and taken off the front of one.
#![tactic(auto)]

mod laws;
mod take;
mod write;

pub use laws::what_was_written_is_read_back;
pub use take::{take_bytes, take_number};
pub use write::{LONGEST_NUMBER, write_bytes, write_number};
