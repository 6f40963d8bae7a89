//! The lists of the adaptive replacement cache: the four sequences, the sizes and the target.
#![tactic(auto)]

mod ghost_list;
mod member;
mod name;
mod queues;
mod sizes;
mod target;

pub use ghost_list::Ghost;
pub use member::Member;
pub use name::Name;
pub use queues::{Queues, oldest_unskipped};
pub use sizes::Sizes;
pub use target::{lowered, raised};
