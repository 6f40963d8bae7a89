//! Values that lie behind turns, over the atomic words of `atomic_table`.
#![tactic(auto)]

mod closing;
mod home;
mod opening;
mod party;
mod plays;
mod rule;
mod standing;
mod take;
mod turns;

pub use opening::NoMemory;
pub use party::Party;
pub use rule::{GivenView, TurnRule};
pub use take::Take;
pub use turns::Turns;
