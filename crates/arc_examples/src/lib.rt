//! Calls of the shared cache put together: small steps after which a party is as ready as before, and a soak of four callers at the same
//! time.
#![tactic(auto)]

mod calls;
mod plain;
mod scene;
mod soak;

pub use calls::{look_at, read_and_try, read_one, try_one, who_has};
pub use plain::{Caller, Plain, SIZE, config_of, draw, ptr_of};
pub use scene::{Pair, Scene, close_all, opened, opened_pair};
pub use soak::{Soaked, all_replay, run_soak};
