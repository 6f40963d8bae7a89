//! Feeds of the cache device put together: a cache of one caller that is read and fed.
#![tactic(auto)]

mod scene;

pub use scene::{FeedScene, closed, config_of_one, fed, memory, opened, read, zeros_of};
