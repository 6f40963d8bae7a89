//! One feed of the cache device: blocks at the tails of the cache's lists are picked, written to the ring in runs, each with its log block behind it,
//! and their keys get places (`l2arc_feed_thread` of OpenZFS's `arc.c`).
#![tactic(auto)]

mod batch;
mod feeding;
mod laws;
mod runs;
mod series;
mod settle;

pub use feeding::feed;
pub use laws::{ends_tell_of_acts, feeds_come_to_one, feeds_take_few_laps, newest_places_stay};
pub use series::{
    crashes_keep_live, crashes_restore_places, feeds_in_turn, feeds_make_their_events,
    places_go_between_feeds, restored_places_are_newest,
};
