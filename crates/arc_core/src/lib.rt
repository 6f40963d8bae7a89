//! One shard of the adaptive replacement cache, as plain data with events.
#![tactic(auto)]

mod config;
mod entries;
mod entry;
mod event;
mod history;
mod holds;
mod keeps;
mod keys;
mod laws;
mod packed;
mod picks;
mod rows;
mod served;
mod shard;
mod table;

pub use config::{Bounds, Config};
pub use entry::{Entry, NUMBERS, Phase, Picked};
pub use event::{Event, FailedAt, Origin, Why};
pub use history::{Events, History};
pub use holds::Holds;
pub use keeps::Keeps;
pub use laws::{
    events_change_their_own_key, events_count_holds, events_keep_soundness,
    events_spare_other_keys, events_take_places, held_blocks_stay, keys_are_taken_in,
    prefixes_are_legal, replay_goes_on, room_and_trim_end,
};
pub use served::{ReadFault, Restored, Served};
pub use shard::{EntryView, Shard};
