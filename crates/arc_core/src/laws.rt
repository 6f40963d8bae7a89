//! The laws of a shard and its events, over the definitions alone: each is the contract of a function with nothing to do.
ghost use Rattle.arc_core.specs.Changing.{IsCounted, IsFrameKept, IsHeldCached, IsHeldKept, IsOwnEntry};
ghost use Rattle.arc_core.specs.Ending.{IsRoomEnding, IsTrimEnding};
ghost use Rattle.arc_core.specs.Places.{IsTakenIn, IsTakingPlaces};
ghost use Rattle.arc_core.specs.Replay.{IsPrefixLegal, IsReplayInParts};
ghost use Rattle.arc_core.specs.Soundness.{IsSoundAfter};
ghost use Rattle.arc_core.specs.Sparing.{IsSparing, IsSparingOthers, IsSparingUnmarked, IsStandingVictim};

/// What stands at the front of a legal history is a legal history.
pub fn prefixes_are_legal()
    ensures { IsPrefixLegal }
{}

/// Replaying a history in two parts is replaying it at once.
pub fn replay_goes_on()
    ensures { IsReplayInParts }
{}

/// Each event keeps a sound shard sound where it is legal.
pub fn events_keep_soundness()
    ensures { IsSoundAfter }
{}

/// What an event makes of the entry of its own key, and what it leaves of the rest of the shard.
pub fn events_change_their_own_key()
    ensures own { IsOwnEntry }
    ensures frame { IsFrameKept }
{}

/// What an event may do to the entry of another key: nothing, unless the key is a victim of a miss, an insertion or a resize.
pub fn events_spare_other_keys()
    ensures sparing { IsSparing }
    ensures others { IsSparingOthers }
    ensures unmarked { IsSparingUnmarked }
    ensures victims { IsStandingVictim }
{}

/// An event leaves a key's place on the cache device or takes it away, unless it sets or restores that very key.
pub fn events_take_places()
    ensures { IsTakingPlaces }
{}

/// A key of which more than a place is kept came by a miss or an insertion of it.
pub fn keys_are_taken_in()
    ensures { IsTakenIn }
{}

/// Who holds what after an event.
pub fn events_count_holds()
    ensures { IsCounted }
{}

/// What is held at rest has bytes with a digest, and keeps them as long as anyone holds it.
pub fn held_blocks_stay()
    ensures cached { IsHeldCached }
    ensures kept { IsHeldKept }
{}

/// Room goes on until there is nothing more to evict, and trim until there is nothing more to drop.
pub fn room_and_trim_end()
    ensures room { IsRoomEnding }
    ensures trim { IsTrimEnding }
{}
