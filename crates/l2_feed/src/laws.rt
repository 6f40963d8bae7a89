//! Laws of feeds that no single clause states: each is the contract of a function with nothing to do.
ghost use Rattle.l2_feed.specs.Alike.{FeedsComeToOne};
ghost use Rattle.l2_feed.specs.Ends.{DoneIsWhole, LeavesForItsEnd, NewestStay, TakesFewLaps};

use arc_core::Keeps;
use vdev_io::CacheDev;

/// What the end of a feed says of its acts. A key is left since the device failed, or for want of memory, only where the feed ended so. A feed that
/// was done was refused memory for no place, and ended its picks in each shard once.
pub fn ends_tell_of_acts()
    ensures left { LeavesForItsEnd }
    ensures done { DoneIsWhole }
{}

/// A feed begins at most one lap of the ring for each shard.
pub fn feeds_take_few_laps()
    ensures { TakesFewLaps }
{}

/// Where each place that the feeder has seen is its key's newest live one, it is so after a feed that was refused memory for no place. So after feeds
/// that were done a crash restores each such key at its place (`newest_is_restored` of `l2_dev`).
pub fn newest_places_stay<C: Keeps, D: CacheDev>()
    ensures { NewestStay C.Keeps D.CacheDev }
{}

/// Two feeds of the same shards, over rings that are alike, whose calls of the device were answered the same and for which memory was refused nowhere,
/// asked the device for the same, byte by byte, and leave alike rings; or two contents of one digest were picked.
pub fn feeds_come_to_one()
    ensures { FeedsComeToOne }
{}
