//! Laws of feeds one after another: each is the contract of a function with nothing to do.
ghost use Rattle.arc_table.specs.Cache.{Cache};
ghost use Rattle.l2_feed.specs.Series.{CrashesRestorePlaces, FaultsRise, FeedsInTurn, FeedsKeepLive, FeedsMakeEvents, LentKeepLive, PlacesGo, RestoredAreNewest};

use arc_core::Keeps;
use vdev_io::CacheDev;

/// What a feed leaves in a shard's history: the events of the feeder there are those of its acts, behind those that it had made.
pub fn feeds_make_their_events<C: Keeps, D: CacheDev>()
    ensures { FeedsMakeEvents C.Keeps D.CacheDev }
{}

/// Between feeds, and behind the last one, others take places and give none.
pub fn places_go_between_feeds()
    ensures { PlacesGo }
{}

/// Where a cache begins with the keys that were found on the device, each place is its key's newest live one.
pub fn restored_places_are_newest<C: Keeps>()
    ensures { RestoredAreNewest C.Keeps }
{}

/// Where each crash restored just what was live, so it does after a feed that was done, and after reads, forks and absorbs.
pub fn crashes_keep_live<D: CacheDev>()
    ensures feeds { FeedsKeepLive D.CacheDev }
    ensures lent { LentKeepLive D.CacheDev }
{}

/// Then each rebuild of what a crash leaves restores each key that has a place, at that place.
pub fn crashes_restore_places<C: Keeps, D: CacheDev>()
    ensures { CrashesRestorePlaces D.CacheDev C.Keeps }
{}

/// What feeds leave that were made one after another, with what others do between them: where all were done, each crash restores what is live, and
/// places are the newest live ones. The device's count of faults rose for each that ended with a fault of the device.
pub fn feeds_in_turn<C: Keeps, D: CacheDev>()
    ensures live { (cache : Cache) → FeedsInTurn C.Keeps D.CacheDev cache }
    ensures faults { (cache : Cache) → FaultsRise C.Keeps D.CacheDev cache }
{}
