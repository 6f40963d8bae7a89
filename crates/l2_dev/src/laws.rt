//! Laws of the device that no single call states.
ghost use Rattle.std.specs.Prelude.{Bool, IsTrue};
ghost use Rattle.l2_log.specs.declared.log_block.LogBlock.{LogBlock};
ghost use Rattle.l2_dev.specs.EndLaws.{BeginEnds, CommitEnds, CrashesAreMade, MoreCollides, PutEnds, StartEnds};
ghost use Rattle.l2_dev.specs.InsideLaws.{BeginCrashes, CommitCrashes, PutCrashes};
ghost use Rattle.l2_dev.specs.NewestLaws.{NewestIsRestored};
ghost use Rattle.l2_dev.specs.ReadLaws.{CallsKeepPromises, ReadsKeepPromises};

use vdev_io::CacheDev;

/// A law of a device that is lent: what was promised of its crashes stays promised where it was only read, forked and given
/// forks back.
pub fn reads_keep_promises<D: CacheDev>()
    ensures same { ReadsKeepPromises D.told D.has_sectors D.may_leave }
    ensures calls { CallsKeepPromises D.CacheDev }
{}

/// A law of what a crash leaves of what is live: where each header that may stand in the first sector was written with what is
/// live now, as after each commit that was answered Ok, each rebuild restores the newest live entry of each key, at its place.
pub fn newest_is_restored<D: CacheDev>()
    ensures { NewestIsRestored D.told D.has_sectors D.may_leave }
{}

/// A law of what stands behind the log blocks of a header: no pointer, or one to a log block that was written and was dropped
/// since. It is so from a start on over an image that these calls made, unless that start has met two contents of one
/// digest; each call keeps it so, and each crash leaves such an image again. `made` tells the log blocks that were ever
/// written to the device.
pub fn lists_have_ends<D: CacheDev>()
    ensures start { (made : LogBlock → Bool) → StartEnds (λ block. IsTrue (made block)) }
    ensures begin { (made : LogBlock → Bool) → BeginEnds (λ block. IsTrue (made block)) D.told D.has_sectors D.may_leave D.moment D.left_since }
    ensures put { (made : LogBlock → Bool) → PutEnds (λ block. IsTrue (made block)) }
    ensures commit { (made : LogBlock → Bool) → CommitEnds (λ block. IsTrue (made block)) D.told D.has_sectors D.may_leave D.moment D.left_since }
    ensures crash { (made : LogBlock → Bool) → CrashesAreMade (λ block. IsTrue (made block)) D.told D.has_sectors D.may_leave D.moment D.left_since }
{}

/// A law of a crash inside a call: at each moment of a begin, a put or a commit it leaves an image that these calls made, and
/// each rebuild of it without a fault of the device restores what one of the headers restores that may stand there, and no
/// more, or has met two contents of one digest.
pub fn crashes_inside_calls<D: CacheDev>()
    ensures begin { (made : LogBlock → Bool) → BeginCrashes (λ block. IsTrue (made block)) D.told D.has_sectors D.may_leave D.moment D.left_since }
    ensures put { (made : LogBlock → Bool) → PutCrashes (λ block. IsTrue (made block)) D.told D.has_sectors D.may_leave D.moment D.left_since }
    ensures commit { (made : LogBlock → Bool) → CommitCrashes (λ block. IsTrue (made block)) D.told D.has_sectors D.may_leave D.moment D.left_since }
{}

/// A law of the rebuild: where the log blocks of a header have such an end, a rebuild restores what the header restores and
/// no more, or has met a log block that was written and other bytes that have one digest.
pub fn more_is_a_collision()
    ensures { (made : LogBlock → Bool) → MoreCollides (λ block. IsTrue (made block)) }
{}
