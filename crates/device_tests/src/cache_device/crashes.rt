//! Crashes at each write and flush, and calls that fail.
use super::tools::*;
use l2_dev::*;
use l2_log::LogFault;
use std::alloc::Global;
use std::test::Fail;
use vdev_io::{MemCache, SectorDisk};

/// Feeds these blocks to a disk that stops after so many writes and flushes, and crashes it by these flags.
fn crash(alloc: Global, blocks: &[u8], stop_after: u64, kept: &[bool]) -> Option<Vec<u8>> {
    let bytes = vec![in alloc; 0u8; LEN].ok()?;
    let disk = SectorDisk::new(alloc, bytes, stop_after, 1 << 20).ok()?;
    let fed = after_feeds(alloc, disk, blocks)?;
    Some(fed.l2.stop().crash(kept))
}

/// What a start restores of blocks 0 to 2, the newest first, where there are so many. None where there is no header.
fn expected(blocks: Option<usize>) -> (&'static [u8], Stop) {
    match blocks {
        None => (&[], Stop::Header(LogFault::Magic)),
        Some(0) => (&[], Stop::Zero),
        Some(1) => (&[0], Stop::Zero),
        Some(2) => (&[1, 0], Stop::Zero),
        Some(_) => (&[2, 1, 0], Stop::Zero),
    }
}

/// Whether a start of this image restores that.
fn is_expected(alloc: Global, image: Vec<u8>, blocks: Option<usize>) -> bool {
    let Some((restored, stop)) = rebuilt(alloc, image) else {
        return false;
    };
    let (numbers, why) = expected(blocks);
    has_restored(alloc, &restored, numbers) && stop == why
}

#[test]
fn a_crash_after_each_write_and_flush(rt: HostRuntime) -> Result<(), Fail> {
    let alloc = rt.alloc();
    // the first and the last stop, and what is restored where every sector is old and where every one is new
    let rows = [
        (0, 0, None, None),
        (1, 1, None, Some(0)),
        (2, 5, Some(0), Some(0)),
        (6, 6, Some(0), Some(1)),
        (7, 12, Some(1), Some(1)),
        (13, 13, Some(1), Some(2)),
        (14, 19, Some(2), Some(2)),
        (20, 20, Some(2), Some(3)),
        (21, 21, Some(3), Some(3)),
    ];
    for (first, last, old, new) in rows {
        for stop in first..=last {
            let image = crash(alloc, &[0, 1, 2], stop, &[]).ok_or("old")?;
            assert!(rt; is_expected(alloc, image, old));
            let image = crash(alloc, &[0, 1, 2], stop, &[true; 256]).ok_or("new")?;
            assert!(rt; is_expected(alloc, image, new));
        }
    }
    Ok(())
}

// A block is one sector, and its log block has bytes in its first sector alone: every other sector is the same old or new. So
// two flags choose every image that a crash may leave while both are written and not flushed.
#[test]
fn every_choice_of_sectors_in_a_commit(rt: HostRuntime) -> Result<(), Fail> {
    let alloc = rt.alloc();
    for kept in [[false, false], [false, true], [true, false], [true, true]] {
        for stop in 10..=12 {
            let image = crash(alloc, &[0, 1], stop, &kept).ok_or("crash")?;
            assert!(rt; is_expected(alloc, image, Some(1)));
        }
        let image = crash(alloc, &[0, 1], 13, &kept).ok_or("crash")?;
        let blocks = if kept[0] { 2 } else { 1 };
        assert!(rt; is_expected(alloc, image, Some(blocks)));
    }
    Ok(())
}

/// A device of zeros of which this call fails.
fn failing(alloc: Global, call: u64) -> Option<MemCache> {
    let fail = vec![in alloc; call].ok()?;
    let bytes = vec![in alloc; 0u8; LEN].ok()?;
    Some(MemCache::new(bytes, fail))
}

/// Which of two feeds were answered Ok.
fn are_ok(answers: &[Result<u64, DevErr>]) -> [bool; 2] {
    match answers {
        [first, second] => [first.is_ok(), second.is_ok()],
        _ => [false; 2],
    }
}

/// The image of two feeds, of which this call of the device fails, and which of them were answered Ok.
fn with_fault(alloc: Global, call: u64) -> Option<(Vec<u8>, [bool; 2])> {
    let fed = after_feeds(alloc, failing(alloc, call)?, &[0, 1])?;
    let answers = are_ok(&fed.answers);
    Some((image_of(alloc, fed)?, answers))
}

// One call of the device fails, and block 1 is fed behind block 0 all the same. What was not committed is written over.
#[test]
fn a_feed_behind_a_fault(rt: HostRuntime) -> Result<(), Fail> {
    let alloc = rt.alloc();
    // the first and the last call that fails, which of the two feeds are answered Ok, and how many blocks a start restores, the newest
    // of which is where
    let rows = [
        (0, 0, [true, true], 2, 70_144),
        (1, 7, [false, true], 1, 4096),
        (8, 13, [true, false], 1, 4096),
        // the header was written, and its flush failed
        (14, 14, [true, false], 2, 70_144),
    ];
    for (first, last, expected, blocks, place) in rows {
        for call in first..=last {
            let (image, answers) = with_fault(alloc, call).ok_or("fed")?;
            let (restored, _) = rebuilt(alloc, image).ok_or("rebuilt")?;
            let newest = restored.first().ok_or("restored")?;
            assert!(rt; answers == expected && restored.len() == blocks && newest.place == place);
        }
    }
    Ok(())
}

#[test]
fn a_start_behind_a_crash_goes_on(rt: HostRuntime) -> Result<(), Fail> {
    let alloc = rt.alloc();
    let image = crash(alloc, &[0, 1, 2], 19, &[true; 256]).ok_or("crash")?;
    let dev = MemCache::new(image, Vec::new(alloc));
    let image = fed_image(alloc, dev, &[2]).ok_or("fed")?;
    assert!(rt; is_expected(alloc, image, Some(3)));
    Ok(())
}
