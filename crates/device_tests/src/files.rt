//! Pools and cache devices over real files, and a device over a file that is short, interrupted and bad at a place.
use super::fakes::ChoppyFiles;
use std::fs::OpenOptions;
use std::{fs, io};
use vdev_io::*;

/// Cuts a file to this length, or makes it longer.
fn set_len(rt: &HostRuntime, name: &str, len: u64) -> io::Result<()> {
    OpenOptions::new().write(true).open(rt, name)?.set_len(len)
}

/// The last four bytes of a pool of 512, where they can be read.
fn last_four<P: Pool>(pool: &mut P) -> Option<[u8; 4]> {
    let mut bytes = [0; 4];
    if pool.len() != 512 {
        return None;
    }
    pool.read(508, &mut bytes).ok()?;
    Some(bytes)
}

/// Whether they could be written.
fn put_last<P: Pool>(pool: &mut P) -> bool {
    pool.len() == 512 && pool.write(508, b"last").is_ok()
}

/// What a pool in a file of 512 bytes does, whose file is then cut, and then goes.
fn pool_in_a_file(rt: &HostRuntime, name: &str) -> Option<[bool; 4]> {
    let mut pool = FilePool::open(rt.alloc(), rt, name).ok()?;
    let whole = put_last(&mut pool) && last_four(&mut pool) == Some(*b"last");
    let mut fork = pool.fork(rt.alloc()).ok()?;
    let forked = last_four(&mut fork) == Some(*b"last") && !put_last(&mut fork);
    let cut = set_len(rt, name, 256).is_ok() && last_four(&mut pool).is_none();
    let gone = fs::remove_file(rt, name).is_ok() && pool.fork(rt.alloc()).is_err();
    Some([whole, forked, cut, gone])
}

#[test]
fn a_pool_in_a_file(rt: HostRuntime) {
    let name = "pool_of_a_test";
    assert!(rt; fs::write(&rt, name, [7u8; 512].as_slice()).is_ok());
    assert!(rt; pool_in_a_file(&rt, name) == Some([true; 4]));
}

const FIVES: [u8; 512] = [5; 512];

/// Whether the second of two sectors is of fives.
fn has_second<D: CacheDev>(dev: &mut D) -> bool {
    let mut bytes = [0; 512];
    dev.len() == 1024 && dev.read(512, &mut bytes).is_ok() && bytes == FIVES
}

/// Whether that sector could be written and flushed.
fn put_second<D: CacheDev>(dev: &mut D) -> bool {
    dev.len() == 1024 && dev.write(512, &FIVES).is_ok() && dev.flush().is_ok()
}

/// What a device in a file of 1,024 bytes does, whose file is then cut, and then goes.
fn device_in_a_file(rt: &HostRuntime, name: &str) -> Option<[bool; 4]> {
    let mut dev = FileCache::open(rt.alloc(), rt, name).ok()?;
    let whole = put_second(&mut dev) && has_second(&mut dev);
    let mut fork = dev.fork(rt.alloc()).ok()?;
    let forked = has_second(&mut fork) && !put_second(&mut fork);
    let cut = set_len(rt, name, 600).is_ok() && !has_second(&mut dev);
    let gone = fs::remove_file(rt, name).is_ok() && dev.fork(rt.alloc()).is_err();
    Some([whole, forked, cut, gone])
}

#[test]
fn a_device_in_a_file(rt: HostRuntime) {
    let name = "cache_device_of_a_test";
    assert!(rt; fs::write(&rt, name, [0u8; 1024].as_slice()).is_ok());
    assert!(rt; device_in_a_file(&rt, name) == Some([true; 4]));
}

/// The length of a device in the file of this name, where it can be had.
fn device_len(rt: &HostRuntime, name: &str) -> Option<u64> {
    Some(FileCache::open(rt.alloc(), rt, name).ok()?.len())
}

// A clause says that a device is at most so long, and none that one of that length may be had.
#[test]
fn how_long_a_device_may_be(rt: HostRuntime) {
    let name = "long_device_of_a_test";
    assert!(rt; fs::write(&rt, name, [0u8; 1].as_slice()).is_ok());
    for len in [513, LONGEST_CACHE, LONGEST_CACHE + 1] {
        assert!(rt; set_len(&rt, name, len).is_ok());
        assert!(rt; device_len(&rt, name) == (len <= LONGEST_CACHE).then_some(len));
    }
    assert!(rt; fs::remove_file(&rt, name).is_ok() && device_len(&rt, ".").is_none());
}

/// What a device of 16 bytes does away from its bad place, which is byte 8, and there: the flush is bad where the last call ended there.
fn short_calls<D: CacheDev>(dev: &mut D) -> Option<[bool; 6]> {
    let mut bytes = [0; 7];
    if dev.len() != 16 {
        return None;
    }
    Some([
        dev.write(9, b"ABCDEFG").is_ok(),
        dev.read(9, &mut bytes).is_ok() && bytes == *b"ABCDEFG",
        dev.flush().is_ok(),
        dev.read(5, &mut [0; 7]).is_err(),
        dev.flush().is_err(),
        dev.write(5, &[0; 7]).is_err(),
    ])
}

/// The same of a device in a file whose calls are interrupted and move three bytes at most.
fn device_of_short_calls(rt: &HostRuntime, name: &str) -> Option<[bool; 6]> {
    let files = ChoppyFiles(rt, 8);
    let mut dev = FileCache::open(rt.alloc(), &files, name).ok()?;
    short_calls(&mut dev)
}

#[test]
fn a_device_of_short_calls(rt: HostRuntime) {
    let name = "short_device_of_a_test";
    assert!(rt; fs::write(&rt, name, [0u8; 1].as_slice()).is_ok());
    assert!(rt; device_of_short_calls(&rt, name) == Some([true; 6]));
    assert!(rt; fs::remove_file(&rt, name).is_ok());
}
