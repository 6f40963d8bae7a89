//! Objects in memory: calls that take memory, with ample memory. All that they answer and hold is said by their contracts; sinks and
//! disks of sectors are made by other tests.
use std::alloc::Global;
use vdev_io::*;

/// Whether a pool and its fork keep bytes of their own once the pool is written.
fn pool_and_fork(alloc: Global) -> Option<bool> {
    let bytes = vec![in alloc; 1u8; 512].ok()?;
    let mut pool = MemPool::new(alloc, bytes, Vec::new(alloc), Vec::new(alloc)).ok()?;
    let fork = pool.fork(alloc).ok()?;
    pool.write(0, b"pool").ok()?;
    Some(pool.bytes().starts_with(b"pool") && fork.bytes().starts_with(&[1; 4]))
}

/// Whether a device and its fork have the same bytes.
fn device_and_fork(alloc: Global) -> Option<bool> {
    let bytes = vec![in alloc; 1u8; 512].ok()?;
    let mut dev = MemCache::new(bytes, Vec::new(alloc));
    let fork = dev.fork(alloc).ok()?;
    Some(fork.bytes() == dev.bytes())
}

#[test]
fn calls_that_take_memory(rt: HostRuntime) {
    assert!(rt; pool_and_fork(rt.alloc()) == Some(true));
    assert!(rt; device_and_fork(rt.alloc()) == Some(true));
    assert!(rt; NoCache::new().fork(rt.alloc()).is_ok());
}
