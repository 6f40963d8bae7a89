//! Runs with a cache device in memory of which a call fails, or that is too short.
use super::runs::{ran_with, source_of, spelled, zeros};
use std::sync::Wait;
use std::test::Fail;
use std::thread::Threads;
use trace_run::Status;
use vdev_io::{CacheDev, FreeGate, MemCache};

/// Two callers read the only block.
const TWO_READS: &str =
    "arc 2 1 16 1 4096 0 4096\nblock 0 512 1 Z\nread 0 1 0 0 0\nread 1 1 0 0 0\n";

/// Whether these bytes stand somewhere in a text.
fn has(text: &[u8], bytes: &[u8]) -> bool {
    for at in 0..text.len() {
        if text[at..].starts_with(bytes) {
            return true;
        }
    }
    false
}

/// Runs the two reads with a device of so many zero bytes, of which these calls fail. Whether no read was refused, the report has this line,
/// and the device is handed back as long as it was.
fn is_found<R: AllocGlobal + Threads + Wait + Sync>(
    rt: &R,
    len: usize,
    fails: &[u64],
    line: &str,
) -> Result<bool, Fail> {
    let alloc = rt.alloc();
    let mut source = source_of(alloc, TWO_READS, &[])?;
    let mut pool = zeros(alloc, 512, &[], &[])?;
    let bytes = vec![in alloc; 0u8; len]?;
    let mut cache = Some(MemCache::new(bytes, fails.to_vec(alloc)?));
    let (outcome, text) = ran_with(
        rt,
        &["run"],
        &mut source,
        &mut pool,
        &mut cache,
        &[],
        &FreeGate,
    )?;
    let told = spelled(alloc, line)?;
    let has_line = has(&text, told.as_bytes());
    let is_back = match &cache {
        Some(device) => device.len() == len as u64,
        None => false,
    };
    Ok(outcome.status == Status::Ok && has_line && is_back)
}

// A fault of the device is no refusal. The device is asked for a fork for each caller, behind the read of its header: one that is refused leaves its
// caller with no device. A short device is not read.
#[test]
fn a_device_of_which_calls_fail(rt: HostRuntime) -> Result<(), Fail> {
    let rows: [(usize, &[u64], &str); 4] = [
        (266_240, &[0], "\nrebuilt 0 device\n"),
        (266_240, &[1], "\nrebuilt 0 header magic\n"),
        (266_240, &[1, 2], "\nrebuilt 0 header magic\n"),
        (512, &[0], "\nrebuilt 0 short\n"),
    ];
    for (len, fails, line) in rows {
        assert!(rt; is_found(&rt, len, fails, line)?);
    }
    Ok(())
}
