//! How traces are printed.
use std::alloc::Global;
use std::test::Fail;
use trace_text::{TraceFault, gen_trace, print_trace, read_trace};

/// A line of every kind, in the order in which they are printed.
const EVERY_LINE: &str = "\
arc 2 1 16 1 4096 0 4096
l2 4294967296 64
block 0 512 1 076a27c79e5ace2a3d47f9dd2e83e4ff6ea8872b3c2218f66c92b89b55f36560
block 4611686018427387904 4294967296 0 abababababababababababababababababababababababababababababababab
object 7 1 0
object 4611686018427387904 0 1
read 0 1 0 508 64
hold 1 4611686018427387904 1
drop 1 1
get 0 3 7 1 4294967295 0
put 1 4 7 2 16777216 0f
patch 0 5 7 2 511 00
patch 0 5 7 2 4294967295 00ff
pin 1 6 7 1
unpin 1 7 1
feed
txg 7
cap 4294967296
";

/// How the trace of this text is printed, behind other bytes.
fn printed(alloc: Global, text: &str) -> Result<Vec<u8>, TraceFault> {
    let trace = read_trace(alloc, text.as_bytes())?;
    let mut out = Vec::new(alloc);
    match print_trace(alloc, &trace, &mut out) {
        Ok(()) => Ok(out),
        Err(_) => Err(TraceFault::NoMemory),
    }
}

#[test]
fn a_trace_of_every_line(rt: HostRuntime) -> Result<(), Fail> {
    let out = printed(rt.alloc(), EVERY_LINE)?;
    assert!(rt; out.as_slice() == EVERY_LINE.as_bytes());
    Ok(())
}

/// The made trace of ten reads of eight blocks.
const MADE: &str = "\
arc 1 1 256 1 4096 0 0
l2 8388608 2
block 0 512 1 076a27c79e5ace2a3d47f9dd2e83e4ff6ea8872b3c2218f66c92b89b55f36560
block 512 512 1 076a27c79e5ace2a3d47f9dd2e83e4ff6ea8872b3c2218f66c92b89b55f36560
block 1024 512 1 076a27c79e5ace2a3d47f9dd2e83e4ff6ea8872b3c2218f66c92b89b55f36560
block 1536 512 1 076a27c79e5ace2a3d47f9dd2e83e4ff6ea8872b3c2218f66c92b89b55f36560
block 2048 512 1 076a27c79e5ace2a3d47f9dd2e83e4ff6ea8872b3c2218f66c92b89b55f36560
block 2560 512 1 076a27c79e5ace2a3d47f9dd2e83e4ff6ea8872b3c2218f66c92b89b55f36560
block 3072 512 1 076a27c79e5ace2a3d47f9dd2e83e4ff6ea8872b3c2218f66c92b89b55f36560
block 3584 512 1 076a27c79e5ace2a3d47f9dd2e83e4ff6ea8872b3c2218f66c92b89b55f36560
read 0 1 6 0 0
read 0 2 6 0 0
read 0 3 1 0 0
read 0 4 3 0 0
read 0 5 3 0 0
read 0 6 3 0 0
read 0 7 2 0 0
read 0 8 3 0 0
read 0 9 4 0 0
read 0 10 6 0 0
";

#[test]
fn a_made_trace(rt: HostRuntime) -> Result<(), Fail> {
    let trace = gen_trace(rt.alloc(), 1, 8, 10)?;
    let mut out = Vec::new(rt.alloc());
    print_trace(rt.alloc(), &trace, &mut out)?;
    assert!(rt; out.as_slice() == MADE.as_bytes());
    Ok(())
}
