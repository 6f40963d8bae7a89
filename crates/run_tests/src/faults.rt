//! Runs over a source, a sink, a pool and forks of which single calls fail.
use super::runs::{ran, source_of, spelled, zeros};
use std::sync::Wait;
use std::test::Fail;
use std::thread::Threads;
use trace_run::Status;
use vdev_io::FreeGate;

/// Whether the policy over a list of two pages, where these calls of the source and of the sink fail, ends with this status and no report, and has
/// written this.
fn ends_so<R: AllocGlobal + Threads + Wait + Sync>(
    rt: &R,
    source_fails: &[u64],
    sink_fails: &[u64],
    status: Status,
    written: &[u8],
) -> Result<bool, Fail> {
    let words = ["paper", "2"];
    let mut source = source_of(rt.alloc(), "1\n2\n", source_fails)?;
    let mut pool = zeros(rt.alloc(), 512, &[], &[])?;
    let (outcome, text) = ran(rt, &words, &mut source, &mut pool, sink_fails, &FreeGate)?;
    Ok(outcome.status == status && outcome.report.is_none() && text.as_slice() == written)
}

// The sink takes twelve bytes at a time.
#[test]
fn a_later_call_of_a_stream_fails(rt: HostRuntime) -> Result<(), Fail> {
    assert!(rt; ends_so(&rt, &[1], &[], Status::SourceFault, b"")?);
    assert!(rt; ends_so(&rt, &[], &[1], Status::SinkFault, b"0 miss\n1 mis")?);
    Ok(())
}

/// A trace over a pool of zero bytes, of which these calls fail, and those of its forks, and each report that some order of the callers
/// gives.
struct Row {
    shows: &'static str,
    fail: &'static [u64],
    forks: &'static [&'static [u64]],
    trace: &'static str,
    reports: &'static [&'static str],
}

const ROWS: [Row; 9] = [
    Row {
        shows: "the pool fails once",
        fail: &[0],
        forks: &[],
        trace: "arc 1 1 16 1 4096 0 4096
block 0 512 1 Z
read 0 1 0 0 0
read 0 2 0 0 0
",
        reports: &[
            "arc 1
0 refused pool
1 ok pool Z -
shard 0 c 4096 p 2048 anon 0 mru 512 mrug 0 mfu 0 mfug 0 l2 0
count hit 0 miss 2 past 0 pool 2 l2 0 pass 0 set 0
end 1
",
        ],
    },
    Row {
        shows: "one caller's fork fails: whoever waited for that read makes one of its own",
        fail: &[],
        forks: &[&[0]],
        trace: "arc 2 1 16 1 4096 0 0
block 0 512 1 Z
read 0 1 0 0 0
read 1 1 0 0 0
",
        reports: &[
            "arc 1
0 refused pool
1 ok pool Z -
shard 0 c 4096 p 2048 anon 0 mru 512 mrug 0 mfu 0 mfug 0 l2 0
count hit 0 miss 2 past 0 pool 2 l2 0 pass 0 set 0
end 1
",
            "arc 1
0 ok hit Z -
1 ok pool Z -
shard 0 c 4096 p 2048 anon 0 mru 512 mrug 0 mfu 0 mfug 0 l2 0
count hit 1 miss 1 past 0 pool 1 l2 0 pass 0 set 0
end 0
",
        ],
    },
    Row {
        shows: "each caller's fork fails once, and each is told of its own failure",
        fail: &[],
        forks: &[&[0], &[0]],
        trace: "arc 2 1 16 1 4096 0 0
block 0 512 1 Z
read 0 1 0 0 0
read 1 1 0 0 0
",
        reports: &[
            "arc 1
0 refused pool
1 refused pool
shard 0 c 4096 p 2048 anon 0 mru 0 mrug 0 mfu 0 mfug 0 l2 0
count hit 0 miss 2 past 0 pool 2 l2 0 pass 0 set 0
end 1
",
        ],
    },
    Row {
        shows: "no fork can be made: no operation is answered",
        fail: &[0],
        forks: &[],
        trace: "arc 2 2 16 1 4096 0 0
block 0 512 1 Z
read 0 1 0 0 0
read 1 1 0 0 0
",
        reports: &[
            "arc 1
shard 0 c 4096 p 2048 anon 0 mru 0 mrug 0 mfu 0 mfug 0 l2 0
shard 1 c 4096 p 2048 anon 0 mru 0 mrug 0 mfu 0 mfug 0 l2 0
count hit 0 miss 0 past 0 pool 0 l2 0 pass 0 set 0
end 6
",
        ],
    },
    Row {
        shows: "the third fork can't be made, after two that were",
        fail: &[2],
        forks: &[],
        trace: "arc 3 1 16 1 4096 0 0
block 0 512 1 Z
read 0 1 0 0 0
",
        reports: &[
            "arc 1
shard 0 c 4096 p 2048 anon 0 mru 0 mrug 0 mfu 0 mfug 0 l2 0
count hit 0 miss 0 past 0 pool 0 l2 0 pass 0 set 0
end 6
",
        ],
    },
    Row {
        shows: "a trace without an operation makes no fork, so none fails",
        fail: &[0],
        forks: &[],
        trace: "arc 2 1 16 1 4096 0 0
block 0 512 1 Z
",
        reports: &[
            "arc 1
shard 0 c 4096 p 2048 anon 0 mru 0 mrug 0 mfu 0 mfug 0 l2 0
count hit 0 miss 0 past 0 pool 0 l2 0 pass 0 set 0
end 0
",
        ],
    },
    Row {
        shows: "the second group's last fork can't be made: the first group is answered, and the capacity behind it is given",
        fail: &[3],
        forks: &[],
        trace: "arc 2 1 16 1 8192 0 0
block 0 512 1 Z
read 0 1 0 0 0
cap 4096
read 1 2 0 0 0
",
        reports: &[
            "arc 1
0 ok pool Z -
1 cap 4096
shard 0 c 4096 p 3840 anon 0 mru 512 mrug 0 mfu 0 mfug 0 l2 0
count hit 0 miss 1 past 0 pool 1 l2 0 pass 0 set 0
end 6
",
        ],
    },
    Row {
        shows: "the forks of the group behind a sync are made anew: the third is the first caller's in the second group",
        fail: &[],
        forks: &[&[1], &[], &[0]],
        trace: "arc 2 1 16 1 8192 0 0
block 0 512 1 Z
block 512 512 1 Z
read 0 1 0 0 0
txg 2
read 0 3 1 0 0
",
        reports: &[
            "arc 1
0 ok pool Z -
1 txg 1 blocks 0 bytes 0
2 refused pool
shard 0 c 8192 p 4096 anon 0 mru 512 mrug 0 mfu 0 mfug 0 l2 0
count hit 0 miss 2 past 0 pool 2 l2 0 pass 0 set 0
end 1
",
        ],
    },
    Row {
        shows: "each group has forks of its own: the third is the first caller's in the second group",
        fail: &[],
        forks: &[&[1], &[], &[0]],
        trace: "arc 2 1 16 1 8192 0 0
block 0 512 1 Z
block 512 512 1 Z
read 0 1 0 0 0
cap 4096
read 0 2 1 0 0
",
        reports: &[
            "arc 1
0 ok pool Z -
1 cap 4096
2 refused pool
shard 0 c 4096 p 3840 anon 0 mru 512 mrug 0 mfu 0 mfug 0 l2 0
count hit 0 miss 2 past 0 pool 2 l2 0 pass 0 set 0
end 1
",
        ],
    },
];

/// Runs a row, and tells whether what it reports is one of its reports.
fn is_right<R: AllocGlobal + Threads + Wait + Sync>(rt: &R, row: &Row) -> Result<bool, Fail> {
    let mut source = source_of(rt.alloc(), row.trace, &[])?;
    let mut pool = zeros(rt.alloc(), 8192, row.fail, row.forks)?;
    let (_, text) = ran(rt, &["run"], &mut source, &mut pool, &[], &FreeGate)?;
    for report in row.reports {
        if spelled(rt.alloc(), report)?.as_bytes() == text.as_slice() {
            return Ok(true);
        }
    }
    Ok(false)
}

/// Runs each row four times.
#[test]
fn calls_of_the_pool_that_fail(rt: HostRuntime) -> Result<(), Fail> {
    for row in &ROWS {
        for _ in 0..4 {
            assert!(rt; is_right(&rt, row)?, "{}", row.shows);
        }
    }
    Ok(())
}
