//! Lines of reports that no run of the built program is made to print: they tell of memory, and of a device that fails at one call.
use std::alloc::{AllocError, Global};
use std::test::Fail;
use trace_text::{
    Ends, FeedReport, FeedStop, Histories, LogFault, Rebuilt, Refusal, Replies, Reply, Report,
    RestoredList, Served, Stop, Totals, report_text,
};

/// A report of nothing.
fn empty(alloc: Global) -> Report {
    Report {
        replies: Replies::from_vec(Vec::new(alloc)),
        histories: Histories::from_vec(Vec::new(alloc)),
        ends: Ends::from_vec(Vec::new(alloc)),
        io: None,
        rebuilt: None,
        status: 0,
        short: false,
    }
}

/// Whether the report has these lines in front of the counts, and these behind them.
fn has_lines(
    alloc: Global,
    report: &Report,
    front: &str,
    behind: &str,
) -> Result<bool, AllocError> {
    let mut out = Vec::new(alloc);
    if report_text(alloc, report, false, &mut out).is_err() {
        return Err(AllocError);
    }
    let counts = "count hit 0 miss 0 past 0 pool 0 l2 0 pass 0 set 0";
    let text = format!(in alloc; "arc 1\n{front}{counts}\n{behind}end 0\n")?;
    Ok(out.as_slice() == text.as_bytes())
}

/// What a feed is told that stopped so.
fn fed(end: FeedStop) -> Reply {
    Reply::Fed(FeedReport {
        picked: 1,
        bytes: 2048,
        written: 0,
        cleared: 0,
        end,
    })
}

const REPLY_LINES: &str = "\
0 held past
1 feed picked 1 bytes 2048 written 0 cleared 0 fault
2 feed picked 1 bytes 2048 written 0 cleared 0 memory
3 refused memory
";

#[test]
fn replies_of_faults(rt: HostRuntime) -> Result<(), Fail> {
    let served = Served::Past;
    let replies = vec![in rt.alloc();
        Reply::Kept { served },
        fed(FeedStop::DevFault),
        fed(FeedStop::NoMemory),
        Reply::Refused(Refusal::NoMemory),
    ]?;
    let mut report = empty(rt.alloc());
    report.replies = Replies::from_vec(replies);
    assert!(rt; has_lines(rt.alloc(), &report, REPLY_LINES, "")?);
    Ok(())
}

/// Whether a start that restored nothing, and stopped so, has these words, behind the line of workers that did nothing.
fn stops_with(alloc: Global, stop: Stop, words: &str) -> Result<bool, AllocError> {
    let mut report = empty(alloc);
    report.io = Some(Totals {
        asked: 0,
        served: 0,
        failed: 0,
    });
    let list = RestoredList::from_vec(Vec::new(alloc));
    report.rebuilt = Some(Rebuilt { list, stop });
    let lines = format!(in alloc; "io asked 0 served 0 failed 0\nrebuilt 0 {words}\n")?;
    has_lines(alloc, &report, "", lines.as_str())
}

#[test]
fn starts_that_stop(rt: HostRuntime) -> Result<(), Fail> {
    for (stop, words) in [
        (Stop::Length { walked: 65_536 }, "length"),
        (Stop::Header(LogFault::Length { len: 511 }), "header length"),
        (Stop::Block(LogFault::Magic), "block magic"),
        (Stop::Block(LogFault::Version), "block version"),
        (Stop::Block(LogFault::Length { len: 511 }), "block length"),
    ] {
        assert!(rt; stops_with(rt.alloc(), stop, words)?, "{words}");
    }
    Ok(())
}
