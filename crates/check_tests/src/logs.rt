//! What logs that are written by hand are judged to be, and which line of a text that is none is at fault.
use arc_check::{Kind, LogTextFault, Verdict, check, read_events};
use std::alloc::{AllocError, Global};
use std::test::Fail;

/// The sizes of one shard of 4,096 bytes, with one caller and one cell.
const SIZES: &str = "arc 1 1 16 1 4096 0 4096";

/// The name of a kind.
fn name_of(kind: Kind) -> &'static str {
    match kind {
        Kind::First => "First",
        Kind::Word => "Word",
        Kind::Shape => "Shape",
        Kind::Number => "Number",
        Kind::Order => "Order",
        Kind::Count => "Count",
        Kind::Length => "Length",
    }
}

/// The verdict on a text, with what its first shard ends with; or its first fault.
fn verdict_of(alloc: Global, text: &str) -> Result<String, AllocError> {
    let log = match read_events(alloc, text.as_bytes()) {
        Ok(log) => log,
        Err(LogTextFault::Bad { line, kind }) => {
            return format!(in alloc; "{} {line}", name_of(kind));
        }
        Err(LogTextFault::NoMemory) => return Err(AllocError),
    };
    match check(alloc, &log) {
        Ok(Verdict::Legal { ends }) => match ends.get(0) {
            Some(end) => format!(in alloc; "ok {end}"),
            None => format!(in alloc; "ok"),
        },
        Ok(Verdict::Illegal { shard, index }) => format!(in alloc; "bad {shard} {index}"),
        Err(_refused) => Err(AllocError),
    }
}

/// The first row, what is wanted and the lines behind the sizes, that is told otherwise; or None.
fn wrong_row<'a>(alloc: Global, rows: &[(&str, &'a str)]) -> Result<Option<&'a str>, AllocError> {
    for row in rows {
        let (wanted, lines) = *row;
        let text = format!(in alloc; "{SIZES}\n{lines}\n")?;
        let told = verdict_of(alloc, text.as_str())?;
        if told.as_str() != wanted {
            return Ok(Some(lines));
        }
    }
    Ok(None)
}

#[test]
fn histories_of_one_block(rt: HostRuntime) -> Result<(), Fail> {
    let rows = [
        (
            "ok c 4096 p 2048 anon 0 mru 512 mrug 0 mfu 0 mfug 0 l2 0",
            "e 0 0 miss 0 0 512 1 1\n\
             e 0 1 arrive 0 0 512 1 076a27c79e5ace2a3d47f9dd2e83e4ff6ea8872b3c2218f66c92b89b55f36560 pool\n\
             e 0 2 drop 0 0 512 1",
        ),
        ("bad 0 1", "e 0 0 miss 0 0 512 1 1\ne 0 1 drop 0 0 512 1"),
        ("Order 2", "e 0 1 miss 0 0 512 1 1"),
        (
            "ok c 4096 p 2048 anon 0 mru 0 mrug 0 mfu 0 mfug 0 l2 512",
            "l2 131072 2\n# a place of an earlier run\ne 0 0 restore 1 0 512 1 4096 -",
        ),
        (
            "ok c 8192 p 2048 anon 0 mru 0 mrug 0 mfu 0 mfug 0 l2 0",
            "e 0 0 resize 2 8192",
        ),
        ("bad 0 0", "e 0 0 resize 2 4095"),
        ("bad 0 0", "e 0 0 hit 0 0 512 1 1"),
    ];
    assert_eq!(rt; wrong_row(rt.alloc(), &rows)?, None);
    Ok(())
}

#[test]
fn faults_of_a_second_line(rt: HostRuntime) -> Result<(), Fail> {
    let rows = [
        ("Word 2", "arc 1 1 16 1 4096 0 4096"),
        ("Word 2", "read 0 1 0 0 4"),
        ("Word 2", "e 0 0 misses 0 0 512 1"),
        ("Word 2", "e 0 0 "),
        ("Shape 2", "e"),
        ("Shape 2", "e 0 0"),
        ("Shape 2", "e 0 0 miss 0 0 512 1"),
        ("Shape 2", "e 0  miss 0 0 512 1 1"),
        ("Shape 2", "l2 512"),
        ("Number 2", "l2 511 1"),
        ("Number 2", "l2 512 65"),
        ("Number 2", "e 1 0 miss 0 0 512 1 1"),
        ("Number 2", "e 0 00 miss 0 0 512 1 1"),
        ("Number 2", "e 0 0 miss 3 0 512 1 1"),
        ("Number 2", "e 0 0 miss 0 1 512 1 1"),
        ("Number 2", "e 0 0 miss 0 0 513 1 1"),
        ("Number 2", "e 0 0 miss 0 0 512 0 1"),
        ("Number 2", "e 0 0 miss 0 9223372036854775808 512 1 1"),
        ("Number 2", "e 0 0 miss 0 0 512 1 4611686018427387905"),
        ("Number 2", "e 0 0 restore 1 0 512 1 4096 0"),
        ("Number 2", "e 0 0 fail 0 0 512 1 l2"),
        ("Order 3", "e 0 0 miss 0 0 512 1 1\nl2 512 1"),
        ("Order 3", "l2 512 1\nl2 512 1"),
        ("Order 3", "e 0 0 miss 0 0 512 1 1\ne 0 0 drop 0 0 512 1"),
    ];
    assert_eq!(rt; wrong_row(rt.alloc(), &rows)?, None);
    Ok(())
}
