//! The program's first two words, which name the files, and what `--help` and `--version` print.
use crate::fault::Fault;
use clap::error::ErrorKind;
use clap::{Arg, Command, Error};
use std::alloc::{AllocError, Global};

/// What the first two words ask for.
#[derive(Drop)]
pub(crate) enum Names<'a> {
    /// A run over the files of these names.
    Files { pool: &'a str, cache: &'a str },
    /// The text of `--help` or `--version`.
    Shown(Error),
}

/// Reads the program's own name and the first two words behind it, or as many as there are.
pub(crate) fn names_of<'a>(alloc: Global, words: &'a [String]) -> Result<Names<'a>, Fault> {
    let command = command(alloc).map_err(|_| Fault::NO_MEMORY)?;
    match command.try_get_matches_from(words) {
        Ok(matches) => match (matches.get_str("POOL"), matches.get_str("CACHE")) {
            (Some(pool), Some(cache)) => Ok(Names::Files { pool, cache }),
            _ => Err(Fault::Names),
        },
        Err(error) => match error.kind() {
            ErrorKind::DisplayHelp | ErrorKind::DisplayVersion => Ok(Names::Shown(error)),
            ErrorKind::OutOfMemory => Err(Fault::NO_MEMORY),
            _ => Err(Fault::Names),
        },
    }
}

/// The command of the two file names. The words behind them are the run's own, and only shown here.
fn command<'a>(alloc: Global) -> Result<Command<'a>, AllocError> {
    let pool = Arg::new(alloc, "POOL").required(true).help(
        "The file or block device that blocks are read from, or - for an empty pool",
    );
    let cache = Arg::new(alloc, "CACHE").required(true).help(
        "The file or block device of the cache device, or - for none",
    );
    Command::new(alloc, "arc_tool")
        .version("0.1.0")
        .about(
            "Runs a trace of reads through a block cache over a pool, and reports what each read was answered.",
        )
        .override_usage("arc_tool POOL CACHE WORD...")
        .after_help(AFTER_HELP)
        .arg(pool)?
        .arg(cache)
}

/// What `--help` tells behind the two file names.
const AFTER_HELP: &str = "\
Words:
  run                  Reads a trace from the standard input and runs it
  run --events         Reports each event of the cache too
  gen SEED BLOCKS OPS  Makes a trace of OPS reads over BLOCKS blocks of zero bytes
                       and runs it; SEED is below 2147483648, BLOCKS from 1 to
                       32768, OPS at most 1000000
  paper C              Reads page numbers from the standard input, one a line,
                       and tells which are hits of ARC for C pages; C is from
                       1 to 65536
  check                Reads a log of events from the standard input, as run
                       --events prints them behind an arc line, and tells
                       whether they may have happened

What was found goes to the standard output.

Exit status:
  0   Everything was done
  1   The trace was run, and some reply is a refusal
  2   A word behind the file names is wrong; its index from 0 is told
  3   The standard input holds no trace, no list of pages, or no log
  4   The standard input could not be read
  5   The standard output could not be written
  6   The pool could not be opened once more for each of several callers, or not
      be written in a sync
  7   There was too little memory
  8   The pool has too little room for what a sync has to write
  9   The file names are missing, or a word is not UTF-8
  10  An event of the log may not come where it stands
  11  The pool's file could not be opened, or is longer than 2^40 bytes
  12  The cache device's file could not be opened, or is longer than 2^32 bytes";
