//! `arc_tool POOL CACHE WORD...` reads a trace from the standard input and writes its report to the standard output.
#![tactic(auto)]

mod fault;
mod names;

use crate::fault::{Fault, Why};
use crate::names::{Names, names_of};
use std::fs::{File, OpenOptions};
use std::io::{ErrorKind, Print, Seek, SeekFrom};
use std::process::ExitCode;
use std::rt::{Env, Files};
use std::{env, fs};
use trace_run::run;
use vdev_io::{
    FileCache, FilePool, FreeGate, LONGEST_CACHE, LONGEST_POOL, OpenFault, StdSink, StdSource,
};

/// The file name that stands for an empty pool, or for no cache device.
const NO_FILE: &str = "-";

/// What stands in for a standard stream that is closed: opened to be read, it is empty, and no byte can be written to it.
const NOTHING: &str = "/dev/null";

/// How many words are read here: the program's own name and those of the two files.
const NAMES: usize = 3;

/// What the program's words name: the files, opened, and the words behind them.
#[derive(Drop)]
struct Job<'a, R: Files> {
    pool: FilePool<'a, R>,
    cache: Option<FileCache<'a, R>>,
    words: Vec<String>,
}

fn main(rt: HostRuntime) -> ExitCode {
    // A standard stream that is closed leaves its number to the file that is opened next, and a report would be written into the pool.
    let _streams = [
        File::open(&rt, NOTHING),
        File::open(&rt, NOTHING),
        File::open(&rt, NOTHING),
    ];
    let ended = match prepare(&rt) {
        Ok(None) => return ExitCode::SUCCESS,
        Ok(
            Some(
                Job {
                    mut pool,
                    mut cache,
                    words,
                },
            ),
        ) => {
            let outcome = run(
                rt.alloc(),
                &rt,
                &words,
                &mut StdSource::new(&rt),
                &mut StdSink::new(&rt),
                &mut pool,
                &mut cache,
                &FreeGate,
            );
            match Fault::of(outcome.status) {
                Some(fault) => fault,
                None => return ExitCode::from(outcome.status.code()),
            }
        }
        Err(fault) => fault,
    };
    // Where the standard error fails too, nobody is left to tell.
    let _ = eprintln!(rt; "arc_tool: {ended}");
    ExitCode::from(ended.code())
}

/// Reads the program's words, and opens the files that the first two name. There is nothing left to run where they ask for the
/// help or the version, which are printed.
fn prepare<R: AllocGlobal + Env + Files + Print>(rt: &R) -> Result<Option<Job<'_, R>>, Fault> {
    let mut words = env::args(rt)
        .map_err(|error| match error.kind() {
            ErrorKind::OutOfMemory => Fault::NO_MEMORY,
            _ => Fault::Names,
        })?
        .collect::<Vec<String>>(rt.alloc())
        .map_err(|_| Fault::NO_MEMORY)?;
    let behind = words
        .split_off(words.len().min(NAMES))
        .map_err(|_| Fault::NO_MEMORY)?;
    match names_of(rt.alloc(), &words)? {
        Names::Files { pool, cache } => {
            let pool = open_pool(rt, pool)?;
            let cache = open_cache(rt, cache)?;
            Ok(Some(Job {
                pool,
                cache,
                words: behind,
            }))
        }
        Names::Shown(text) => {
            rt.print(text).map_err(|_| Fault::SINK)?;
            Ok(None)
        }
    }
}

/// Opens the cache device that a word names, where it names one.
fn open_cache<'a, R: AllocGlobal + Files>(
    rt: &'a R,
    name: &str,
) -> Result<Option<FileCache<'a, R>>, Fault> {
    if name == NO_FILE {
        return Ok(None);
    }
    match FileCache::open(rt.alloc(), rt, name) {
        Ok(cache) => Ok(Some(cache)),
        Err(OpenFault::File) => {
            let why = why_refused(rt, name, true, LONGEST_CACHE);
            let name = named(rt, name)?;
            Err(Fault::Cache { name, why })
        }
        Err(OpenFault::NoMemory) => Err(Fault::NO_MEMORY),
    }
}

/// A name that is told.
fn named<R: AllocGlobal>(rt: &R, name: &str) -> Result<String, Fault> {
    String::from_str(rt.alloc(), name).map_err(|_| Fault::NO_MEMORY)
}

/// Why the file of this name can't be had, which is to be read, or written too, and may have so many bytes.
fn why_refused<R: Files>(rt: &R, name: &str, writes: bool, longest: u64) -> Why {
    match fs::metadata(rt, name) {
        Err(error) => return why_of(error.kind()),
        Ok(found) if found.is_dir() => return Why::Directory,
        Ok(_) => {}
    }
    match OpenOptions::new().read(true).write(writes).open(rt, name) {
        Err(error) => why_of(error.kind()),
        Ok(mut file) => match file.seek(SeekFrom::End(0)) {
            Ok(len) if len > longest => Why::Long(longest),
            _ => Why::Refused,
        },
    }
}

/// What the system's reason comes to.
fn why_of(kind: ErrorKind) -> Why {
    match kind {
        ErrorKind::NotFound => Why::Missing,
        ErrorKind::PermissionDenied => Why::NoRight,
        _ => Why::Refused,
    }
}

/// Opens the pool that a word names.
fn open_pool<'a, R: AllocGlobal + Files>(rt: &'a R, name: &str) -> Result<FilePool<'a, R>, Fault> {
    if name == NO_FILE {
        return Ok(FilePool::empty(rt));
    }
    match FilePool::open(rt.alloc(), rt, name) {
        Ok(pool) => Ok(pool),
        Err(OpenFault::File) => {
            let why = why_refused(rt, name, false, LONGEST_POOL);
            let name = named(rt, name)?;
            Err(Fault::Pool { name, why })
        }
        Err(OpenFault::NoMemory) => Err(Fault::NO_MEMORY),
    }
}
