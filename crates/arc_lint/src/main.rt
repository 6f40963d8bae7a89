//! `arc_lint` reads a trace, or with `--pages` a list of pages, or with `--log` a log of events, from the standard input and tells
//! whether it is one: what it declares, or its first line at fault.
#![tactic(auto)]

mod asked;
mod ended;
mod line;
mod lint;
mod print;
mod verdict;
mod wanted;

use crate::asked::{Asked, asked_by};
use crate::ended::Ended;
use crate::lint::lint;
use std::env;
use std::io::{ErrorKind, Input, Print};
use std::process::ExitCode;
use std::rt::Env;
use vdev_io::{StdSink, StdSource};

fn main(rt: HostRuntime) -> ExitCode {
    let ended = match words_of(&rt) {
        Ok(words) => run(&rt, &words),
        Err(ended) => ended,
    };
    if let Some(reason) = ended.reason() {
        // Where the standard error fails too, nobody is left to tell.
        let _ = eprintln!(rt; "arc_lint: {reason}");
    }
    ExitCode::from(ended.code())
}

/// The program's own name and the words behind it.
fn words_of<R: AllocGlobal + Env>(rt: &R) -> Result<Vec<String>, Ended> {
    env::args(rt)
        .map_err(|error| match error.kind() {
            ErrorKind::OutOfMemory => Ended::NoMemory,
            _ => Ended::Usage,
        })?
        .collect::<Vec<String>>(rt.alloc())
        .map_err(|_| Ended::NoMemory)
}

/// Does what the words ask.
fn run<R: AllocGlobal + Input + Print>(rt: &R, words: &[String]) -> Ended {
    match asked_by(rt.alloc(), words) {
        Ok(Asked::Look(format)) => lint(
            rt.alloc(),
            format,
            &mut StdSource::new(rt),
            &mut StdSink::new(rt),
        ),
        Ok(Asked::Shown(text)) => match rt.print(text) {
            Ok(()) => Ended::Fine,
            Err(_) => Ended::SinkFault,
        },
        Err(ended) => ended,
    }
}
