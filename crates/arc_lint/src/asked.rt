//! The program's words, and what `--help` and `--version` print.
use crate::ended::Ended;
use crate::verdict::Format;
use clap::error::ErrorKind;
use clap::{Arg, ArgAction, Command, Error};
use std::alloc::{AllocError, Global};

/// What the words ask for.
#[derive(Drop)]
pub(crate) enum Asked {
    /// A look at a text of this format.
    Look(Format),
    /// The text of `--help` or `--version`.
    Shown(Error),
}

/// Reads the program's own name and the words behind it.
pub(crate) fn asked_by(alloc: Global, words: &[String]) -> Result<Asked, Ended> {
    let command = command(alloc).map_err(|_| Ended::NoMemory)?;
    match command.try_get_matches_from(words) {
        Ok(matches) => {
            let format = if matches.get_flag("pages") {
                Format::Pages
            } else if matches.get_flag("log") {
                Format::Log
            } else {
                Format::Trace
            };
            Ok(Asked::Look(format))
        }
        Err(error) => match error.kind() {
            ErrorKind::DisplayHelp | ErrorKind::DisplayVersion => Ok(Asked::Shown(error)),
            ErrorKind::OutOfMemory => Err(Ended::NoMemory),
            _ => Err(Ended::Usage),
        },
    }
}

/// The command with its options, of which one may be given.
fn command<'a>(alloc: Global) -> Result<Command<'a>, AllocError> {
    let pages = Arg::new(alloc, "pages")
        .long("pages")
        .action(ArgAction::SetTrue)
        .help("Reads a list of pages, as arc_tool's paper takes one, and no trace");
    let log = Arg::new(alloc, "log")
        .long("log")
        .action(ArgAction::SetTrue)
        .help("Reads a log of events, as arc_tool's check takes one, and no trace")
        .conflicts_with("pages")?;
    Command::new(alloc, "arc_lint")
        .version("0.1.0")
        .about(
            "Tells whether the standard input is a trace for arc_tool: what it declares, or its first line at fault.",
        )
        .override_usage("arc_lint [--pages | --log] < FILE")
        .after_help(AFTER_HELP)
        .arg(pages)?
        .arg(log)
}

/// What `--help` tells behind the options.
const AFTER_HELP: &str = "\
What the text declares stands behind 'ok'. Of a text with a fault three lines
are told: the first line at fault by its number, with the kind of its fault; the
line, cut to 200 bytes; and what is wanted there.

Exit status:
  0  The text is a trace, a list of pages, or a log of events
  2  A word is wrong
  3  The text has a fault, which was told
  4  The standard input could not be read
  5  The standard output could not be written
  7  There was too little memory";
