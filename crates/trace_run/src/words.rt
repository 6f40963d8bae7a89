//! The words of the command line behind the two file names.
ghost use Rattle.std.specs.Prelude.{◌≡◌, Some, MatchResult, codes, option_map, slice_get};
ghost use Rattle.trace_text.specs.Reading.{IsNumberRead};
ghost use Rattle.trace_run.specs.Words.{IsCommand, IsFirstWrong, IsNumberAt, texts};

use arc_paper::MOST_PAGES;
use trace_text::{MOST_GENERATED_BLOCKS, MOST_GENERATED_READS};

/// The greatest seed of a made trace.
const MOST_SEED: u32 = 2_147_483_647;

/// What the program is asked to do.
#[derive(Clone, Copy, Debug, PartialEq, Eq)]
pub(crate) enum Command {
    /// `run`, or `run --events`: runs the trace on the source. With `events` the report lists the events of the shards.
    Run { events: bool },
    /// `gen SEED BLOCKS OPS`: makes a trace of reads over this many blocks of zero bytes, and runs it.
    Gen { seed: u32, blocks: u32, ops: u32 },
    /// `paper C`: tells of each page of the source whether ARC for C pages has it.
    Paper { c: u32 },
    /// `check`: judges the log of events on the source.
    Check,
}

impl Command {
    /// The command that these words are, or the index of the first word with which none goes on; where more words are wanted
    /// that is their number.
    pub(crate) fn parse(words: &[String]) -> Result<Command, u32>
        ensures { MatchResult result (IsCommand (texts words.now)) (IsFirstWrong (texts words.now)) }
    {
        let Some(first) = word_at(words, 0) else {
            return Err(0);
        };
        match first {
            "run" => parse_run(words),
            "gen" => parse_gen(words),
            "paper" => parse_paper(words),
            "check" => parse_check(words),
            _ => Err(0),
        }
    }
}

/// The command that begins with the word `run`.
fn parse_run(words: &[String]) -> Result<Command, u32>
    requires { slice_get (texts words.now) 0 ≡ Some (codes "run") }
    ensures { MatchResult result (IsCommand (texts words.now)) (IsFirstWrong (texts words.now)) }
{
    match word_at(words, 1) {
        None => Ok(Command::Run { events: false }),
        Some("--events") => match word_at(words, 2) {
            None => Ok(Command::Run { events: true }),
            Some(_) => Err(2),
        },
        Some(_) => Err(1),
    }
}

/// The command that begins with the word `gen`.
fn parse_gen(words: &[String]) -> Result<Command, u32>
    requires { slice_get (texts words.now) 0 ≡ Some (codes "gen") }
    ensures { MatchResult result (IsCommand (texts words.now)) (IsFirstWrong (texts words.now)) }
{
    let seed = number_at(words, 1, 0, MOST_SEED)?;
    let blocks = number_at(words, 2, 1, MOST_GENERATED_BLOCKS)?;
    let ops = number_at(words, 3, 0, MOST_GENERATED_READS)?;
    match word_at(words, 4) {
        None => Ok(Command::Gen { seed, blocks, ops }),
        Some(_) => Err(4),
    }
}

/// The command that begins with the word `paper`.
fn parse_paper(words: &[String]) -> Result<Command, u32>
    requires { slice_get (texts words.now) 0 ≡ Some (codes "paper") }
    ensures { MatchResult result (IsCommand (texts words.now)) (IsFirstWrong (texts words.now)) }
{
    let c = number_at(words, 1, 1, MOST_PAGES)?;
    match word_at(words, 2) {
        None => Ok(Command::Paper { c }),
        Some(_) => Err(2),
    }
}

/// The command that begins with the word `check`.
fn parse_check(words: &[String]) -> Result<Command, u32>
    requires { slice_get (texts words.now) 0 ≡ Some (codes "check") }
    ensures { MatchResult result (IsCommand (texts words.now)) (IsFirstWrong (texts words.now)) }
{
    match word_at(words, 1) {
        None => Ok(Command::Check),
        Some(_) => Err(1),
    }
}

/// The word at an index, where there are so many.
fn word_at(words: &[String], index: u32) -> Option<&str>
    ensures { option_map (λ word. word.now) result ≡ slice_get (texts words.now) index }
{
    let index = index as usize;
    if index < words.len() {
        Some(words[index].as_str())
    } else {
        None
    }
}

/// The number from `low` to `high` that the word at an index is, or that index.
fn number_at(words: &[String], index: u32, low: u32, high: u32) -> Result<u32, u32>
    ensures { IsNumberAt (texts words.now) index low high result }
{
    match word_at(words, index) {
        Some(word) => number(word, low, high).ok_or(index),
        None => Err(index),
    }
}

/// The number from `low` to `high` that a word spells in decimal, with no sign and no leading zero.
fn number(word: &str, low: u32, high: u32) -> Option<u32>
    ensures { IsNumberRead low high word.now result }
{
    trace_text::number(word.as_bytes(), u64::from(low), u64::from(high)).map(|value| value as u32)
}
