//! How an event is printed: its name, who made it, its key, and what else it tells.
ghost use Rattle.std.specs.Prelude.{◌≡◌, [], ◌∷◌, Some, decimal};
ghost use Rattle.trace_text.specs.EventText.{event_words, failed_word, key_words, origin_word, sole_word, spaced, told_words, why_word};

use arc_core::{Event, FailedAt, Origin, Why};
use blk_ptr::{Digest, Key};
use std::fmt;

/// What the words of an event begin with, where it has a key: its name, who made it, and the key as its offset, its size and its birth.
#[derive(Clone, Copy)]
struct UpToKey<'a>(&'a str, u32, Key);

impl fmt::Display for UpToKey<'_> {
    ghost output = { λ words. Some (spaced (words.0.now ∷ decimal words.1 ∷ key_words words.2 ∷ [])) };

    fn fmt<W: fmt::Write>(&self, f: &mut fmt::Formatter<W>) -> fmt::Result {
        let UpToKey(name, n, key) = *self;
        let Key {
            offset,
            size,
            birth,
        } = key;
        write!(f, "{name} {n} {offset} {size} {birth}")
    }
}

/// A digest, or `-` where none is told.
#[derive(Clone, Copy)]
pub(crate) struct ToldDigest(pub(crate) Option<Digest>);

impl fmt::Display for ToldDigest {
    ghost output = { λ told. Some (told_words told.0) };

    fn fmt<W: fmt::Write>(&self, f: &mut fmt::Formatter<W>) -> fmt::Result {
        match self.0 {
            Some(digest) => write!(f, "{digest}"),
            None => write!(f, "-"),
        }
    }
}

/// An event as its name, who made it, its key, and what else it tells.
#[derive(Clone, Copy)]
pub(crate) struct EventWords(pub(crate) Event);

impl fmt::Display for EventWords {
    ghost output = { λ words. Some (event_words words.0) };

    fn fmt<W: fmt::Write>(&self, f: &mut fmt::Formatter<W>) -> fmt::Result {
        match self.0 {
            Event::Pass { n, key, owner } => write!(f, "{} {owner}", UpToKey("pass", n, key)),
            Event::Hit { n, key, t } => write!(f, "{} {t}", UpToKey("hit", n, key)),
            Event::Miss { n, key, t } => write!(f, "{} {t}", UpToKey("miss", n, key)),
            Event::Arrive {
                n,
                key,
                digest,
                from,
            } => {
                let front = UpToKey("arrive", n, key);
                write!(f, "{front} {digest} {}", word_of_origin(from))
            }
            Event::Fail { n, key, at } => write!(
                f,
                "{} {}",
                UpToKey("fail", n, key),
                word_of_fault(at)
            ),
            Event::Drop { n, key } => write!(f, "{}", UpToKey("drop", n, key)),
            Event::Past { n, key, kept } => write!(f, "{} {kept}", UpToKey("past", n, key)),
            Event::Hand { n, key, to } => write!(f, "{} {to}", UpToKey("hand", n, key)),
            Event::Insert { n, key, digest, t } => write!(
                f,
                "{} {digest} {t}",
                UpToKey("insert", n, key)
            ),
            Event::Release { n, key, sole } => write!(
                f,
                "{} {}",
                UpToKey("release", n, key),
                word_of_hold(sole)
            ),
            Event::Pick { n, key } => write!(f, "{}", UpToKey("pick", n, key)),
            Event::FeedEnd { n } => write!(f, "feedend {n}"),
            Event::Set { n, key, place } => write!(f, "{} {place}", UpToKey("set", n, key)),
            Event::Leave { n, key, why } => write!(
                f,
                "{} {}",
                UpToKey("leave", n, key),
                word_of_cause(why)
            ),
            Event::Clear { n, key } => write!(f, "{}", UpToKey("clear", n, key)),
            Event::Restore {
                n,
                key,
                place,
                digest,
            } => {
                let front = UpToKey("restore", n, key);
                write!(f, "{front} {place} {}", ToldDigest(digest))
            }
            Event::Resize { n, c } => write!(f, "resize {n} {c}"),
        }
    }
}

/// Where the bytes of a read came from.
fn word_of_origin(from: Origin) -> &'static str
    ensures { result.now ≡ origin_word from }
{
    match from {
        Origin::Pool => "pool",
        Origin::L2 => "l2",
    }
}

/// Where a read had come when it failed.
fn word_of_fault(at: FailedAt) -> &'static str
    ensures { result.now ≡ failed_word at }
{
    match at {
        FailedAt::Unread => "unread",
        FailedAt::Pool => "pool",
    }
}

/// Why a picked key gets no place on the cache device.
fn word_of_cause(why: Why) -> &'static str
    ensures { result.now ≡ why_word why }
{
    match why {
        Why::Gone => "gone",
        Why::Device => "device",
        Why::Memory => "memory",
    }
}

/// Whether a hold that was given back was the only one.
fn word_of_hold(sole: bool) -> &'static str
    ensures { result.now ≡ sole_word sole }
{
    if sole { "sole" } else { "shared" }
}
