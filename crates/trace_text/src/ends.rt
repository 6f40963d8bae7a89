//! What a shard ends with, and how it is printed.
ghost use Rattle.std.specs.Prelude.{Some};

use std::fmt;

/// What a shard ends with.
#[derive(Clone, Copy)]
pub struct ShardEnd {
    /// The most bytes that it caches.
    pub c: u64,
    /// The bytes that it aims to have on the list of recently used blocks.
    pub p: u64,
    /// The bytes of its entries by state: anonymous, recently used, their ghosts, frequently used, their ghosts, on the cache device alone.
    pub sizes: [u128; 6],
}

impl fmt::Display for ShardEnd {
    ghost use Rattle.trace_text.specs.EndText.{end_words};

    ghost output = { λ end. Some (end_words end) };

    fn fmt<W: fmt::Write>(&self, f: &mut fmt::Formatter<W>) -> fmt::Result {
        let ShardEnd { c, p, sizes } = *self;
        write!(f, "c {c} p {p} {}", SizesWords(sizes))
    }
}

/// The bytes of each state, with their names.
#[derive(Clone, Copy)]
struct SizesWords([u128; 6]);

impl fmt::Display for SizesWords {
    ghost use Rattle.trace_text.specs.SizesText.{sizes_words};

    ghost output = { λ words. Some (sizes_words words.0) };

    fn fmt<W: fmt::Write>(&self, f: &mut fmt::Formatter<W>) -> fmt::Result {
        let [anon, mru, mrug, mfu, mfug, l2] = self.0;
        write!(
            f,
            "anon {anon} mru {mru} mrug {mrug} mfu {mfu} mfug {mfug} l2 {l2}"
        )
    }
}
