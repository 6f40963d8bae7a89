//! What the events of all shards are counted as, and how the counts are printed.
ghost use Rattle.std.specs.Prelude.{Some};

use std::fmt;

/// What the events of all shards are counted as.
#[derive(Clone, Copy)]
pub struct Counts {
    /// Accesses that found their bytes cached.
    pub hit: u128,
    /// Accesses that did not.
    pub miss: u128,
    /// Reads past the cache.
    pub past: u128,
    /// Reads of the pool.
    pub pool: u128,
    /// Bytes that the cache device gave.
    pub l2: u128,
    /// Keys that a scan passed.
    pub pass: u128,
    /// Keys that got a place on the cache device.
    pub set: u128,
}

impl fmt::Display for Counts {
    ghost use Rattle.trace_text.specs.EndText.{count_words};

    ghost output = { λ counts. Some (count_words counts) };

    fn fmt<W: fmt::Write>(&self, f: &mut fmt::Formatter<W>) -> fmt::Result {
        let Counts {
            hit,
            miss,
            past,
            pool,
            l2,
            pass,
            set,
        } = self;
        write!(
            f,
            "hit {hit} miss {miss} past {past} pool {pool} l2 {l2} pass {pass} set {set}"
        )
    }
}
