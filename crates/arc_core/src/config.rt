//! The numbers with which a cache is made, and their ranges.
ghost use Rattle.std.specs.Prelude.{◌↔◌, ◌≤◌, IsTrue};

/// How much one feed of the cache device may take from a shard.
#[derive(Clone, Copy, Debug, PartialEq, Eq)]
pub struct Bounds {
    /// The most bytes that a feed picks, from 512 to 2^32.
    pub write_max: u64,
    /// How many times `write_max` bytes the feed looks at, counted from a sequence's end, from 1 to 64.
    pub headroom: u64,
}

impl Bounds {
    ghost use Rattle.arc_core.specs.Config.{AreBounds};

    /// Whether both numbers are in their ranges.
    pub fn check(&self) -> bool
        ensures { IsTrue result ↔ AreBounds self.now }
    {
        (512..=1 << 32).contains(&self.write_max) && (1..=64).contains(&self.headroom)
    }
}

/// The numbers with which a cache is made.
#[derive(Clone, Copy, Debug, PartialEq, Eq)]
pub struct Config {
    /// Callers, from 1 to 16.
    pub callers: u32,
    /// Shards, from 1 to 16.
    pub shards: u32,
    /// Buckets of each shard, from 1 to 256.
    pub buckets: u32,
    /// Cells of dbufs, from 1 to 16.
    pub cells: u32,
    /// The capacity of each shard in bytes, from 4,096 to 2^32; that of all shards is at most 2^32.
    pub c: u64,
    /// After how many ticks an MRU block that is asked for again becomes MFU, at most 2^32.
    pub mintime: u64,
    /// How many bytes of clean dbufs a cell keeps, at most 2^32.
    pub dbuf_bytes: u64,
    /// The feed's bounds.
    pub bounds: Bounds,
}

impl Config {
    ghost use Rattle.arc_core.specs.Config.{AreCounts, AreAmounts, IsConfig};

    /// Whether every number is in its range.
    pub fn check(&self) -> bool
        ensures { IsTrue result ↔ IsConfig self.now }
    {
        self.has_counts_in_range() && self.has_amounts_in_range() && self.bounds.check()
    }

    // Callers, shards, buckets and cells.
    fn has_counts_in_range(&self) -> bool
        ensures { IsTrue result ↔ AreCounts self.now }
    {
        (1..=16).contains(&self.callers)
            && (1..=16).contains(&self.shards)
            && (1..=256).contains(&self.buckets)
            && (1..=16).contains(&self.cells)
    }

    // Bytes and ticks.
    fn has_amounts_in_range(&self) -> bool
        requires { self.now.shards ≤ 16 }
        ensures { IsTrue result ↔ AreAmounts self.now }
    {
        (4096..=1 << 32).contains(&self.c)
            && u64::from(self.shards) * self.c <= 1 << 32
            && self.mintime <= 1 << 32
            && self.dbuf_bytes <= 1 << 32
    }
}
