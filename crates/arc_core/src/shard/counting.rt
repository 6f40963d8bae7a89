//! How many entries a shard has.
ghost use Rattle.std.specs.Prelude.{◌≡◌, length};

use super::Shard;

impl Shard {
    /// How many entries there are.
    pub fn entries(&self) -> usize
        ensures { result ≡ length self.now.now.entries }
    {
        self.table.len()
    }
}
