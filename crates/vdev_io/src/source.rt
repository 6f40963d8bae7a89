ghost use Rattle.std.specs.Prelude.{ℕ, List, Option};
ghost use Rattle.std.specs.Io.{ReadsAtMost};
ghost use Rattle.std.specs.Io.KnownBytes.{ReadConsumes};
ghost use Rattle.vdev_io.specs.Faults.{CountsFault, HasCause};

use crate::fault::Failed;

/// Where bytes come from, in order.
pub trait Source {
    /// The bytes that are left, where they are told.
    ghost left: { Self → Option (List ℕ) };

    /// How many calls failed. It never falls.
    ghost faults: { Self → ℕ };

    /// Moves the next bytes to the front of `buf`, and answers how many they are. None for a `buf` with room
    /// is the end. After [`Failed`] the bytes that are left are those that were left.
    /// It counts as one fault where it fails, and as none where it doesn't.
    fn read(&mut self, buf: &mut [u8]) -> Result<usize, Failed>
        ensures bound { ReadsAtMost result buf.new }
        ensures bytes { ReadConsumes (left self.old) (left self.new) result buf.new }
        ensures cause { HasCause (faults self.old) (faults self.new) result }
        ensures fault { CountsFault (faults self.old) (faults self.new) result };
}
