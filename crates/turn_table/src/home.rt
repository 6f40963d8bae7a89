//! Where the word and the slot of a turn lie. Parties with neighbouring turns would write to one line of the processor's cache by turns, so
//! turns side by side lie 16 places apart.
ghost use Rattle.std.specs.Prelude.{◌≡◌, ℕ, ◌^◌, ◌<◌};
ghost use Rattle.turn_table.specs.Homes.{home, room};

// The place of a turn: of its number's digits to the base 16 the last two change places. So the turn at a place is found in the same way.
pub(crate) fn home(turn: usize) -> usize
    ensures { result ≡ home turn }
{
    turn / 256 * 256 + turn % 16 * 16 + turn / 16 % 16
}

// How many places there are for so many turns: whole blocks of 256.
pub(crate) fn room(turns: usize) -> usize
    requires { turns < 2 ^ 32 }
    ensures { result ≡ room turns }
{
    (turns + 255) / 256 * 256
}
