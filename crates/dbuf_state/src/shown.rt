//! The bytes that a read shows.
ghost use Rattle.std.specs.Prelude.{◌≡◌, ◌≤◌, ℕ, List, [], take, length, Some};

use blk_ptr::Hex;
use std::fmt;
use std::marker::Model;

/// The most bytes that a window shows.
pub const MOST_SHOWN: usize = 64;

/// At most [`MOST_SHOWN`] bytes of a block. Contracts see the list of them.
#[derive(Debug, Drop)]
pub struct Shown {
    room: [u8; 64],
    len: usize,
}

impl Model for Shown {
    ghost Value = { List ℕ };

    ghost view = { λ shown. take shown.len shown.room };

    ghost invariant = { λ shown. shown.len ≤ 64 };
}

impl Shown {
    /// These bytes.
    pub fn of(bytes: &[u8]) -> Shown
        requires { length bytes.now ≤ MOST_SHOWN }
        ensures { result ≡ bytes.now }
    {
        let mut room = [0; MOST_SHOWN];
        let len = bytes.len();
        room[..len].copy_from_slice(bytes);
        Shown { room, len }
    }

    /// The bytes.
    pub fn bytes(&self) -> &[u8]
        ensures shown { result.now ≡ self.now }
        ensures few { length result.now ≤ MOST_SHOWN }
    {
        &self.room[..self.len]
    }
}

impl fmt::Display for Shown {
    ghost use Rattle.dbuf_state.specs.Windows.{shown_text};

    ghost output = { λ shown. Some (shown_text shown) };

    fn fmt<W: fmt::Write>(&self, f: &mut fmt::Formatter<W>) -> fmt::Result {
        match self.bytes() {
            [] => write!(f, "-"),
            bytes => Hex::new(bytes).fmt(f),
        }
    }
}
