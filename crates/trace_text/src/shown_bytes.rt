//! The bytes that a reply shows.
ghost use Rattle.std.specs.Prelude.{◌≡◌, ◌≤◌, ◌<◌, IfOk, OnErr, length, Some};

use blk_ptr::Hex;
use dbuf_state::{MOST_SHOWN, Shown};
use std::alloc::{AllocError, Global};
use std::fmt;
use std::marker::Model;

/// The most bytes that lie in the reply itself.
const MOST_INSIDE: usize = 22;

/// Where the bytes lie.
#[derive(Drop)]
enum Room {
    /// In the reply.
    Inside { len: u8, room: [u8; 22] },
    /// On the heap.
    Heap(Box<Shown>),
}

/// At most [`MOST_SHOWN`] bytes. A few lie in the reply itself, more of them on the heap: a run keeps all its replies. Contracts see the list of
/// them.
#[derive(Drop)]
pub struct ShownBytes {
    room: Room,
}

impl Model for ShownBytes {
    ghost use Rattle.std.specs.Prelude.{ℕ, List};

    ghost Value = { List ℕ };

    ghost use Rattle.trace_text.specs.ShownBytes.{bytes_in, IsFilled};

    ghost view = { λ shown. bytes_in shown.room };

    ghost invariant = { λ shown. IsFilled shown.room };
}

impl ShownBytes {
    /// These bytes. It asks for memory where they are more than lie in a reply.
    pub fn of(alloc: Global, bytes: &[u8]) -> Result<ShownBytes, AllocError>
        requires { length bytes.now ≤ MOST_SHOWN }
        ensures ok { IfOk result (λ shown. shown ≡ bytes.now) }
        ensures err { OnErr result (MOST_INSIDE < length bytes.now) }
    {
        let len = bytes.len();
        if len > MOST_INSIDE {
            let shown = Box::new(alloc, Shown::of(bytes))?;
            return Ok(ShownBytes {
                room: Room::Heap(shown),
            });
        }
        let mut room = [0; MOST_INSIDE];
        room[..len].copy_from_slice(bytes);
        let len = len as u8;
        Ok(ShownBytes {
            room: Room::Inside { len, room },
        })
    }

    /// The bytes.
    pub fn bytes(&self) -> &[u8]
        ensures shown { result.now ≡ self.now }
        ensures few { length result.now ≤ MOST_SHOWN }
    {
        match &self.room {
            Room::Inside { len, room } => &room[..*len as usize],
            Room::Heap(shown) => shown.bytes(),
        }
    }
}

impl fmt::Display for ShownBytes {
    ghost use Rattle.dbuf_state.specs.Windows.{shown_text};

    ghost output = { λ shown. Some (shown_text shown) };

    fn fmt<W: fmt::Write>(&self, f: &mut fmt::Formatter<W>) -> fmt::Result {
        match self.bytes() {
            [] => write!(f, "-"),
            bytes => Hex::new(bytes).fmt(f),
        }
    }
}
