//! Bytes as they are printed.
ghost use Rattle.std.specs.Prelude.{◌≡◌, ◌≤◌, length, Some};
ghost use Rattle.hex.specs.Hex.{encode_lower};

use std::{fmt, str};

/// A few bytes that print as lower-case hexadecimal, two digits a byte.
#[derive(Clone, Copy)]
pub struct Hex<'a> {
    bytes: &'a [u8],
    ghost few: { length bytes.now ≤ 64 },
}

impl<'a> Hex<'a> {
    /// At most 64 bytes, to be printed.
    pub fn new(bytes: &'a [u8]) -> Hex<'a>
        requires { length bytes.now ≤ 64 }
        ensures { result.bytes.now ≡ bytes.entry.now }
    {
        Hex { bytes }
    }
}

impl fmt::Display for Hex<'_> {
    ghost output = { λ hex. Some (encode_lower hex.bytes.now) };

    fn fmt<W: fmt::Write>(&self, f: &mut fmt::Formatter<W>) -> fmt::Result {
        let mut digits = [0u8; 128];
        let digits = &mut digits[..2 * self.bytes.len()];
        let Ok(()) = hex::encode_to_slice(self.bytes, digits) else {
            unreachable!();
        };
        let Ok(text) = str::from_utf8(digits) else {
            unreachable!();
        };
        f.write_str(text)
    }
}
