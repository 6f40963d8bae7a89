//! Appending numbers and bytes to a list that has room for them.
ghost use Rattle.std.specs.Prelude.{◌≡◌, ◌+◌, ◌≤◌, ◌<◌, ◌++◌, ◌∷◌, length, vec_len, vec_capacity};
ghost use Rattle.varint.specs.Number.{number_bytes};

/// The most bytes that a number takes.
pub const LONGEST_NUMBER: usize = 9;

/// Appends these bytes, for which there is room.
#[inline(always)]
pub fn write_bytes(out: &mut Vec<u8>, bytes: &[u8])
    requires { vec_len out.old + length bytes.now ≤ vec_capacity out.old }
    ensures items { out.new.items ≡ out.old.items ++ bytes.now }
    ensures len { vec_len out.new ≡ vec_len out.old + length bytes.now }
    ensures capacity { vec_capacity out.new ≡ vec_capacity out.old }
{
    for byte in bytes {
        out.push_reserved(*byte);
    }
}

// Appends a byte that says how many follow, and these.
#[inline(always)]
fn write_long(out: &mut Vec<u8>, mark: u8, bytes: &[u8])
    requires { vec_len out.old + length bytes.now < vec_capacity out.old }
    ensures items { out.new.items ≡ out.old.items ++ mark ∷ bytes.now }
    ensures len { vec_len out.new ≡ vec_len out.old + 1 + length bytes.now }
    ensures capacity { vec_capacity out.new ≡ vec_capacity out.old }
{
    out.push_reserved(mark);
    write_bytes(out, bytes);
}

/// Appends a number. There is room for the longest.
#[inline(always)]
pub fn write_number(out: &mut Vec<u8>, n: u64)
    requires { vec_len out.old + LONGEST_NUMBER ≤ vec_capacity out.old }
    ensures items { out.new.items ≡ out.old.items ++ number_bytes n }
    ensures len { vec_len out.new ≤ vec_len out.old + LONGEST_NUMBER }
    ensures capacity { vec_capacity out.new ≡ vec_capacity out.old }
{
    if n < 251 {
        out.push_reserved(n as u8);
    } else if n < 1 << 16 {
        write_long(out, 251, &(n as u16).to_le_bytes());
    } else if n < 1 << 32 {
        write_long(out, 252, &(n as u32).to_le_bytes());
    } else {
        write_long(out, 253, &n.to_le_bytes());
    }
}
