//! Taking numbers and bytes off the front of a list. Where a list is too short, zeros are taken and nothing is left.
ghost use Rattle.std.specs.Prelude.{◌≡◌};
ghost use Rattle.std.specs.Int.{w16, w32, w64};
ghost use Rattle.varint.specs.Number.{taken_bytes, taken_number, taken_word};

// The number in the first two bytes.
fn take_16(bytes: &[u8]) -> (u64, &[u8])
    ensures number { result.0 ≡ (taken_word w16 2 bytes.now).0 }
    ensures rest { result.1.now ≡ (taken_word w16 2 bytes.now).1 }
{
    match bytes.split_first_chunk::<2>() {
        Some((word, rest)) => (u64::from(u16::from_le_bytes(*word)), rest),
        None => (0, &[]),
    }
}

// The number in the first four bytes.
fn take_32(bytes: &[u8]) -> (u64, &[u8])
    ensures number { result.0 ≡ (taken_word w32 4 bytes.now).0 }
    ensures rest { result.1.now ≡ (taken_word w32 4 bytes.now).1 }
{
    match bytes.split_first_chunk::<4>() {
        Some((word, rest)) => (u64::from(u32::from_le_bytes(*word)), rest),
        None => (0, &[]),
    }
}

// The number in the first eight bytes.
fn take_64(bytes: &[u8]) -> (u64, &[u8])
    ensures number { result.0 ≡ (taken_word w64 8 bytes.now).0 }
    ensures rest { result.1.now ≡ (taken_word w64 8 bytes.now).1 }
{
    match bytes.split_first_chunk::<8>() {
        Some((word, rest)) => (u64::from_le_bytes(*word), rest),
        None => (0, &[]),
    }
}

/// The number that the bytes begin with, and what is left behind it.
#[inline(always)]
pub fn take_number(bytes: &[u8]) -> (u64, &[u8])
    ensures number { result.0 ≡ (taken_number bytes.now).0 }
    ensures rest { result.1.now ≡ (taken_number bytes.now).1 }
{
    match bytes.split_first() {
        Some((first, rest)) => {
            if *first < 251 {
                (u64::from(*first), rest)
            } else if *first == 251 {
                take_16(rest)
            } else if *first == 252 {
                take_32(rest)
            } else {
                take_64(rest)
            }
        }
        None => (0, &[]),
    }
}

/// The first 32 bytes, and what is left behind them.
#[inline(always)]
pub fn take_bytes(bytes: &[u8]) -> ([u8; 32], &[u8])
    ensures bytes { result.0 ≡ (taken_bytes bytes.now).0 }
    ensures rest { result.1.now ≡ (taken_bytes bytes.now).1 }
{
    match bytes.split_first_chunk::<32>() {
        Some((run, rest)) => (*run, rest),
        None => ([0; 32], &[]),
    }
}
