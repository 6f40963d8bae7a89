//! The fields of a line, taken one after another as numbers in their ranges.
ghost use Rattle.std.specs.Prelude.{◌≡◌, ◌≢◌, ◌<◌, ◌+◌, ◌*◌, ◌^◌, ◌↔◌, [], IsTrue, OnErr, OnOk, length};
ghost use Rattle.std.specs.Char.{digit_value};
ghost use Rattle.std.specs.Option.{SomeIff};
ghost use Rattle.std.specs.Str.Parse.{AllDigits, digits_value};
ghost use Rattle.trace_text.specs.Reading.{BeginsAsNumber, IsByteRead, IsDigestRead, IsFillRead, IsHexRead, IsNumberRead, IsRoomFilled, IsRunRead, IsWordRead, TakesBelow, TakesByte, TakesDigest, TakesNumber, TakesOid, TakesRun, TakesSize};

use crate::fault::Kind;
use crate::parts::Parts;
use crate::words::Word;
use blk_ptr::{Digest, LARGEST_BLOCK, SECTOR};
use dbuf_state::{MOST_SHOWN, Oid, Shown};

/// The largest number of a trace that has no narrower range.
pub(crate) const LARGEST_PLAIN: u64 = 1 << 62;

/// The word that a field spells.
pub(crate) fn word_of(field: &[u8]) -> Option<Word>
    ensures { IsWordRead field.now result }
{
    match field {
        b"arc" => Some(Word::Arc),
        b"l2" => Some(Word::L2),
        b"block" => Some(Word::Block),
        b"object" => Some(Word::Object),
        b"read" => Some(Word::Read),
        b"hold" => Some(Word::Hold),
        b"drop" => Some(Word::Drop),
        b"get" => Some(Word::Get),
        b"put" => Some(Word::Put),
        b"patch" => Some(Word::Patch),
        b"pin" => Some(Word::Pin),
        b"unpin" => Some(Word::Unpin),
        b"feed" => Some(Word::Feed),
        b"txg" => Some(Word::Txg),
        b"cap" => Some(Word::Cap),
        _ => None,
    }
}

/// Whether the field begins as a number may: with no plus sign, and with no zero before another digit.
pub(crate) fn begins_as_number(field: &[u8]) -> bool
    ensures { IsTrue result ↔ BeginsAsNumber field.now }
{
    match field.len() {
        0 => false,
        1 => field[0] != b'+',
        _ => field[0] != b'+' && field[0] != b'0',
    }
}

/// The number that is written by one digit more, where the byte is a digit and the number is below 2^64.
pub(crate) fn with_digit(value: u64, byte: u8) -> Option<u64>
    ensures { SomeIff result ((digit_value byte < 10) × (value * 10 + digit_value byte < 2 ^ 64)) (value * 10 + digit_value byte) }
{
    let digit = (byte as char).to_digit(10)?;
    value.checked_mul(10)?.checked_add(u64::from(digit))
}

/// The number below 2^64 that a field of decimal digits writes. `str::parse` would go over the field once more, to see that it is UTF-8.
fn digits_value(field: &[u8]) -> Option<u64>
    ensures { SomeIff result (AllDigits 10 field.now × (digits_value 10 field.now < 2 ^ 64)) (digits_value 10 field.now) }
{
    let mut value = 0;
    for place in 0..field.len() {
        let Some(next) = with_digit(value, field[place]) else {
            return None;
        };
        value = next;
    }
    Some(value)
}

/// The number that a field spells in decimal, with no sign and no leading zero, where it is from `low` to `high`. The words of the
/// command line are read so too.
pub fn number(field: &[u8], low: u64, high: u64) -> Option<u64>
    ensures { IsNumberRead low high field.now result }
{
    if !begins_as_number(field) {
        return None;
    }
    let Some(value) = digits_value(field) else {
        return None;
    };
    if low <= value && value <= high {
        Some(value)
    } else {
        None
    }
}

/// The value of a lower-case hex digit.
fn hex_value(digit: u8) -> Option<u8>
    ensures { IsHexRead digit result }
{
    match digit {
        b'0'..=b'9' => Some(digit - b'0'),
        b'a'..=b'f' => Some(digit - b'a' + 10),
        _ => None,
    }
}

/// The byte that two lower-case hex digits spell.
fn byte_spelled(high: u8, low: u8) -> Option<u8>
    ensures { IsByteRead high low result }
{
    let high = hex_value(high)?;
    let low = hex_value(low)?;
    Some(high * 16 + low)
}

/// The digest that a field spells by 64 lower-case hex digits. `from_hex` takes upper case too, so what it gives would be spelled once
/// more to be compared.
pub fn digest(field: &[u8]) -> Option<Digest>
    ensures { IsDigestRead field.now result }
{
    if field.len() != 64 {
        return None;
    }
    let mut bytes = [0u8; 32];
    for place in 0..32 {
        let Some(byte) = byte_spelled(field[2 * place], field[2 * place + 1]) else {
            return None;
        };
        bytes[place] = byte;
    }
    Some(Digest(bytes))
}

/// Takes the next field, where it is a number from `low` to `high`.
pub(crate) fn next_number(fields: &mut Parts<'_>, low: u64, high: u64) -> Result<u64, Kind>
    ensures { TakesNumber low high fields.old fields.new result }
{
    let Some(value) = fields.next_number() else {
        return Err(Kind::Number);
    };
    if low <= value && value <= high {
        Ok(value)
    } else {
        Err(Kind::Number)
    }
}

/// Takes the next field, where it is a digest.
pub(crate) fn next_digest(fields: &mut Parts<'_>) -> Result<Digest, Kind>
    ensures { TakesDigest fields.old fields.new result }
{
    let field = fields.next().ok_or(Kind::Number)?;
    digest(field).ok_or(Kind::Number)
}

/// The bytes that a field spells by lower-case hex digits, two for each, where there is just the room for them.
fn spell_into(field: &[u8], room: &mut [u8]) -> bool
    requires { length field.now ≡ 2 * length room.old }
    ensures { IsRoomFilled field.now (length room.old) room.new result }
{
    for place in 0..room.len() {
        let Some(byte) = byte_spelled(field[2 * place], field[2 * place + 1]) else {
            return false;
        };
        room[place] = byte;
    }
    true
}

/// From 1 to 64 bytes that a field spells by lower-case hex digits, two for each.
fn run(field: &[u8]) -> Option<Shown>
    ensures { IsRunRead field.now result }
{
    if field.len() % 2 != 0 {
        return None;
    }
    let len = field.len() / 2;
    if len == 0 {
        return None;
    }
    if len > MOST_SHOWN {
        return None;
    }
    let mut room = [0u8; MOST_SHOWN];
    if spell_into(field, &mut room[..len]) {
        Some(Shown::of(&room[..len]))
    } else {
        None
    }
}

/// The byte that a field spells by two lower-case hex digits.
fn byte(field: &[u8]) -> Option<u8>
    ensures { IsFillRead field.now result }
{
    if field.len() != 2 {
        return None;
    }
    byte_spelled(field[0], field[1])
}

/// Takes the next field, where it is a run of bytes.
pub(crate) fn next_run(fields: &mut Parts<'_>) -> Result<Shown, Kind>
    ensures { TakesRun fields.old fields.new result }
{
    let field = fields.next().ok_or(Kind::Number)?;
    run(field).ok_or(Kind::Number)
}

/// Takes the next field, where it is a byte.
pub(crate) fn next_byte(fields: &mut Parts<'_>) -> Result<u8, Kind>
    ensures { TakesByte fields.old fields.new result }
{
    let field = fields.next().ok_or(Kind::Number)?;
    byte(field).ok_or(Kind::Number)
}

/// Takes the next two fields, where they are an object and a block of it.
pub(crate) fn next_oid(fields: &mut Parts<'_>) -> Result<Oid, Kind>
    ensures { TakesOid fields.old fields.new result }
{
    let object = next_number(fields, 0, LARGEST_PLAIN)?;
    let block = next_number(fields, 0, LARGEST_PLAIN)?;
    Ok(Oid { object, block })
}

/// Takes the next field, where it is a size that a block may have.
pub(crate) fn next_size(fields: &mut Parts<'_>) -> Result<u32, Kind>
    ensures { TakesSize fields.old fields.new result }
{
    let size = next_number(fields, SECTOR, LARGEST_BLOCK)?;
    if size % SECTOR == 0 {
        Ok(size as u32)
    } else {
        Err(Kind::Number)
    }
}

/// Takes the next field, where it is a number below `limit`.
pub(crate) fn next_below(fields: &mut Parts<'_>, limit: u32) -> Result<u32, Kind>
    ensures { TakesBelow limit fields.old fields.new result }
{
    let value = next_number(fields, 0, u64::from(u32::MAX))?;
    if value < u64::from(limit) {
        Ok(value as u32)
    } else {
        Err(Kind::Number)
    }
}

/// Sees that no field is left.
pub(crate) fn no_more(fields: &mut Parts<'_>) -> Result<(), Kind>
    ensures ok { OnOk result (fields.old ≡ []) }
    ensures err { OnErr result (fields.old ≢ []) }
{
    match fields.next() {
        Some(_left) => Err(Kind::Shape),
        None => Ok(()),
    }
}
