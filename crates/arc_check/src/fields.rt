//! The fields of a line, taken one after another as numbers, keys, digests and words.
ghost use Rattle.std.specs.Prelude.{◌≡◌, ◌≢◌, ◌<◌, ◌+◌, ◌*◌, ◌^◌, ◌↔◌, [], IsTrue, length};
ghost use Rattle.trace_text.specs.EventText.{failed_word, origin_word, sole_word, told_words, why_word};
ghost use Rattle.arc_check.specs.LogText.{name_text};
ghost use Rattle.arc_check.specs.Reading.{IsToldRead, IsWordRead, TakesBelow, TakesDigest, TakesKey, TakesNumber, TakesTold, TakesWord};

use crate::words::Name;
use arc_core::{FailedAt, Origin, Why};
use blk_ptr::{Digest, Key};
use trace_text::{Parts, digest};

/// The largest number of a log that has no narrower range.
pub(crate) const LARGEST_PLAIN: u64 = 1 << 62;

/// The length of the largest pool.
const LARGEST_POOL: u64 = 1 << 63;

/// Takes the next field, where it is a number from `low` to `high`.
pub(crate) fn next_number(fields: &mut Parts<'_>, low: u64, high: u64) -> Option<u64>
    ensures { TakesNumber low high fields.old fields.new result }
{
    let Some(value) = fields.next_number() else {
        return None;
    };
    if low <= value && value <= high {
        Some(value)
    } else {
        None
    }
}

/// Takes the next field, where it is a number below `limit`.
pub(crate) fn next_below(fields: &mut Parts<'_>, limit: u32) -> Option<u32>
    ensures { TakesBelow limit fields.old fields.new result }
{
    let value = next_number(fields, 0, u64::from(u32::MAX))?;
    if value < u64::from(limit) {
        Some(value as u32)
    } else {
        None
    }
}

/// Takes the next three fields, where they are a key that names a block of the largest pool.
pub(crate) fn next_key(fields: &mut Parts<'_>) -> Option<Key>
    ensures { TakesKey fields.old fields.new result }
{
    let offset = next_number(fields, 0, u64::MAX)?;
    let size = next_number(fields, 0, u64::MAX)?;
    let birth = next_number(fields, 0, u64::MAX)?;
    let key = Key {
        offset,
        size,
        birth,
    };
    match key.check(LARGEST_POOL) {
        Ok(_named) => Some(key),
        Err(_fault) => None,
    }
}

/// Takes the next field, where it is a digest.
pub(crate) fn next_digest(fields: &mut Parts<'_>) -> Option<Digest>
    ensures { TakesDigest fields.old fields.new result }
{
    let field = fields.next()?;
    digest(field)
}

/// A digest, or none where the field is `-`.
fn told(field: &[u8]) -> Option<Option<Digest>>
    ensures { IsToldRead field.now result }
{
    if field == b"-".as_slice() {
        return Some(None);
    }
    let digest = digest(field)?;
    Some(Some(digest))
}

/// Takes the next field, where it is a digest or `-`.
pub(crate) fn next_told(fields: &mut Parts<'_>) -> Option<Option<Digest>>
    ensures { TakesTold fields.old fields.new result }
{
    let field = fields.next()?;
    told(field)
}

/// Where bytes came from.
fn origin_of(field: &[u8]) -> Option<Origin>
    ensures { IsWordRead origin_word field.now result }
{
    match field {
        b"pool" => Some(Origin::Pool),
        b"l2" => Some(Origin::L2),
        _ => None,
    }
}

/// Takes the next field, where it says where bytes came from.
pub(crate) fn next_origin(fields: &mut Parts<'_>) -> Option<Origin>
    ensures { TakesWord origin_word fields.old fields.new result }
{
    let field = fields.next()?;
    origin_of(field)
}

/// Where a read had come when it failed.
fn failed_at_of(field: &[u8]) -> Option<FailedAt>
    ensures { IsWordRead failed_word field.now result }
{
    match field {
        b"unread" => Some(FailedAt::Unread),
        b"pool" => Some(FailedAt::Pool),
        _ => None,
    }
}

/// Takes the next field, where it says where a read had come when it failed.
pub(crate) fn next_failed_at(fields: &mut Parts<'_>) -> Option<FailedAt>
    ensures { TakesWord failed_word fields.old fields.new result }
{
    let field = fields.next()?;
    failed_at_of(field)
}

/// Whether a hold was the only one.
fn sole_of(field: &[u8]) -> Option<bool>
    ensures { IsWordRead sole_word field.now result }
{
    match field {
        b"sole" => Some(true),
        b"shared" => Some(false),
        _ => None,
    }
}

/// Takes the next field, where it says whether a hold was the only one.
pub(crate) fn next_sole(fields: &mut Parts<'_>) -> Option<bool>
    ensures { TakesWord sole_word fields.old fields.new result }
{
    let field = fields.next()?;
    sole_of(field)
}

/// Why a picked key gets no place.
fn why_of(field: &[u8]) -> Option<Why>
    ensures { IsWordRead why_word field.now result }
{
    match field {
        b"gone" => Some(Why::Gone),
        b"device" => Some(Why::Device),
        b"memory" => Some(Why::Memory),
        _ => None,
    }
}

/// Takes the next field, where it says why a picked key gets no place.
pub(crate) fn next_why(fields: &mut Parts<'_>) -> Option<Why>
    ensures { TakesWord why_word fields.old fields.new result }
{
    let field = fields.next()?;
    why_of(field)
}

/// The event that a field names.
pub(crate) fn name_of(field: &[u8]) -> Option<Name>
    ensures { IsWordRead name_text field.now result }
{
    match field {
        b"pass" => Some(Name::Pass),
        b"hit" => Some(Name::Hit),
        b"miss" => Some(Name::Miss),
        b"arrive" => Some(Name::Arrive),
        b"fail" => Some(Name::Fail),
        b"drop" => Some(Name::Drop),
        b"past" => Some(Name::Past),
        b"hand" => Some(Name::Hand),
        b"insert" => Some(Name::Insert),
        b"release" => Some(Name::Release),
        b"pick" => Some(Name::Pick),
        b"feedend" => Some(Name::FeedEnd),
        b"set" => Some(Name::Set),
        b"leave" => Some(Name::Leave),
        b"clear" => Some(Name::Clear),
        b"restore" => Some(Name::Restore),
        b"resize" => Some(Name::Resize),
        _ => None,
    }
}
