//! What the fields of an event's line say behind the event's name: who made it, its key, and what else it tells.
ghost use Rattle.std.specs.Prelude.{◌≢◌, ℕ};
ghost use Rattle.arc_check.specs.Reading.{IsEventRead, IsTailRead};
ghost use Rattle.arc_check.specs.declared.words.Name.TheVariants as names;

use crate::fields::{
    LARGEST_PLAIN, next_below, next_digest, next_failed_at, next_key, next_number, next_origin,
    next_sole, next_told, next_why,
};
use crate::words::Name;
use arc_core::Event;
use blk_ptr::Key;
use trace_text::Parts;

/// What the fields after the name of an event say, where there are so many parties.
pub(crate) fn event_after(parties: u32, name: Name, fields: &mut Parts<'_>) -> Option<Event>
    ensures { IsEventRead parties name fields.old fields.new result }
{
    let n = next_below(fields, parties)?;
    match name {
        Name::FeedEnd => Some(Event::FeedEnd { n }),
        Name::Resize => {
            let c = next_number(fields, 0, LARGEST_PLAIN)?;
            Some(Event::Resize { n, c })
        }
        _ => {
            let key = next_key(fields)?;
            tail(parties, name, n, key, fields)
        }
    }
}

/// What the fields after an event's key say.
fn tail(parties: u32, name: Name, n: u32, key: Key, fields: &mut Parts<'_>) -> Option<Event>
    requires not_end { name ≢ names.FeedEnd }
    requires not_resize { name ≢ names.Resize }
    ensures { IsTailRead parties name n key fields.old fields.new result }
{
    match name {
        Name::Pass => pass(parties, n, key, fields),
        Name::Hit => hit(n, key, fields),
        Name::Miss => miss(n, key, fields),
        Name::Arrive => arrive(n, key, fields),
        Name::Fail => fail(n, key, fields),
        Name::Drop => Some(Event::Drop { n, key }),
        Name::Past => past(n, key, fields),
        Name::Hand => hand(parties, n, key, fields),
        Name::Insert => insert(n, key, fields),
        Name::Release => release(n, key, fields),
        Name::Pick => Some(Event::Pick { n, key }),
        Name::FeedEnd => unreachable!(),
        Name::Set => set(n, key, fields),
        Name::Leave => leave(n, key, fields),
        Name::Clear => Some(Event::Clear { n, key }),
        Name::Restore => restore(n, key, fields),
        Name::Resize => unreachable!(),
    }
}

/// A key that a scan passed: the owner of its bucket.
fn pass(parties: u32, n: u32, key: Key, fields: &mut Parts<'_>) -> Option<Event>
    ensures { IsTailRead parties names.Pass n key fields.old fields.new result }
{
    let owner = next_below(fields, parties)?;
    Some(Event::Pass { n, key, owner })
}

/// A hit: its tick.
fn hit(n: u32, key: Key, fields: &mut Parts<'_>) -> Option<Event>
    ensures { (parties : ℕ) → IsTailRead parties names.Hit n key fields.old fields.new result }
{
    let t = next_number(fields, 0, LARGEST_PLAIN)?;
    Some(Event::Hit { n, key, t })
}

/// A miss: its tick.
fn miss(n: u32, key: Key, fields: &mut Parts<'_>) -> Option<Event>
    ensures { (parties : ℕ) → IsTailRead parties names.Miss n key fields.old fields.new result }
{
    let t = next_number(fields, 0, LARGEST_PLAIN)?;
    Some(Event::Miss { n, key, t })
}

/// The end of a read: the digest of its bytes, and where they came from.
fn arrive(n: u32, key: Key, fields: &mut Parts<'_>) -> Option<Event>
    ensures { (parties : ℕ) → IsTailRead parties names.Arrive n key fields.old fields.new result }
{
    let digest = next_digest(fields)?;
    let from = next_origin(fields)?;
    Some(Event::Arrive {
        n,
        key,
        digest,
        from,
    })
}

/// A read that failed: where it had come.
fn fail(n: u32, key: Key, fields: &mut Parts<'_>) -> Option<Event>
    ensures { (parties : ℕ) → IsTailRead parties names.Fail n key fields.old fields.new result }
{
    let at = next_failed_at(fields)?;
    Some(Event::Fail { n, key, at })
}

/// A read past the cache: the digest of what the cache keeps.
fn past(n: u32, key: Key, fields: &mut Parts<'_>) -> Option<Event>
    ensures { (parties : ℕ) → IsTailRead parties names.Past n key fields.old fields.new result }
{
    let kept = next_digest(fields)?;
    Some(Event::Past { n, key, kept })
}

/// A hold that is handed on: to which cell.
fn hand(parties: u32, n: u32, key: Key, fields: &mut Parts<'_>) -> Option<Event>
    ensures { IsTailRead parties names.Hand n key fields.old fields.new result }
{
    let to = next_below(fields, parties)?;
    Some(Event::Hand { n, key, to })
}

/// A block that is put in: its digest and its tick.
fn insert(n: u32, key: Key, fields: &mut Parts<'_>) -> Option<Event>
    ensures { (parties : ℕ) → IsTailRead parties names.Insert n key fields.old fields.new result }
{
    let digest = next_digest(fields)?;
    let t = next_number(fields, 0, LARGEST_PLAIN)?;
    Some(Event::Insert { n, key, digest, t })
}

/// A hold that is given back with a copy kept: whether it was the only one.
fn release(n: u32, key: Key, fields: &mut Parts<'_>) -> Option<Event>
    ensures { (parties : ℕ) → IsTailRead parties names.Release n key fields.old fields.new result }
{
    let sole = next_sole(fields)?;
    Some(Event::Release { n, key, sole })
}

/// A place on the cache device.
fn set(n: u32, key: Key, fields: &mut Parts<'_>) -> Option<Event>
    ensures { (parties : ℕ) → IsTailRead parties names.Set n key fields.old fields.new result }
{
    let place = next_number(fields, 0, LARGEST_PLAIN)?;
    Some(Event::Set { n, key, place })
}

/// A picked key that gets no place: why.
fn leave(n: u32, key: Key, fields: &mut Parts<'_>) -> Option<Event>
    ensures { (parties : ℕ) → IsTailRead parties names.Leave n key fields.old fields.new result }
{
    let why = next_why(fields)?;
    Some(Event::Leave { n, key, why })
}

/// A place of an earlier run, and the digest that the device tells.
fn restore(n: u32, key: Key, fields: &mut Parts<'_>) -> Option<Event>
    ensures { (parties : ℕ) → IsTailRead parties names.Restore n key fields.old fields.new result }
{
    let place = next_number(fields, 0, LARGEST_PLAIN)?;
    let digest = next_told(fields)?;
    Some(Event::Restore {
        n,
        key,
        place,
        digest,
    })
}
