//! An event as numbers, of which all have the same: the form in which a history keeps it.
ghost use Rattle.std.specs.Prelude.{◌≡◌};
ghost use Rattle.arc_core.specs.Packed.{narrow, no_digest, origin_number, origin_of, fault_number, fault_of, reason_number, reason_of, plain_event, later_event, event_of, packed_of, IsPackable};

mod bytes;

use crate::event::{Event, FailedAt, Origin, Why};
use blk_ptr::{Digest, Key};
pub(crate) use bytes::{LONGEST_EVENT, take_packed, write_packed};

/// The kind of an event and its fields, where a field that it doesn't have is zero. The first four kinds have a digest.
#[derive(Clone, Copy, Debug)]
pub(crate) struct Packed {
    pub(crate) kind: u64,
    pub(crate) n: u64,
    pub(crate) key: Key,
    /// The tick, the place, the capacity, another number, or which of a few cases.
    pub(crate) extra: u64,
    pub(crate) digest: Digest,
}

const NO_DIGEST: Digest = Digest([0; 32]);

const NO_KEY: Key = Key {
    offset: 0,
    size: 0,
    birth: 0,
};

// A number of 32 bits.
fn narrow(x: u64) -> u32
    ensures { result ≡ narrow x }
{
    if x < 1 << 32 { x as u32 } else { 0 }
}

fn origin_number(from: Origin) -> u64
    ensures { result ≡ origin_number from }
{
    match from {
        Origin::Pool => 0,
        Origin::L2 => 1,
    }
}

fn origin_of(x: u64) -> Origin
    ensures { result ≡ origin_of x }
{
    if x == 0 { Origin::Pool } else { Origin::L2 }
}

fn fault_number(at: FailedAt) -> u64
    ensures { result ≡ fault_number at }
{
    match at {
        FailedAt::Unread => 0,
        FailedAt::Pool => 1,
    }
}

fn fault_of(x: u64) -> FailedAt
    ensures { result ≡ fault_of x }
{
    if x == 0 {
        FailedAt::Unread
    } else {
        FailedAt::Pool
    }
}

fn reason_number(why: Why) -> u64
    ensures { result ≡ reason_number why }
{
    match why {
        Why::Gone => 0,
        Why::Device => 1,
        Why::Memory => 2,
    }
}

fn reason_of(x: u64) -> Why
    ensures { result ≡ reason_of x }
{
    if x == 0 {
        Why::Gone
    } else if x == 1 {
        Why::Device
    } else {
        Why::Memory
    }
}

// The numbers of an event with a digest.
fn with_digest(kind: u64, n: u32, key: Key, extra: u64, digest: Digest) -> Packed
    ensures { result ≡ record { kind = kind; n = n; key = key; extra = extra; digest = digest } }
{
    Packed {
        kind,
        n: u64::from(n),
        key,
        extra,
        digest,
    }
}

// The numbers of an event without one.
fn plain(kind: u64, n: u32, key: Key, extra: u64) -> Packed
    ensures { result ≡ record { kind = kind; n = n; key = key; extra = extra; digest = no_digest } }
{
    with_digest(kind, n, key, extra, NO_DIGEST)
}

// The event of one of the later kinds.
fn later_event(kind: u64, n: u32, key: Key, extra: u64) -> Event
    ensures { result ≡ later_event kind n key extra }
{
    match kind {
        11 => Event::Release {
            n,
            key,
            sole: extra == 1,
        },
        12 => Event::Pick { n, key },
        13 => Event::FeedEnd { n },
        14 => Event::Set {
            n,
            key,
            place: extra,
        },
        15 => Event::Leave {
            n,
            key,
            why: reason_of(extra),
        },
        16 => Event::Clear { n, key },
        _ => Event::Resize { n, c: extra },
    }
}

// The event of a kind that has no digest.
fn plain_event(kind: u64, n: u32, key: Key, extra: u64) -> Event
    ensures { result ≡ plain_event kind n key extra }
{
    match kind {
        4 => Event::Restore {
            n,
            key,
            place: extra,
            digest: None,
        },
        5 => Event::Pass {
            n,
            key,
            owner: narrow(extra),
        },
        6 => Event::Hit { n, key, t: extra },
        7 => Event::Miss { n, key, t: extra },
        8 => Event::Fail {
            n,
            key,
            at: fault_of(extra),
        },
        9 => Event::Drop { n, key },
        10 => Event::Hand {
            n,
            key,
            to: narrow(extra),
        },
        _ => later_event(kind, n, key, extra),
    }
}

impl Packed {
    /// The numbers of an event.
    pub(crate) fn of(event: Event) -> Packed
        ensures numbers { result ≡ packed_of event }
        ensures back { IsPackable event }
    {
        match event {
            Event::Arrive {
                n,
                key,
                digest,
                from,
            } => with_digest(0, n, key, origin_number(from), digest),
            Event::Past { n, key, kept } => with_digest(1, n, key, 0, kept),
            Event::Insert { n, key, digest, t } => with_digest(2, n, key, t, digest),
            Event::Restore {
                n,
                key,
                place,
                digest,
            } => match digest {
                Some(digest) => with_digest(3, n, key, place, digest),
                None => plain(4, n, key, place),
            },
            Event::Pass { n, key, owner } => plain(5, n, key, u64::from(owner)),
            Event::Hit { n, key, t } => plain(6, n, key, t),
            Event::Miss { n, key, t } => plain(7, n, key, t),
            Event::Fail { n, key, at } => plain(8, n, key, fault_number(at)),
            Event::Drop { n, key } => plain(9, n, key, 0),
            Event::Hand { n, key, to } => plain(10, n, key, u64::from(to)),
            Event::Release { n, key, sole } => plain(11, n, key, u64::from(sole)),
            Event::Pick { n, key } => plain(12, n, key, 0),
            Event::FeedEnd { n } => plain(13, n, NO_KEY, 0),
            Event::Set { n, key, place } => plain(14, n, key, place),
            Event::Leave { n, key, why } => plain(15, n, key, reason_number(why)),
            Event::Clear { n, key } => plain(16, n, key, 0),
            Event::Resize { n, c } => plain(17, n, NO_KEY, c),
        }
    }

    /// The event of these numbers.
    pub(crate) fn event(&self) -> Event
        ensures { result ≡ event_of self.now }
    {
        let n = narrow(self.n);
        let (key, extra, digest) = (self.key, self.extra, self.digest);
        match self.kind {
            0 => Event::Arrive {
                n,
                key,
                digest,
                from: origin_of(extra),
            },
            1 => Event::Past {
                n,
                key,
                kept: digest,
            },
            2 => Event::Insert {
                n,
                key,
                digest,
                t: extra,
            },
            3 => Event::Restore {
                n,
                key,
                place: extra,
                digest: Some(digest),
            },
            kind => plain_event(kind, n, key, extra),
        }
    }
}
