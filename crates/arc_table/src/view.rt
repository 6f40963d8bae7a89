//! What a party knows of the cache. These are plain data for the proofs, and no value of them is made.
use crate::about::About;
use crate::item::Item;
use arc_core::{Event, Picked};
use blk_ptr::{Key, Ptr};
use std::collections::LinkedList;

/// A lost try.
pub struct Note {
    /// The turn that was tried.
    pub turn: u64,
    /// The party that had it.
    pub owner: u64,
    /// Where this party held a shard then: the shard's turn, and the length that its history had when it was taken.
    pub under: Option<(u64, u64)>,
}

/// An event or an entry that the party made, by where it stands.
pub struct Mine {
    /// The turn of the history.
    pub turn: u64,
    /// Its place in that history, from 0 on.
    pub place: u64,
    /// For a pass, the place of its note in the party's list of notes.
    pub note: Option<u64>,
}

/// One line of a history: an event of a shard, or an entry of a cell.
pub enum Line {
    /// An event of a shard.
    Event(Event),
    /// An entry of a cell, as numbers that its layer chooses.
    Entry(LinkedList<u64>),
}

/// What a party has begun and not ended.
pub struct Ledger {
    /// Its holds, each with the pointer of its block.
    pub holds: LinkedList<Ptr>,
    /// The keys that it reads.
    pub readings: LinkedList<Key>,
    /// For the turn of each shard, what it picked there. Only the feeder's has any.
    pub picked: LinkedList<(u64, LinkedList<Picked>)>,
    /// For the turn of each cell, what it claims of that.
    pub claims: LinkedList<(u64, LinkedList<u64>)>,
}

/// What a party knows.
pub struct Known<C> {
    /// The party's number.
    pub number: u64,
    /// What is settled about the cache.
    pub about: About,
    /// The turns that it holds, each with the value that counts for it while it is out.
    pub records: LinkedList<(u64, Item<C>)>,
    /// The cells that it holds, each with the holds that it keeps.
    pub listed: LinkedList<(u64, LinkedList<Ptr>)>,
    /// By turn, what it has seen of each history: a beginning.
    pub seen: LinkedList<LinkedList<Line>>,
    /// Its own lines, in the order in which it made them.
    pub mine: LinkedList<Mine>,
    /// What it has begun.
    pub ledger: Ledger,
    /// Its lost tries.
    pub notes: LinkedList<Note>,
}
