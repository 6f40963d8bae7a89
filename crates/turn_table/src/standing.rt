//! What the table's rule knows of each token. No value of these types is made.
use std::collections::LinkedList;

/// A party that another one has joined: its number, what it knows, and how many of the parties that follow in the list are its own by a join.
pub struct Kept<W> {
    pub number: u64,
    pub view: W,
    pub count: u64,
}

/// What stands behind a token: the number of all parties, the token's number, what it knows, the parties that it keeps by a join, the last first, and the turns that it holds, the last first.
pub struct Standing<W> {
    pub live: bool,
    pub parties: u64,
    pub number: u64,
    pub own: W,
    pub joined: LinkedList<Kept<W>>,
    pub held: LinkedList<u64>,
}
