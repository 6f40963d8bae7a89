//! The four sequences, each a linked list with the newest key first.
ghost use Rattle.std.specs.Prelude.{◌≡◌, ◌≢◌, ℕ, ◌+◌, ◌<◌, ◌≤◌, Bool, IfNone, IfSome, IsSome, OnOk, Some};
ghost use Rattle.blk_ptr.specs.declared.key.Key.{Key};
ghost use Rattle.blk_ptr.specs.declared.state.State.{State};
ghost use Rattle.arc_links.specs.PlainLinks.{AreApart, element_at, elements, in_front};
ghost use Rattle.arc_lists.specs.LastKeys.{IsAheadIn, last_key};
ghost use Rattle.arc_lists.specs.Sequences.{oldest_unskipped};
ghost use Rattle.arc_lists.specs.Walks.{first_of, oldest_first};

use arc_links::Links;
use blk_ptr::{Key, NoMemory, State};
use std::alloc::Global;

/// The four sequences.
#[derive(Debug, Drop)]
pub struct Queues {
    /// Blocks that were read once (`arc_mru`).
    pub mru: Links<Key>,
    /// Their ghosts (`arc_mru_ghost`).
    pub mru_ghost: Links<Key>,
    /// Blocks that were asked for again (`arc_mfu`).
    pub mfu: Links<Key>,
    /// Their ghosts (`arc_mfu_ghost`).
    pub mfu_ghost: Links<Key>,
}

// Makes room for `n` keys more than there was.
fn widen(sequence: &mut Links<Key>, n: usize) -> Result<(), NoMemory>
    ensures nodes { sequence.new.nodes ≡ sequence.old.nodes }
    ensures ok { OnOk result (sequence.old.spare + n ≤ sequence.new.spare) }
    ensures spare { sequence.old.spare ≤ sequence.new.spare }
{
    let all = sequence.spare().checked_add(n).ok_or(NoMemory)?;
    if sequence.reserve(all).is_err() {
        return Err(NoMemory);
    }
    Ok(())
}

// The last key of a sequence.
fn last_of(sequence: &Links<Key>) -> Option<Key>
    requires { AreApart sequence.now.nodes }
    ensures { result ≡ last_key sequence.now.nodes }
{
    let last = sequence.last()?;
    Some(sequence.key_at(last))
}

// The key in front of the node at a place, toward the head.
fn key_ahead(sequence: &Links<Key>, at: usize) -> Option<Key>
    requires there { IsSome (element_at at sequence.now.nodes) }
    requires apart { AreApart sequence.now.nodes }
    ensures { result ≡ last_key (in_front at sequence.now.nodes) }
{
    let ahead = sequence.toward_head(at)?;
    Some(sequence.key_at(ahead))
}

// The key in front of this one, where it is the last of a sequence.
fn ahead_of_last(sequence: &Links<Key>, key: Key) -> Option<Option<Key>>
    requires { AreApart sequence.now.nodes }
    ensures some { IfSome result (λ ahead. IsAheadIn key sequence.now.nodes ahead) }
    ensures none { IfNone result (last_key sequence.now.nodes ≢ Some key) }
{
    let last = sequence.last()?;
    if sequence.key_at(last) == key {
        Some(key_ahead(sequence, last))
    } else {
        None
    }
}

/// The oldest key of a sequence that `skip` doesn't pass over.
pub fn oldest_unskipped<F: Fn(Key) -> bool>(sequence: &Links<Key>, skip: &F) -> Option<Key>
    requires callable { F.IsAlwaysCallable skip.now }
    requires apart { AreApart sequence.now.nodes }
    ensures { (skips : Key → Bool) → ((key : Key) (answer : Bool) → F.post skip.now key answer → answer ≡ skips key)
        → result ≡ oldest_unskipped skips (elements sequence.now) }
{
    let mut at = sequence.last();
    while let Some(place) = at {
        let key = sequence.key_at(place);
        if !skip(key) {
            return Some(key);
        }
        at = sequence.toward_head(place);
    }
    None
}

impl Queues {
    ghost use Rattle.arc_lists.specs.Queues.{AreNodesApart, HaveCapacity, HaveRoom, HaveSameNodes, IsEntered, IsOn, IsPushed, left, no_queues, nodes_of, removed, sequences_in};

    /// Four empty sequences.
    pub fn new(alloc: Global) -> Queues
        ensures { result ≡ no_queues }
    {
        Queues {
            mru: Links::new(alloc),
            mru_ghost: Links::new(alloc),
            mfu: Links::new(alloc),
            mfu_ghost: Links::new(alloc),
        }
    }

    /// Makes room for `n` keys more than there was on each sequence.
    pub fn widen(&mut self, n: usize) -> Result<(), NoMemory>
        ensures nodes { HaveSameNodes self.old self.new }
        ensures ok { OnOk result ((m : ℕ) → HaveCapacity m self.old → HaveCapacity (m + n) self.new) }
        ensures kept { (m : ℕ) → HaveCapacity m self.old → HaveCapacity m self.new }
    {
        widen(&mut self.mru, n)?;
        widen(&mut self.mru_ghost, n)?;
        widen(&mut self.mfu, n)?;
        widen(&mut self.mfu_ghost, n)
    }

    /// Puts a key at the head of the sequence of a state, where that state has one, and answers its node's place.
    pub fn put_at_head(&mut self, state: State, key: Key) -> Option<usize>
        requires { HaveRoom self.old }
        ensures { IsPushed state key result self.old self.new }
    {
        match state {
            State::Mru => Some(self.mru.push_head(key)),
            State::MruGhost => Some(self.mru_ghost.push_head(key)),
            State::Mfu => Some(self.mfu.push_head(key)),
            State::MfuGhost => Some(self.mfu_ghost.push_head(key)),
            State::Anon | State::L2Only => None,
        }
    }

    /// Puts a key at the head of the sequence of a state only where it is unheld.
    #[inline(always)]
    pub fn enter(&mut self, state: State, key: Key, unheld: bool) -> Option<usize>
        requires { HaveRoom self.old }
        ensures { IsEntered unheld state key result self.old self.new }
    {
        if unheld {
            self.put_at_head(state, key)
        } else {
            None
        }
    }

    /// Takes the node at a place off the sequence of a state, where there is one.
    #[inline(always)]
    pub fn leave(&mut self, state: State, at: Option<usize>)
        requires { IsOn state at self.old }
        ensures { self.new ≡ left state at self.old }
    {
        if let Some(place) = at {
            self.take_off(state, place);
        }
    }

    // Takes the node at a place off the sequence of a state.
    fn take_off(&mut self, state: State, at: usize)
        requires { IsSome (element_at at (nodes_of state self.old)) }
        ensures { self.new ≡ removed state at self.old }
    {
        let _ = match state {
            State::Mru => self.mru.remove(at),
            State::MruGhost => self.mru_ghost.remove(at),
            State::Mfu => self.mfu.remove(at),
            State::MfuGhost => self.mfu_ghost.remove(at),
            State::Anon | State::L2Only => unreachable!(),
        };
    }

    /// The key in front of this one, where it is the last of one of the sequences. None only where it is the last of none.
    pub fn ahead_of_last(&self, key: Key) -> Option<Option<Key>>
        requires { AreNodesApart self.now }
        ensures some { IfSome result (λ ahead. (s : State) × IsAheadIn key (nodes_of s self.now) ahead) }
        ensures none { IfNone result ((s : State) → last_key (nodes_of s self.now) ≢ Some key) }
    {
        let mru = ahead_of_last(&self.mru, key);
        if mru.is_some() {
            return mru;
        }
        let mfu = ahead_of_last(&self.mfu, key);
        if mfu.is_some() {
            return mfu;
        }
        let mru_ghost = ahead_of_last(&self.mru_ghost, key);
        if mru_ghost.is_some() {
            return mru_ghost;
        }
        ahead_of_last(&self.mfu_ghost, key)
    }

    /// The key in front of the node at a place of a state's sequence, toward the head.
    pub fn key_ahead(&self, state: State, at: usize) -> Option<Key>
        requires there { IsSome (element_at at (nodes_of state self.now)) }
        requires apart { AreNodesApart self.now }
        ensures { result ≡ last_key (in_front at (nodes_of state self.now)) }
    {
        match state {
            State::Mru => key_ahead(&self.mru, at),
            State::MruGhost => key_ahead(&self.mru_ghost, at),
            State::Mfu => key_ahead(&self.mfu, at),
            State::MfuGhost => key_ahead(&self.mfu_ghost, at),
            State::Anon | State::L2Only => None,
        }
    }

    /// The oldest key of a state's sequence. None exactly where no key stands there.
    pub fn oldest(&self, state: State) -> Option<Key>
        requires { AreNodesApart self.now }
        ensures { result ≡ first_of (oldest_first state (sequences_in self.now)) }
    {
        match state {
            State::Mru => last_of(&self.mru),
            State::MruGhost => last_of(&self.mru_ghost),
            State::Mfu => last_of(&self.mfu),
            State::MfuGhost => last_of(&self.mfu_ghost),
            State::Anon | State::L2Only => None,
        }
    }
}
