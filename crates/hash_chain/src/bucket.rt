//! A bucket of headers, one a key.
ghost use Rattle.std.specs.Prelude.{◌≡◌, ◌≢◌, ℕ, ◌+◌, ◌-◌, ◌<◌, ◌≤◌, [], ◌∷◌, ◌++◌, length, map, max, slice_get, slice_index, slice_set, Some, None, IfSome, IfNone, IfOk, OnOk, OnErr, IsSome, IsTrue};
ghost use Rattle.std.specs.List.{position};
ghost use Rattle.hash_chain.specs.declared.header.Header.{Header};
ghost use Rattle.hash_chain.specs.Alike.{AreAlike};
ghost use Rattle.hash_chain.specs.Chain.{header_at, bytes_lent, given, lent, IsAlikeTo, IsWith};
ghost use Rattle.hash_chain.specs.Kept.{is_key, keys_of, tag_of_key};

use crate::header::Header;
use blk_ptr::{Block, Key, NoMemory, State, hash_of};
use std::alloc::Global;
use std::marker::Model;
use std::mem;
use std::simd::prelude::*;
use std::sync::Arc;

// How many tags are compared at a time.
const LANES: usize = 16;

/// The headers of the keys that fall into one bucket. Contracts see a finite map by key. A bucket mostly has one header or two. So the first lies in the bucket itself: a search
/// for its key reads none of the vectors, and they have no memory until room is made for a second header. The others lie in `more`, and their tags beside them in the same
/// order. A tag is a byte of the key's hash: a search goes over the tags, many at a time, and reads a header's key only where the tag is the one that it looks for.
#[derive(Debug, Drop)]
pub struct Bucket {
    first: Option<Header>,
    more: Vec<Header>,
    tags: Vec<u8>,
    spare: usize,
}

impl Model for Bucket {
    ghost use Rattle.std.specs.Prelude.{◌≡◌, ◌+◌, ◌≤◌, [], map, length, option_to_list, vec_len, vec_capacity, IfNone};
    ghost use Rattle.hash_chain.specs.Chain.{Chain};
    ghost use Rattle.hash_chain.specs.Kept.{all_of, keys_of, tag_of_key, AreOnce};

    ghost Value = { Chain };

    ghost view = { λ b. record { headers = all_of b.first b.more.items; spare = b.spare } };

    // With a first there is room in each vector for `spare` more. Without one there may be room for one less, since the next header becomes the first.
    ghost invariant = { λ b. (b.tags.items ≡ map tag_of_key (keys_of b.more.items)) × AreOnce (all_of b.first b.more.items)
        × IfNone b.first (b.more.items ≡ [])
        × (length (option_to_list b.first) + vec_len b.more + b.spare ≤ vec_capacity b.more + 1)
        × (length (option_to_list b.first) + vec_len b.tags + b.spare ≤ vec_capacity b.tags + 1) };
}

// The golden ratio of 2^64. Of keys of one offset the highest byte of the hash is mostly the same, and their tags are not to be.
const SPREAD: u64 = 0x9e37_79b9_7f4a_7c15;

// The tag of a key: the highest byte of its hash, spread once more, since buckets are chosen by the lower ones.
fn tag_of(key: Key) -> u8
    ensures { result ≡ tag_of_key key }
{
    (hash_of(key).wrapping_mul(SPREAD) >> 56) as u8
}

// How many of the `LANES` tags from `at` on come before the first that is this one.
fn others(tags: &[u8], at: usize, tag: u8) -> usize
    requires { at + LANES ≤ length tags.now }
    ensures most { result ≤ LANES }
    ensures others { (k : ℕ) → at ≤ k → k < at + result → slice_index tags.now k ≢ tag }
{
    let lanes = u8x16::from_slice(&tags[at..]);
    let same = lanes.simd_eq(u8x16::splat(tag)).to_bitmask();
    if same == 0 {
        LANES
    } else {
        same.trailing_zeros() as usize
    }
}

// The first place from `from` on at which this tag may stand, where fewer than `LANES` tags are left. The last `LANES` tags are read, so some of them twice.
fn start_at_end(tags: &[u8], from: usize, tag: u8) -> usize
    requires { length tags.now < from + LANES }
    ensures { (k : ℕ) → from ≤ k → k < result → slice_index tags.now k ≢ tag }
{
    if tags.len() < LANES {
        return from;
    }
    let last = tags.len() - LANES;
    from.max(last + others(tags, last, tag))
}

// Where a key stands among headers that have these tags, and not before `from`, where fewer than `LANES` are left.
fn place_at_end(tags: &[u8], headers: &[Header], key: Key, from: usize) -> Option<usize>
    requires tags { tags.now ≡ map tag_of_key (keys_of headers.now) }
    requires left { length tags.now < from + LANES }
    requires passed { (k : ℕ) → k < from → slice_get (keys_of headers.now) k ≢ Some key }
    ensures { result ≡ position (is_key key) (keys_of headers.now) }
{
    let tag = tag_of(key);
    let start = start_at_end(tags, from, tag);
    for place in start..headers.len() {
        if tags[place] == tag {
            if headers[place].key == key {
                return Some(place);
            }
        }
    }
    None
}

// Where a key stands among headers that have these tags. A header's own key is compared, since the caller reads that header next.
fn place_of(tags: &[u8], headers: &[Header], key: Key) -> Option<usize>
    requires { tags.now ≡ map tag_of_key (keys_of headers.now) }
    ensures { result ≡ position (is_key key) (keys_of headers.now) }
{
    let tag = tag_of(key);
    let mut from = 0;
    while LANES <= tags.len() - from {
        let ahead = others(tags, from, tag);
        from += ahead;
        if ahead < LANES {
            if headers[from].key == key {
                return Some(from);
            }
            from += 1;
        }
    }
    place_at_end(tags, headers, key, from)
}

// Whether a header says this state and this place.
fn says(header: &Header, state: State, place: Option<u64>) -> bool
    ensures { IsTrue result → record header.now { state = state; place = place } ≡ header.now }
{
    header.state == state && header.place == place
}

// Writes this state and this place into a header.
fn restate(header: &mut Header, state: State, place: Option<u64>)
    ensures { header.new ≡ record header.old { state = state; place = place } }
{
    header.state = state;
    header.place = place;
}

// Writes the state of a ghost into a header, which keeps no bytes from now on.
fn leave_ghost(header: &mut Header, state: State)
    ensures { header.new ≡ record header.old { state = state; block = None } }
{
    header.state = state;
    header.block = None;
}

// Takes an owner out of a header that has a block.
#[inline]
fn take_from(header: &mut Header) -> Result<Arc<Block>, NoMemory>
    requires { IsSome header.old.block }
    ensures ok { OnOk result (header.new ≡ lent header.old) }
    ensures err { OnErr result (header.new ≡ header.old) }
    ensures owner { IfOk result (λ owner. bytes_lent header.old ≡ Some owner.value) }
    ensures alike { IfOk result (λ owner. IfSome header.old.block (λ kept. AreAlike owner.value kept.block.value)) }
{
    let Some(kept) = &mut header.block else {
        unreachable!()
    };
    kept.take()
}

// Gives an owner back to a header, with near which place its entry stands. Where the header has no block, the owner goes.
#[inline]
fn give_to(header: &mut Header, owner: Arc<Block>, near: usize)
    requires { IfSome header.old.block (λ kept. AreAlike owner.value kept.block.value) }
    ensures { header.new ≡ given owner near header.old }
{
    if let Some(kept) = &mut header.block {
        kept.give(owner, near);
    }
}

impl Bucket {
    /// An empty bucket.
    pub fn new(alloc: Global) -> Bucket
        ensures { result ≡ record { headers = []; spare = 0 } }
    {
        Bucket {
            first: None,
            more: Vec::new(alloc),
            tags: Vec::new(alloc),
            spare: 0,
        }
    }

    /// Where the header of this key stands, until a header is removed (`buf_hash_find` of OpenZFS's `arc.c`).
    pub fn find(&self, key: Key) -> Option<usize>
        ensures found { IfSome result (λ i. (i < length self.now.headers) × (header_at key self.now.headers ≡ slice_get self.now.headers i)) }
        ensures key { IfSome result (λ i. IfSome (slice_get self.now.headers i) (λ h. h.key ≡ key)) }
        ensures absent { IfNone result (header_at key self.now.headers ≡ None) }
    {
        // The first header's own key is compared, since the caller reads that header next.
        let first = self.first.as_ref()?;
        if first.key == key {
            return Some(0);
        }
        // Where there are no others the key isn't hashed.
        if self.more.is_empty() {
            return None;
        }
        let place = place_of(&self.tags, &self.more, key)?;
        Some(place + 1)
    }

    /// The header at `i`.
    pub fn at(&self, i: usize) -> &Header
        requires { i < length self.now.headers }
        ensures place { slice_get self.now.headers i ≡ Some result.now }
        ensures map { header_at result.now.key self.now.headers ≡ Some result.now }
    {
        if i > 0 {
            return &self.more[i - 1];
        }
        self.first.as_ref().unwrap()
    }

    /// Makes room for `n` more headers. After want of memory the bucket is as before.
    pub fn reserve(&mut self, n: usize) -> Result<(), NoMemory>
        ensures headers { self.new.headers ≡ self.old.headers }
        ensures ok { OnOk result (self.new.spare ≡ max self.old.spare n) }
        ensures err { OnErr result (self.new ≡ self.old) }
    {
        if n <= self.spare {
            return Ok(());
        }
        // The next header of a bucket without a first becomes the first, and takes no room in the vectors.
        let others = n - usize::from(self.first.is_none());
        self.tags.reserve(others)?;
        self.more.reserve(others)?;
        self.spare = n;
        Ok(())
    }

    /// Adds the header of a key that has none (`buf_hash_insert` of OpenZFS's `arc.c`).
    pub fn add(&mut self, header: Header)
        requires room { 0 < self.old.spare }
        requires absent { header_at header.key self.old.headers ≡ None }
        ensures headers { self.new ≡ record { headers = self.old.headers ++ header ∷ []; spare = self.old.spare - 1 } }
        ensures map { IsWith header.key (Some header) self.old.headers self.new.headers }
    {
        self.spare -= 1;
        if self.first.is_none() {
            self.first = Some(header);
            return;
        }
        self.tags.push_reserved(tag_of(header.key));
        self.more.push_reserved(header);
    }

    /// Takes the header at `i` out (`buf_hash_remove` of OpenZFS's `arc.c`). The last of the headers takes its place. It is part of the code that calls it, so a header that
    /// is let go is not copied out first.
    #[inline(always)]
    pub fn remove(&mut self, i: usize) -> Header
        requires { i < length self.old.headers }
        ensures value { slice_get self.old.headers i ≡ Some result }
        ensures map { IsWith result.key None self.old.headers self.new.headers }
        ensures spare { self.new.spare ≡ self.old.spare + 1 }
    {
        self.spare += 1;
        if i == 0 {
            self.tags.pop();
            let last = self.more.pop();
            return mem::replace(&mut self.first, last).unwrap();
        }
        self.tags.swap_remove(i - 1);
        self.more.swap_remove(i - 1)
    }

    /// Puts another header of the same key at `i`.
    pub fn change(&mut self, i: usize, header: Header)
        requires range { i < length self.old.headers }
        requires same { IfSome (slice_get self.old.headers i) (λ h. h.key ≡ header.key) }
        ensures headers { self.new ≡ record self.old { headers = slice_set self.old.headers i header } }
        ensures map { IsWith header.key (Some header) self.old.headers self.new.headers }
    {
        if i == 0 {
            self.first = Some(header);
            return;
        }
        self.more[i - 1] = header;
    }

    /// The header at `i` says this state and this place from now on (`arc_change_state` of OpenZFS's `arc.c`). Nothing is written where it says so already.
    pub fn change_state(&mut self, i: usize, state: State, place: Option<u64>)
        requires { i < length self.old.headers }
        ensures headers { (h : Header) → slice_get self.old.headers i ≡ Some h → self.new ≡ record self.old { headers = slice_set self.old.headers i (record h { state = state; place = place }) } }
        ensures map { (h : Header) → slice_get self.old.headers i ≡ Some h → IsWith h.key (Some (record h { state = state; place = place })) self.old.headers self.new.headers }
    {
        if says(self.at(i), state, place) {
            return;
        }
        if i > 0 {
            restate(&mut self.more[i - 1], state, place);
        } else if let Some(first) = &mut self.first {
            restate(first, state, place);
        }
    }

    /// The header at `i` keeps no bytes and says this state from now on (`arc_evict_hdr` of OpenZFS's `arc.c`). What else it says stays where it lies.
    pub fn evict(&mut self, i: usize, state: State)
        requires { i < length self.old.headers }
        ensures headers { (h : Header) → slice_get self.old.headers i ≡ Some h → self.new ≡ record self.old { headers = slice_set self.old.headers i (record h { state = state; block = None }) } }
        ensures map { (h : Header) → slice_get self.old.headers i ≡ Some h → IsWith h.key (Some (record h { state = state; block = None })) self.old.headers self.new.headers }
    {
        if i > 0 {
            leave_ghost(&mut self.more[i - 1], state);
        } else if let Some(first) = &mut self.first {
            leave_ghost(first, state);
        }
    }

    /// An owner of the block that the header at `i` keeps, or of a block alike to it: the spare one, if there is one, and then no count is changed. Err is where the count is full.
    #[inline]
    pub fn take_block(&mut self, i: usize) -> Result<Arc<Block>, NoMemory>
        requires range { i < length self.old.headers }
        requires block { IfSome (slice_get self.old.headers i) (λ h. IsSome h.block) }
        ensures ok { OnOk result ((h : Header) → slice_get self.old.headers i ≡ Some h → self.new ≡ record self.old { headers = slice_set self.old.headers i (lent h) }) }
        ensures map { OnOk result ((h : Header) → slice_get self.old.headers i ≡ Some h → IsWith h.key (Some (lent h)) self.old.headers self.new.headers) }
        ensures err { OnErr result (self.new ≡ self.old) }
        ensures owner { IfOk result (λ owner. (h : Header) → slice_get self.old.headers i ≡ Some h → bytes_lent h ≡ Some owner.value) }
        ensures alike { IfOk result (λ owner. IsAlikeTo (slice_get self.old.headers i) owner.value) }
    {
        if i > 0 {
            return take_from(&mut self.more[i - 1]);
        }
        let Some(first) = &mut self.first else {
            unreachable!()
        };
        take_from(first)
    }

    /// Gives an owner back to the header at `i`, which keeps it for the next reader if it has a block and no spare owner, and says near which place of its shard the key's entry stands.
    #[inline]
    pub fn give_block(&mut self, i: usize, owner: Arc<Block>, near: usize)
        requires range { i < length self.old.headers }
        requires alike { IsAlikeTo (slice_get self.old.headers i) owner.value }
        ensures headers { (h : Header) → slice_get self.old.headers i ≡ Some h → self.new ≡ record self.old { headers = slice_set self.old.headers i (given owner near h) } }
        ensures map { (h : Header) → slice_get self.old.headers i ≡ Some h → IsWith h.key (Some (given owner near h)) self.old.headers self.new.headers }
    {
        if i > 0 {
            give_to(&mut self.more[i - 1], owner, near);
        } else if let Some(first) = &mut self.first {
            give_to(first, owner, near);
        }
    }
}
