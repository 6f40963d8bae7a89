//! A bucket on the heap.
ghost use Rattle.std.specs.Prelude.{◌≡◌, ◌+◌, ◌-◌, ◌<◌, [], ◌∷◌, ◌++◌, length, max, slice_get, slice_set, Some, None, IfSome, IfNone, IfOk, IsSome, OnOk, OnErr};
ghost use Rattle.hash_chain.specs.declared.header.Header.{Header};
ghost use Rattle.hash_chain.specs.Chain.{IsAlikeTo, IsWith, bytes_lent, given, header_at, lent};

use blk_ptr::{Block, Key, NoMemory, State};
use hash_chain::{Bucket, Header};
use std::alloc::Global;
use std::marker::Model;
use std::sync::Arc;

/// A bucket on the heap, so that taking and giving its turn moves a pointer and not the bucket. Contracts see the bucket.
#[derive(Drop)]
pub struct HeapBucket {
    bucket: Box<Bucket>,
}

impl Model for HeapBucket {
    ghost use Rattle.hash_chain.specs.Chain.{Chain};

    ghost Value = { Chain };

    ghost view = { λ b. b.bucket.value };
}

impl HeapBucket {
    // An empty bucket.
    pub(crate) fn new(alloc: Global) -> Result<HeapBucket, NoMemory>
        ensures { IfOk result (λ b. b ≡ record { headers = []; spare = 0 }) }
    {
        Ok(HeapBucket {
            bucket: Box::new(alloc, Bucket::new(alloc))?,
        })
    }

    // Where the header of this key stands, until a header is removed.
    pub(crate) fn find(&self, key: Key) -> Option<usize>
        ensures found { IfSome result (λ i. (i < length self.now.headers) × (header_at key self.now.headers ≡ slice_get self.now.headers i)) }
        ensures key { IfSome result (λ i. IfSome (slice_get self.now.headers i) (λ h. h.key ≡ key)) }
        ensures absent { IfNone result (header_at key self.now.headers ≡ None) }
    {
        self.bucket.find(key)
    }

    // The header at `i`.
    pub(crate) fn at(&self, i: usize) -> &Header
        requires { i < length self.now.headers }
        ensures place { slice_get self.now.headers i ≡ Some result.now }
        ensures map { header_at result.now.key self.now.headers ≡ Some result.now }
    {
        self.bucket.at(i)
    }

    // Makes room for `n` more headers. After want of memory the bucket is as before.
    pub(crate) fn reserve(&mut self, n: usize) -> Result<(), NoMemory>
        ensures headers { self.new.headers ≡ self.old.headers }
        ensures ok { OnOk result (self.new.spare ≡ max self.old.spare n) }
        ensures err { OnErr result (self.new ≡ self.old) }
    {
        self.bucket.reserve(n)
    }

    // Adds the header of a key that has none.
    pub(crate) fn add(&mut self, header: Header)
        requires room { 0 < self.old.spare }
        requires absent { header_at header.key self.old.headers ≡ None }
        ensures headers { self.new ≡ record { headers = self.old.headers ++ header ∷ []; spare = self.old.spare - 1 } }
        ensures map { IsWith header.key (Some header) self.old.headers self.new.headers }
    {
        self.bucket.add(header);
    }

    // Takes the header at `i` out. The last one takes its place.
    #[inline(always)]
    pub(crate) fn remove(&mut self, i: usize) -> Header
        requires { i < length self.old.headers }
        ensures value { slice_get self.old.headers i ≡ Some result }
        ensures map { IsWith result.key None self.old.headers self.new.headers }
        ensures spare { self.new.spare ≡ self.old.spare + 1 }
    {
        self.bucket.remove(i)
    }

    // Puts another header of the same key at `i`.
    pub(crate) fn change(&mut self, i: usize, header: Header)
        requires range { i < length self.old.headers }
        requires same { IfSome (slice_get self.old.headers i) (λ h. h.key ≡ header.key) }
        ensures headers { self.new ≡ record self.old { headers = slice_set self.old.headers i header } }
        ensures map { IsWith header.key (Some header) self.old.headers self.new.headers }
    {
        self.bucket.change(i, header);
    }

    // An owner of the block that the header at `i` keeps, or of a block alike to it: the spare one, if there is one.
    pub(crate) fn take_block(&mut self, i: usize) -> Result<Arc<Block>, NoMemory>
        requires range { i < length self.old.headers }
        requires block { IfSome (slice_get self.old.headers i) (λ h. IsSome h.block) }
        ensures ok { OnOk result ((h : Header) → slice_get self.old.headers i ≡ Some h → self.new ≡ record self.old { headers = slice_set self.old.headers i (lent h) }) }
        ensures map { OnOk result ((h : Header) → slice_get self.old.headers i ≡ Some h → IsWith h.key (Some (lent h)) self.old.headers self.new.headers) }
        ensures err { OnErr result (self.new ≡ self.old) }
        ensures owner { IfOk result (λ owner. (h : Header) → slice_get self.old.headers i ≡ Some h → bytes_lent h ≡ Some owner.value) }
        ensures alike { IfOk result (λ owner. IsAlikeTo (slice_get self.old.headers i) owner.value) }
    {
        self.bucket.take_block(i)
    }

    // Gives an owner back to the header at `i`, and says near which place of its shard the key's entry stands.
    pub(crate) fn give_block(&mut self, i: usize, owner: Arc<Block>, near: usize)
        requires range { i < length self.old.headers }
        requires alike { IsAlikeTo (slice_get self.old.headers i) owner.value }
        ensures headers { (h : Header) → slice_get self.old.headers i ≡ Some h → self.new ≡ record self.old { headers = slice_set self.old.headers i (given owner near h) } }
        ensures map { (h : Header) → slice_get self.old.headers i ≡ Some h → IsWith h.key (Some (given owner near h)) self.old.headers self.new.headers }
    {
        self.bucket.give_block(i, owner, near);
    }

    // The header at `i` keeps no bytes and says this state from now on.
    pub(crate) fn evict(&mut self, i: usize, state: State)
        requires { i < length self.old.headers }
        ensures headers { (h : Header) → slice_get self.old.headers i ≡ Some h → self.new ≡ record self.old { headers = slice_set self.old.headers i (record h { state = state; block = None }) } }
        ensures map { (h : Header) → slice_get self.old.headers i ≡ Some h → IsWith h.key (Some (record h { state = state; block = None })) self.old.headers self.new.headers }
    {
        self.bucket.evict(i, state);
    }

    // The header at `i` says this state and this place from now on.
    pub(crate) fn change_state(&mut self, i: usize, state: State, place: Option<u64>)
        requires { i < length self.old.headers }
        ensures headers { (h : Header) → slice_get self.old.headers i ≡ Some h → self.new ≡ record self.old { headers = slice_set self.old.headers i (record h { state = state; place = place }) } }
        ensures map { (h : Header) → slice_get self.old.headers i ≡ Some h → IsWith h.key (Some (record h { state = state; place = place })) self.old.headers self.new.headers }
    {
        self.bucket.change_state(i, state, place);
    }
}
