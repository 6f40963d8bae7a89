//! Slots of rows, and the chains in which they are found.
ghost use Rattle.std.specs.Prelude.{◌≡◌, ℕ, ◌+◌, ◌<◌, ◌≤◌, nat_eq, if◌then◌else◌, List, length, get_or, Some, IfSome, IfNone, OnOk};
ghost use Rattle.std.specs.Option.{option_map};
ghost use Rattle.slab.specs.Slab.{ContainsKey, get, slab_len};
ghost use Rattle.key_table.specs.Indexes.{IsIndexed};
ghost use Rattle.key_table.specs.Chains.{HaveSameRows, IsChain, IsShort, IsSlotOf, Stands, chain_of, leading, no_place, place_in_front, rows_in};

use crate::hashed::Hashed;
use crate::memory::NoMemory;
use slab::Slab;

/// The place of no slot: a place is below the capacity of a slab. It is the link behind the last slot of a chain.
pub const NO_PLACE: usize = usize::MAX;

/// A row, and the place of the slot behind it on its chain. A search reads that place and the key, so they stand side by side.
#[derive(Debug, Drop)]
pub struct Slot<K, V> {
    pub next: usize,
    pub key: K,
    pub value: V,
}

/// The chain of a key, of so many.
pub fn chain_of<K: Hashed>(key: &K, chains: usize) -> usize
    requires { 0 < chains }
    ensures chain { result ≡ chain_of (K.hash key.now) chains }
    ensures within { result < chains }
{
    (key.hash() >> 32) as usize & (chains - 1)
}

/// The place of a key's slot on the chain that begins with `head`.
pub fn find<K: Hashed, V>(slots: &Slab<Slot<K, V>>, head: usize, key: &K) -> Option<usize>
    requires { IsShort slots.now head }
    ensures found { IfSome result (λ p. IsSlotOf key.now p slots.now) }
    ensures none { IfNone result ((ps : List ℕ) → IsChain slots.now head ps → (p : ℕ) → Stands p ps → IsSlotOf key.now p slots.now → ⊥) }
{
    let mut at = head;
    while at != NO_PLACE {
        let slot = &slots[at];
        if slot.key.is(key) {
            return Some(at);
        }
        at = slot.next;
    }
    None
}

/// The place of a key's slot, by its hash.
#[inline(always)]
pub fn find_by_hash<K: Hashed, V>(
    slots: &Slab<Slot<K, V>>,
    heads: &[usize],
    key: &K,
) -> Option<usize>
    requires indexed { IsIndexed K.hash slots.now heads.now (length heads.now) no_place }
    requires within { length slots.now.slots ≤ no_place }
    ensures found { IfSome result (λ p. IsSlotOf key.now p slots.now) }
    ensures none { IfNone result ((p : ℕ) → IsSlotOf key.now p slots.now → ⊥) }
{
    if heads.is_empty() {
        return None;
    }
    find(slots, heads[chain_of(key, heads.len())], key)
}

/// The place of a key's slot: `near`, if that is the one, or else by its hash.
#[inline(always)]
pub fn find_near<K: Hashed, V>(
    slots: &Slab<Slot<K, V>>,
    heads: &[usize],
    near: usize,
    key: &K,
) -> Option<usize>
    requires indexed { IsIndexed K.hash slots.now heads.now (length heads.now) no_place }
    requires within { length slots.now.slots ≤ no_place }
    ensures found { IfSome result (λ p. IsSlotOf key.now p slots.now) }
    ensures none { IfNone result ((p : ℕ) → IsSlotOf key.now p slots.now → ⊥) }
{
    match slots.get(near) {
        Some(slot) if slot.key.is(key) => Some(near),
        _ => find_by_hash(slots, heads, key),
    }
}

/// The place in front of `at` on the chain that begins with `head`, on which it stands. `NO_PLACE` where it is the first.
pub fn place_in_front<K, V>(slots: &Slab<Slot<K, V>>, head: usize, at: usize) -> usize
    requires short { IsShort slots.now head }
    requires stands { (ps : List ℕ) → IsChain slots.now head ps → Stands at ps }
    ensures { (ps : List ℕ) → IsChain slots.now head ps → result ≡ place_in_front at no_place ps }
{
    let mut before = NO_PLACE;
    let mut here = head;
    while here != at {
        before = here;
        here = slots[here].next;
    }
    before
}

/// Puts another slot behind the one at `at`.
pub fn set_next<K, V>(slots: &mut Slab<Slot<K, V>>, at: usize, to: usize)
    requires { ContainsKey slots.old at }
    ensures slots { (q : ℕ) → get slots.new q ≡ (if nat_eq q at then option_map (leading to) (get slots.old q) else get slots.old q) }
    ensures rows { rows_in slots.new.slots ≡ rows_in slots.old.slots }
    ensures len { slab_len slots.new ≡ slab_len slots.old }
    ensures length { length slots.new.slots ≡ length slots.old.slots }
    ensures capacity { slots.new.capacity ≡ slots.old.capacity }
{
    slots[at].next = to;
}

/// Puts the slot at `at` at the head of its key's chain, if there is one.
fn chain_one<K: Hashed, V>(slots: &mut Slab<Slot<K, V>>, heads: &mut [usize], at: usize)
    requires some { 0 < length heads.old }
    requires place { at < no_place }
    requires indexed { IsIndexed K.hash slots.old heads.old (length heads.old) at }
    ensures indexed { IsIndexed K.hash slots.new heads.new (length heads.new) (at + 1) }
    ensures rows { rows_in slots.new.slots ≡ rows_in slots.old.slots }
    ensures each { HaveSameRows slots.old slots.new }
    ensures len { slab_len slots.new ≡ slab_len slots.old }
    ensures length { length slots.new.slots ≡ length slots.old.slots }
    ensures capacity { slots.new.capacity ≡ slots.old.capacity }
{
    let Some(slot) = slots.get(at) else {
        return;
    };
    let chain = chain_of(&slot.key, heads.len());
    set_next(slots, at, heads[chain]);
    heads[chain] = at;
}

/// Chains every slot, from heads that lead nowhere.
pub fn chain_all<K: Hashed, V>(slots: &mut Slab<Slot<K, V>>, heads: &mut [usize])
    requires some { 0 < length heads.old }
    requires nowhere { (b : ℕ) → get_or heads.old b no_place ≡ no_place }
    ensures indexed { IsIndexed K.hash slots.new heads.new (length heads.new) no_place }
    ensures rows { rows_in slots.new.slots ≡ rows_in slots.old.slots }
    ensures each { HaveSameRows slots.old slots.new }
    ensures len { slab_len slots.new ≡ slab_len slots.old }
    ensures length { length slots.new.slots ≡ length slots.old.slots }
    ensures capacity { slots.new.capacity ≡ slots.old.capacity }
{
    for at in 0..slots.capacity() {
        chain_one(slots, heads, at);
    }
}

/// The most chains that are asked for: a vector of so many places is more than any memory has.
const MOST: usize = 1 << 60;

/// Sees to it that there are at least twice as many chains as `all`, so that most slots are the first of theirs. Where there were
/// fewer, every slot is chained anew.
pub fn widen<K: Hashed, V>(
    slots: &mut Slab<Slot<K, V>>,
    heads: &mut Vec<usize>,
    all: usize,
) -> Result<(), NoMemory>
    requires { IsIndexed K.hash slots.old heads.old.items (length heads.old.items) no_place }
    ensures indexed { IsIndexed K.hash slots.new heads.new.items (length heads.new.items) no_place }
    ensures chains { OnOk result (all ≤ length heads.new.items) }
    ensures fewer { length heads.old.items ≤ length heads.new.items }
    ensures rows { rows_in slots.new.slots ≡ rows_in slots.old.slots }
    ensures each { HaveSameRows slots.old slots.new }
    ensures len { slab_len slots.new ≡ slab_len slots.old }
    ensures length { length slots.new.slots ≡ length slots.old.slots }
    ensures capacity { slots.new.capacity ≡ slots.old.capacity }
{
    if all <= heads.len() / 2 {
        return Ok(());
    }
    if all > MOST {
        return Err(NoMemory);
    }
    let mut more = Vec::from_elem(*heads.allocator(), NO_PLACE, (2 * all).next_power_of_two())?;
    chain_all(slots, &mut more);
    *heads = more;
    Ok(())
}
