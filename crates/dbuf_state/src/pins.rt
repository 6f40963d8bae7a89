//! Who keeps a dbuf from being evicted, and how often.
ghost use Rattle.std.specs.Prelude.{◌≡◌, ◌+◌, ◌==◌, [], IfOk, OnOk, OnErr, position, length, get_or, ◌<◌};
ghost use Rattle.dbuf_state.specs.declared.pins.PinCount.{PinCount};
ghost use Rattle.dbuf_state.specs.Pins.{are_none, has_pin, lowered, pinned, unpinned};

use blk_ptr::NoMemory;
use std::alloc::Global;
use std::marker::Model;

/// How often a number pins a dbuf.
#[derive(Clone, Copy)]
pub struct PinCount {
    /// Whose pins they are.
    pub n: u32,
    /// How many there are, at least 1.
    pub count: u64,
}

/// The pins on a dbuf. Contracts see the numbers that have pins there, in the order in which each pinned it first, with their
/// counts.
#[derive(Drop)]
pub struct Pins {
    counts: Vec<PinCount>,
}

impl Model for Pins {
    ghost use Rattle.std.specs.Prelude.{List};
    ghost use Rattle.dbuf_state.specs.declared.pins.PinCount.{PinCount};

    ghost Value = { List PinCount };

    ghost view = { λ pins. pins.counts.items };
}

// Where the pins of `n` stand.
fn place_of(counts: &[PinCount], n: u32) -> Option<usize>
    ensures { result ≡ position (λ p. p.n == n) counts.now }
{
    counts.iter().position(|pin| pin.n == n)
}

// One pin more than so many.
fn raised(count: u64) -> Result<u64, NoMemory>
    ensures { IfOk result (λ n. n ≡ count + 1) }
{
    count.checked_add(1).ok_or(NoMemory)
}

// One pin less at a place; the last one takes its number away.
fn lower(counts: &mut Vec<PinCount>, place: usize)
    requires { place < length counts.old.items }
    ensures { (p : PinCount) → p ≡ get_or counts.old.items place p → counts.new.items ≡ lowered counts.old.items place p }
{
    let pin = counts[place];
    if pin.count <= 1 {
        counts.remove(place);
    } else {
        counts[place] = PinCount {
            n: pin.n,
            count: pin.count - 1,
        };
    }
}

impl Pins {
    /// No pins.
    pub fn new(alloc: Global) -> Pins
        ensures { result ≡ [] }
    {
        Pins {
            counts: Vec::new(alloc),
        }
    }

    /// Whether there are none.
    pub fn is_empty(&self) -> bool
        ensures { result ≡ are_none self.now }
    {
        self.counts.is_empty()
    }

    /// Whether `n` has one.
    pub fn has(&self, n: u32) -> bool
        ensures { result ≡ has_pin n self.now }
    {
        for pin in &self.counts {
            if pin.n == n {
                return true;
            }
        }
        false
    }

    /// One pin of `n` more. After want of memory they are as before.
    pub fn add(&mut self, n: u32) -> Result<(), NoMemory>
        ensures ok { OnOk result (self.new ≡ pinned n self.old) }
        ensures err { OnErr result (self.new ≡ self.old) }
    {
        match place_of(&self.counts, n) {
            Some(i) => {
                let pin = &mut self.counts[i];
                pin.count = raised(pin.count)?;
            }
            None => self.counts.push(PinCount { n, count: 1 })?,
        }
        Ok(())
    }

    /// One pin of `n` less, where it has one.
    pub fn take(&mut self, n: u32)
        ensures { self.new ≡ unpinned n self.old }
    {
        let Some(i) = place_of(&self.counts, n) else {
            return;
        };
        lower(&mut self.counts, i);
    }

    /// Takes all of them away.
    pub fn clear(&mut self)
        ensures { self.new ≡ [] }
    {
        self.counts.clear();
    }
}
