//! How a row of turns begins.
ghost use Rattle.std.specs.Prelude.{◌≡◌, ℕ, ◌+◌, ◌-◌, ◌^◌, ◌<◌, [], IfOk, vec_len};
ghost use Rattle.turn_table.specs.Board.{opening, numbered};
ghost use Rattle.turn_table.specs.Homes.{Laid};
ghost use Rattle.turn_table.specs.Places.{newcomers, IsLast, stayed, parted};
ghost use Rattle.turn_table.specs.Standings.{whole_place};

use crate::home::{home, room};
use crate::party::Party;
use crate::plays::{Deal, Setup};
use crate::rule::TurnRule;
use crate::turns::Turns;
use atomic_table::Table;
use std::alloc::{AllocError, AllocFailed, Global};
use std::marker::PhantomData;
use std::snapshot::Snapshot;

/// There was no memory.
#[derive(Debug, Clone, Copy, PartialEq, Eq)]
pub struct NoMemory;

impl From<AllocError> for NoMemory {
    fn from(_error: AllocError) -> NoMemory {
        NoMemory
    }
}

impl<T: Drop> From<AllocFailed<T>> for NoMemory {
    fn from(_failed: AllocFailed<T>) -> NoMemory {
        NoMemory
    }
}

// The slots, with these values at the homes of their turns.
fn filled<V: Drop>(alloc: Global, values: Vec<V>) -> Result<Vec<Option<V>>, AllocError>
    requires { vec_len values < 2 ^ 32 }
    ensures { IfOk result (λ v. Laid v.items values.items) }
{
    let places = room(values.len());
    let mut row: Vec<Option<V>> = values.into_iter().map(Some).collect(alloc)?;
    let mut slots = Vec::with_capacity(alloc, places)?;
    for place in 0..places {
        let turn = home(place);
        let slot = if turn < row.len() {
            row[turn].take()
        } else {
            None
        };
        slots.push_reserved(slot);
    }
    Ok(slots)
}

impl<V: Drop, R: TurnRule<V>> Turns<V, R> {
    /// A row of these values, whose turns are free, and its parties by their numbers. `about` is what the opening
    /// views are made of. Err is want of memory.
    pub fn new(
        alloc: Global,
        values: Vec<V>,
        parties: u32,
        about: &R::Key,
    ) -> Result<(Turns<V, R>, Vec<Party<V, R>>), NoMemory>
        requires parties { 0 < parties }
        requires values { (0 < vec_len values) × (vec_len values < 2 ^ 32) }
        requires rule { R.holds (opening values.items (numbered (R.first about.now) 0 parties)) }
        ensures row { IfOk result (λ r. (r.0.turns ≡ vec_len values) × (r.0.parties ≡ parties)) }
        ensures parties { IfOk result (λ r. r.1.items ≡ newcomers r.0.table parties (R.first about.now) 0 parties) }
    {
        let (row, first) = Turns::lay(alloc, values, parties, about)?;
        let all = row.deal(first, parties, about)?;
        Ok((row, all))
    }

    // The row, and a party that keeps all others by a join.
    fn lay(
        alloc: Global,
        values: Vec<V>,
        parties: u32,
        about: &R::Key,
    ) -> Result<(Turns<V, R>, Party<V, R>), AllocError>
        requires parties { 0 < parties }
        requires values { (0 < vec_len values) × (vec_len values < 2 ^ 32) }
        requires rule { R.holds (opening values.items (numbered (R.first about.now) 0 parties)) }
        ensures row { IfOk result (λ r. (r.0.turns ≡ vec_len values) × (r.0.parties ≡ parties)) }
        ensures party { IfOk result (λ r. r.1 ≡ whole_place r.0.table parties (R.first about.now) 1 (parties - 1)) }
    {
        let turns = values.len() as u32;
        let words = Vec::from_elem(alloc, 0u64, room(values.len()))?;
        let slots = filled(alloc, values)?;
        let setup = Setup {
            parties,
            turns,
            key: Snapshot::of(about),
        };
        let Ok((table, seat)) = Table::new(alloc, words.as_slice(), slots, &setup) else {
            return Err(AllocError);
        };
        let row = Turns {
            table,
            turns,
            alloc,
        };
        let first = Party {
            number: 0,
            seat,
            rule: PhantomData,
        };
        Ok((row, first))
    }

    // All parties, in the order of their numbers.
    fn deal(
        &self,
        mut first: Party<V, R>,
        parties: u32,
        about: &R::Key,
    ) -> Result<Vec<Party<V, R>>, AllocError>
        requires parties { 0 < parties }
        requires first { first ≡ whole_place self.now.table parties (R.first about.now) 1 (parties - 1) }
        ensures { IfOk result (λ v. v.items ≡ newcomers self.now.table parties (R.first about.now) 0 parties) }
    {
        let _ = about;
        let mut all = Vec::with_capacity(self.alloc, parties as usize)?;
        for number in 1..parties {
            all.push(self.send_off(&mut first, number))?;
        }
        all.insert(0, first)?;
        Ok(all)
    }

    // The party of this number, which joined last, parts, and learns nothing.
    fn send_off(&self, party: &mut Party<V, R>, number: u32) -> Party<V, R>
        requires row { party.old.table ≡ self.now.table }
        requires free { party.old.held ≡ [] }
        requires last { IsLast number party.old.joined }
        ensures party { party.new ≡ stayed party.old }
        ensures result { result ≡ parted (λ w. w) party.old party.old.joined }
    {
        let seat = self.table.shared.split_seat::<Deal>(&mut party.seat);
        Party {
            number,
            seat,
            rule: PhantomData,
        }
    }
}
