//! How a row of turns ends.
ghost use Rattle.std.specs.Prelude.{◌≡◌, ◌⊎◌, ℕ, ◌<◌, ◌≤◌, List, [], false, length, IfOk, vec_len, vec_capacity};
ghost use Rattle.std.specs.Slots.{slots_items, slots_filled, slots_len, IsFull};
ghost use Rattle.std.specs.List.{slice_index_or};
ghost use Rattle.turn_table.specs.Board.{opening};
ghost use Rattle.turn_table.specs.Homes.{Laid};
ghost use Rattle.turn_table.specs.Places.{IsPartyOf, met, HasNumber, SomeHas, AreFree, Shows, ShowAll};

use crate::home::home;
use crate::opening::NoMemory;
use crate::party::Party;
use crate::rule::TurnRule;
use crate::turns::Turns;
use atomic_table::Closed;
use std::alloc::Global;

impl<V, R: TurnRule<V>> Turns<V, R> {
    // All these parties join `party`.
    fn gather(&self, party: &mut Party<V, R>, mut others: Vec<Party<V, R>>)
        requires row { IsPartyOf self.now party.old × (party.old.held ≡ []) }
        requires others { AreFree self.now others.items }
        ensures row { IsPartyOf self.now party.new × (party.new.held ≡ []) }
        ensures numbers { (n : ℕ) → HasNumber n party.old ⊎ SomeHas n others.items → HasNumber n party.new }
        ensures views { (views : List R.View) → Shows views party.new → Shows views party.old × ShowAll views others.items }
    {
        while let Some(other) = others.pop() {
            self.take_in(party, other);
        }
    }
}

// The values, from slots that have them at the homes of their turns.
fn take_values<V: Drop>(closed: &mut Closed<Option<V>, Global>, values: &mut Vec<V>)
    requires full { IsFull closed.old.slots }
    requires laid { (vs : List V) × Laid (slots_items closed.old.slots) vs × (length vs ≤ vec_capacity values.old) }
    requires empty { values.old.items ≡ [] }
    ensures values { (vs : List V) → Laid (slots_items closed.old.slots) vs → values.new.items ≡ vs }
    ensures taken { (k : ℕ) → k < slots_len closed.new.slots → slice_index_or (slots_filled closed.new.slots) k false ≡ false }
{
    for i in 0..closed.slot_count() {
        if let Some(value) = closed.take(home(i)) {
            values.push_reserved(value);
        }
    }
}

impl<V: Drop, R: TurnRule<V>> Turns<V, R> {
    /// The values, once all parties are there and none holds a turn. They meet the rule, with what the parties know. Err is want of
    /// memory, and then they are lost.
    pub fn close(self, mut parties: Vec<Party<V, R>>) -> Result<Vec<V>, NoMemory>
        requires free { AreFree self parties.items }
        requires all { (n : ℕ) → n < self.parties → SomeHas n parties.items }
        ensures { IfOk result (λ vs. (vec_len vs ≡ self.turns) × ((views : List R.View) × (length views ≡ self.parties) × ShowAll views parties.items × R.holds (opening vs.items views))) }
    {
        let mut values = Vec::with_capacity(self.alloc, self.turns as usize)?;
        let Some(mut party) = parties.pop() else {
            unreachable!()
        };
        self.gather(&mut party, parties);
        let mut closed = self.into_table().close_with(party.into_seat());
        take_values(&mut closed, &mut values);
        closed.free();
        Ok(values)
    }
}
