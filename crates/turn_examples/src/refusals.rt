//! A count of refusals that nobody can make up: who found the turn 1 taken may add one to the count behind the turn 0.
ghost use Rattle.std.specs.Prelude.{◌≡◌, ◌⊎◌, ℕ, ◌+◌, ◌-◌, ◌^◌, ◌<◌, ◌≤◌, false, if◌then◌else◌, [], length, IsTrue, IfOk};
ghost use Rattle.turn_table.specs.Moments.{WasFree, WasTaken};
ghost use Rattle.turn_table.specs.Places.{IsPartyOf, took, saw};
ghost use Rattle.turn_examples.specs.Refusals.{Counted, clerk};

use std::alloc::Global;
use std::collections::LinkedList;
use std::sync::Wait;
use turn_table::{GivenView, NoMemory, Party, Take, TurnRule, Turns};

/// What a party knows: the owners that it found at the turn 1, how many of these refusals it has counted, and the count where it took it. No value of it is made.
pub struct Clerk {
    pub notes: LinkedList<u64>,
    pub told: u64,
    pub count: u64,
}

/// The count is what the parties have told, each at most as often as it was refused.
pub struct Honest;

impl TurnRule<u64> for Honest {
    ghost use Rattle.std.specs.Prelude.{[]};
    ghost use Rattle.turn_examples.specs.Refusals.{Counted, clerk, won as clerk_won, lost as clerk_lost, SameNotes};
    ghost use Rattle.turn_examples.specs.RefusalLaws.{keeps_won as refusals_won, keeps_lost as refusals_lost, keeps_learned as refusals_learned};

    type View = Clerk;

    type Key = ();

    ghost holds = { Counted };

    ghost first = { λ _ _. clerk [] 0 0 };

    ghost won = { clerk_won };

    ghost lost = { clerk_lost };

    ghost gives = { SameNotes };

    ghost learned = { λ w _. w };

    ghost blank = { clerk [] 0 0 };

    ghost keeps_won = { refusals_won };

    ghost keeps_lost = { refusals_lost };

    ghost keeps_learned = { refusals_learned };
}

// A party has counted one of its refusals.
struct Counts;

impl GivenView<u64, Clerk, ()> for Counts {
    ghost use Rattle.std.specs.Prelude.{◌+◌};
    ghost use Rattle.turn_examples.specs.Refusals.{clerk};

    ghost given = { λ _ w _ _. clerk w.notes (w.told + 1) w.count };
}

/// A party has counted nothing.
pub struct Leaves;

impl GivenView<u64, Clerk, ()> for Leaves {
    ghost given = { λ _ w _ _. w };
}

pub type Desk = Turns<u64, Honest>;

pub type Hand = Party<u64, Honest>;

// Takes the count. A try on the turn 0 that is lost tells nothing.
fn take_count<R: Wait>(rt: &R, desk: &Desk, party: &mut Hand) -> u64
    requires { IsPartyOf desk.now party.old × (0 < desk.now.turns) × (party.old.held ≡ []) }
    ensures { party.new ≡ took party.old 0 (clerk party.old.own.notes party.old.own.told result) }
{
    desk.take(rt, party, 0)
}

// Counts a refusal that is not counted yet, unless the count is at its end.
fn count_one<R: Wait>(rt: &R, desk: &Desk, party: &mut Hand) -> bool
    requires row { IsPartyOf desk.now party.old × (0 < desk.now.turns) × (party.old.held ≡ []) }
    requires owed { party.old.own.told < length party.old.own.notes }
    ensures party { party.new ≡ saw party.old party.new.own }
    ensures notes { party.new.own.notes ≡ party.old.own.notes }
    ensures told { party.new.own.told ≡ party.old.own.told + (if result then 1 else 0) }
    ensures end { result ≡ false → party.new.own.count ≡ 2 ^ 64 - 1 }
{
    let count = take_count(rt, desk, party);
    let Some(more) = count.checked_add(1) else {
        desk.give::<Leaves>(party, 0, count);
        return false;
    };
    desk.give::<Counts>(party, 0, more);
    true
}

/// Tries the turn 1, and counts the refusal where another party has it. True where it was counted; false where the turn was free,
/// or the count is at its end.
pub fn try_and_count<R: Wait>(rt: &R, desk: &Desk, party: &mut Hand) -> bool
    requires row { IsPartyOf desk.now party.old × (1 < desk.now.turns) × (party.old.held ≡ []) }
    requires all { party.old.own.told ≡ length party.old.own.notes }
    ensures party { party.new ≡ saw party.old party.new.own }
    ensures told { party.new.own.told ≡ party.old.own.told + (if result then 1 else 0) }
    ensures refused { IsTrue result → (owner : ℕ) × WasTaken Counted party.old 1 owner }
    ensures free { result ≡ false → ((value : ℕ) × WasFree Counted party.old 1 value) ⊎ (party.new.own.count ≡ 2 ^ 64 - 1) }
{
    match desk.try_take(party, 1) {
        Take::Busy { owner: _ } => count_one(rt, desk, party),
        Take::Taken(value) => {
            desk.give::<Leaves>(party, 1, value);
            false
        }
    }
}

/// Ends the row of two parties. The count is what they told, and no more than the refusals that they were given.
pub fn settle(alloc: Global, desk: Desk, mut one: Hand, two: Hand) -> Result<u64, NoMemory>
    requires row { (desk.turns ≡ 2) × (desk.parties ≡ 2) }
    requires one { IsPartyOf desk one × (one.held ≡ []) × (one.joined ≡ []) × (one.number ≡ 0) }
    requires two { IsPartyOf desk two × (two.held ≡ []) × (two.joined ≡ []) × (two.number ≡ 1) }
    ensures told { IfOk result (λ c. c ≡ one.own.told + two.own.told) }
    ensures bounded { IfOk result (λ c. c ≤ length one.own.notes + length two.own.notes) }
{
    desk.join(&mut one, two);
    let mut parties = Vec::with_capacity(alloc, 1)?;
    parties.push(one)?;
    let values = desk.close(parties)?;
    Ok(values[0])
}
