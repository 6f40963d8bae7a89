//! The row of turns, and the steps on it. A take and a give are part of the code that calls them, so a value goes from hand to hand in registers.
ghost use Rattle.std.specs.Prelude.{◌≡◌, ◌≢◌, ℕ, ◌<◌, List, [], Some, IfSome};
ghost use Rattle.turn_table.specs.Board.{IsAmong};
ghost use Rattle.turn_table.specs.Places.{IsPartyOf, Apart, took, saw, gave_back, met, IsLast, stayed, parted};
ghost use Rattle.turn_table.specs.Moments.{WasFree, WasSo, WasTaken, Loses, MayGive};
ghost use Rattle.turn_table.specs.Standings.{learned_last};
ghost use Rattle.turn_table.specs.Taken.{IfTaken, IfBusy};

use crate::home::home;
use crate::party::Party;
use crate::plays::{Bring, Gather, Give, Learn, Next, Part, Ruled, Setup, Try};
use crate::rule::{GivenView, TurnRule};
use crate::standing::Standing;
use crate::take::Take;
use atomic_table::Table;
use std::alloc::Global;
use std::marker::{Brand, Model, PhantomData};
use std::sync::Wait;
use std::{hint, thread};

// How often a waiting party looks at a turn before it lets another thread run. It pauses twice as long before each look.
const LOOKS: u32 = 8;

// Lets the processor rest, so many times.
fn pause(times: u32) {
    for _ in 0..times {
        hint::spin_loop();
    }
}

/// Values in a row, with a turn for each.
pub struct Turns<V, R: TurnRule<V>> {
    pub(crate) table: RowTable<V, R>,
    pub(crate) turns: u32,
    pub(crate) alloc: Global,
}

impl<V, R: TurnRule<V>> Model for Turns<V, R> {
    ghost use Rattle.turn_table.specs.Places.{Row};
    ghost use Rattle.turn_table.specs.Standings.{IsRow};

    ghost Value = { Row };

    ghost view = { λ t. record { table = t.table.shared.table_id; turns = t.turns; parties = t.table.shared.key.parties } };

    ghost invariant = { λ t. IsRow t.table.shared.table_id t.turns t.table.shared.key.turns t.table.shared.key.parties };
}

impl<V, R: TurnRule<V>> Turns<V, R> {
    /// Takes the turn `i` if it is free.
    #[inline(always)]
    pub fn try_take(&self, party: &mut Party<V, R>, i: u32) -> Take<V>
        requires row { IsPartyOf self.now party.old }
        requires range { i < self.now.turns }
        requires not_held { ¬ IsAmong i party.old.held }
        ensures taken { IfTaken result (λ v. WasFree R.holds party.old i v × (party.new ≡ took party.old i (R.won party.old.number i v party.old.own))) }
        ensures busy { IfBusy result (λ m. WasTaken R.holds party.old i m × (party.new ≡ saw party.old (R.lost party.old.number i m party.old.own))) }
        ensures owner { IfBusy result (λ m. (m < self.now.parties) × (m ≢ party.old.number) × Apart m party.old.joined) }
    {
        let mine = u64::from(party.number) + 1;
        let place = home(i as usize);
        let shared = &self.table.shared;
        let found = shared.compare_exchange::<Try<R>>(&mut party.seat, place, 0, mine);
        if found != 0 {
            return Take::Busy {
                owner: (found - 1) as u32,
            };
        }
        let Some(value) = shared.exchange(&mut party.seat, place, None) else {
            unreachable!()
        };
        Take::Taken(value)
    }

    /// Gives the turn `i` back with `value`. What the party knows from then on rests on what it knew, the turn and the value.
    pub fn give<M: GivenView<V, R::View, ()>>(&self, party: &mut Party<V, R>, i: u32, value: V)
        requires row { IsPartyOf self.now party.old }
        requires held { IsAmong i party.old.held }
        requires fair { R.gives party.old.own (M.given tt party.old.own i value) }
        requires rule { MayGive R.holds party.old i value (M.given tt party.old.own i value) }
        ensures { party.new ≡ gave_back party.old i (M.given tt party.old.own i value) }
    {
        self.give_with::<(), M>(party, i, value, &());
    }

    /// The same, where what the party knows from then on rests on `hand` too, which is what else it has in hand.
    #[inline(always)]
    pub fn give_with<H, M: GivenView<V, R::View, H>>(
        &self,
        party: &mut Party<V, R>,
        i: u32,
        value: V,
        hand: &H,
    )
        requires row { IsPartyOf self.now party.old }
        requires held { IsAmong i party.old.held }
        requires fair { R.gives party.old.own (M.given hand.now party.old.own i value) }
        requires rule { MayGive R.holds party.old i value (M.given hand.now party.old.own i value) }
        ensures { party.new ≡ gave_back party.old i (M.given hand.now party.old.own i value) }
    {
        self.hand_back::<H, Brand>(party, i, value, hand);
    }

    // The party knows `N.next` from then on. `hand` is for the proof alone, where the caller picks `N.next`.
    #[inline(always)]
    fn hand_back<H, N: Next<R::View>>(&self, party: &mut Party<V, R>, i: u32, value: V, hand: &H)
        requires row { IsPartyOf self.now party.old }
        requires held { IsAmong i party.old.held }
        requires rule { (w : R.View) × (N.next ≡ Some w) × MayGive R.holds party.old i value w }
        ensures { IfSome N.next (λ w. party.new ≡ gave_back party.old i w) }
    {
        let _ = hand;
        let place = home(i as usize);
        let shared = &self.table.shared;
        shared.load::<Bring>(&mut party.seat, place);
        let empty = shared.exchange(&mut party.seat, place, Some(value));
        let None = empty else { unreachable!() };
        shared.store::<Give<N>>(&mut party.seat, place, 0);
    }

    // Waits for a while until the turn looks free, and then lets another thread run. It only reads the word, so that it doesn't take the
    // word's cache line from the holder before the turn is given back.
    fn wait(&self, i: u32)
        requires { i < self.now.turns }
    {
        let place = home(i as usize);
        for look in 0..LOOKS {
            pause(1 << look);
            if self.table.shared.peek(place) == 0 {
                return;
            }
        }
        thread::yield_now();
    }

    /// Takes the turn `i`, and waits while another party has it.
    #[inline(always)]
    pub fn take(&self, rt: &impl Wait, party: &mut Party<V, R>, i: u32) -> V
        requires row { IsPartyOf self.now party.old }
        requires range { i < self.now.turns }
        requires not_held { ¬ IsAmong i party.old.held }
        ensures { (owners : List ℕ) × (w : R.View) × Loses R.holds R.lost i owners party.old (saw party.old w) × WasFree R.holds (saw party.old w) i result × (party.new ≡ took party.old i (R.won party.old.number i result w)) }
    {
        // A turn that is free is taken here, with no loop to set up.
        match self.try_take(party, i) {
            Take::Taken(value) => value,
            Take::Busy { owner: _ } => self.take_later(rt, party, i),
        }
    }

    // The same, where a try was lost just before: it waits first.
    fn take_later(&self, rt: &impl Wait, party: &mut Party<V, R>, i: u32) -> V
        requires row { IsPartyOf self.now party.old }
        requires range { i < self.now.turns }
        requires not_held { ¬ IsAmong i party.old.held }
        ensures { (owners : List ℕ) × (w : R.View) × Loses R.holds R.lost i owners party.old (saw party.old w) × WasFree R.holds (saw party.old w) i result × (party.new ≡ took party.old i (R.won party.old.number i result w)) }
    {
        for _ in rt.forever() {
            self.wait(i);
            if let Take::Taken(value) = self.try_take(party, i) {
                return value;
            }
        }
        unreachable!()
    }

    // `other` joins `party`, which learns nothing.
    pub(crate) fn take_in(&self, party: &mut Party<V, R>, other: Party<V, R>)
        requires row { IsPartyOf self.now party.old × IsPartyOf self.now other }
        requires free { (party.old.held ≡ []) × (other.held ≡ []) }
        ensures { party.new ≡ met party.old other party.old.own }
    {
        self.table
            .shared
            .join_seat::<Gather<V, R>>(&mut party.seat, other.into_seat());
    }

    // The party learns what the one that joined it last has seen.
    fn learn(&self, party: &mut Party<V, R>)
        requires row { IsPartyOf self.now party.old }
        ensures moment { WasSo R.holds party.old }
        ensures learned { party.new ≡ saw party.old (learned_last R.learned party.old.own party.old.joined) }
    {
        self.table.shared.load::<Learn<R>>(&mut party.seat, 0);
    }

    /// `other` joins `party`, which keeps what either has made, holds and claims under its own number, and has seen what either has seen.
    /// At one moment of it the rule held with what both had known before.
    pub fn join(&self, party: &mut Party<V, R>, other: Party<V, R>)
        requires row { IsPartyOf self.now party.old × IsPartyOf self.now other }
        requires free { (party.old.held ≡ []) × (other.held ≡ []) }
        ensures joined { party.new ≡ met party.old other (R.learned party.old.own other.own) }
        ensures moment { WasSo R.holds (met party.old other party.old.own) }
    {
        self.take_in(party, other);
        self.learn(party);
    }

    /// The party of this number, which joined `party` last, parts from it. It has all that is its own, and has seen what `party` has seen.
    pub fn part(&self, party: &mut Party<V, R>, number: u32) -> Party<V, R>
        requires row { IsPartyOf self.now party.old }
        requires free { party.old.held ≡ [] }
        requires last { IsLast number party.old.joined }
        ensures party { party.new ≡ stayed party.old }
        ensures result { result ≡ parted (λ w. R.learned w party.old.own) party.old party.old.joined }
    {
        let seat = self.table.shared.split_seat::<Part<V, R>>(&mut party.seat);
        Party {
            number,
            seat,
            rule: PhantomData,
        }
    }
}

pub(crate) type RowTable<V, R> = Table<
    Option<V>,
    Standing<<R as TurnRule<V>>::View>,
    Setup<<R as TurnRule<V>>::Key>,
    Ruled<R>,
    Global,
>;

impl<V: Drop, R: TurnRule<V>> Turns<V, R> {
    pub(crate) fn into_table(self) -> RowTable<V, R>
        ensures { (result.shared.table_id ≡ self.table) × (result.shared.key.turns ≡ self.turns) × (result.shared.key.parties ≡ self.parties) × (0 < self.parties) }
    {
        let Turns {
            table,
            turns: _,
            alloc: _,
        } = self;
        table
    }
}

impl<V: Drop, R: TurnRule<V>> Drop for Turns<V, R> {
    fn drop(self) {
        let Turns {
            table: _,
            turns: _,
            alloc: _,
        } = self;
    }
}
