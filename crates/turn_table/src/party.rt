//! The token of one party.
ghost use Rattle.std.specs.Prelude.{◌≡◌};

use crate::rule::TurnRule;
use crate::standing::Standing;
use atomic_table::Seat;
use std::marker::{Model, PhantomData};

/// The right to act under one number. It has no lifetime, and may go to another thread.
pub struct Party<V, R: TurnRule<V>> {
    pub(crate) number: u32,
    pub(crate) seat: Seat<Option<V>, Standing<R::View>>,
    pub(crate) rule: PhantomData<R>,
}

impl<V, R: TurnRule<V>> Model for Party<V, R> {
    ghost use Rattle.turn_table.specs.Places.{Place};
    ghost use Rattle.turn_table.specs.Standings.{place_of, IsParty};

    ghost Value = { Place R.View };

    ghost view = { λ p. place_of p.seat.table_id p.seat.me.0 };

    ghost invariant = { λ p. IsParty p.number p.seat.table_id.words p.seat.me };
}

impl<V, R: TurnRule<V>> Party<V, R> {
    ghost use Rattle.turn_table.specs.Standings.{IsParty, place_of};

    /// The number that the party acts under.
    pub fn number(&self) -> u32
        ensures { result ≡ self.now.number }
    {
        self.number
    }

    // The token alone.
    pub(crate) fn into_seat(self) -> Seat<Option<V>, Standing<R::View>>
        ensures place { place_of result.table_id result.me.0 ≡ self }
        ensures party { IsParty result.me.0.number result.table_id.words result.me }
    {
        let Party {
            number: _,
            seat,
            rule: _,
        } = self;
        seat
    }
}

impl<V, R: TurnRule<V>> Drop for Party<V, R> {
    fn drop(self) {
        let Party {
            number: _,
            seat: _,
            rule: _,
        } = self;
    }
}
