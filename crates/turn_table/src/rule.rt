//! What the user of a row of turns states: a fact about all of it, and how each step changes what a party knows.
ghost use Rattle.std.specs.Prelude.{ℕ};
ghost use Rattle.turn_table.specs.Board.{Board, KeepsWon, KeepsLost, KeepsLearned};

/// A fact about all turns, the values at home and what each party knows, and how trying and telling change what a party knows.
pub trait TurnRule<V> {
    /// What a party knows. It is plain data for the proofs, and no value of it is made.
    type View;

    /// What the opening views are made of.
    type Key;

    ghost holds: { Board V Self.View → Type 0 };

    // What the party of this number knows at the start.
    ghost first: { Self.Key → ℕ → Self.View };

    // Of the party's number, the turn, its value and what the party knew: what it knows once it has taken the turn.
    ghost won: { ℕ → ℕ → V → Self.View → Self.View };

    // Of the party's number, the turn, the owner found and what the party knew: what it knows once it has lost the try.
    ghost lost: { ℕ → ℕ → ℕ → Self.View → Self.View };

    // What a party may make of what it knew when it gives a turn back. So a rule refuses a view that claims a try which was never made.
    ghost gives: { Self.View → Self.View → Type 0 };

    // Of what a party knew and what another knows: what it knows once it has seen all that the other has.
    ghost learned: { Self.View → Self.View → Self.View };

    // Some view, whichever: what a token is left with that no party has any more.
    ghost blank: { Self.View };

    ghost keeps_won: { KeepsWon holds won };

    ghost keeps_lost: { KeepsLost holds lost };

    ghost keeps_learned: { KeepsLearned holds learned };
}

/// What a party knows after it has given a turn back.
/// `H` is what else it has in hand at that moment, and `W` is a view.
pub trait GivenView<V, W, H> {
    // Of what it has in hand, what it knew, the turn and the value.
    ghost given: { H → W → ℕ → V → W };
}
