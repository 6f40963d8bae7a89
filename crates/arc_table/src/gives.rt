//! What a party knows once it has given a turn back. These types are for the proofs alone.
use crate::item::Item;
use crate::view::Known;
use arc_core::Keeps;
use turn_table::GivenView;

/// A turn was given back as it was found.
pub(crate) struct Same;

impl<C: Keeps> GivenView<Item<C>, Known<C>, ()> for Same {
    ghost use Rattle.arc_table.specs.Views.{after_same};

    ghost given = { λ _ w i _. after_same i w };
}

/// A cell was given back.
pub(crate) struct Cell;

impl<C: Keeps> GivenView<Item<C>, Known<C>, ()> for Cell {
    ghost use Rattle.arc_table.specs.Views.{after_cell};

    ghost given = { λ _ w i v. after_cell C.Keeps i v w };
}
