//! Taking the cells of the layer above, and giving them back.
ghost use Rattle.std.specs.Prelude.{◌≡◌, ◌≢◌, ℕ, ◌<◌, List};
ghost use Rattle.turn_table.specs.Board.{IsAmong};
ghost use Rattle.turn_table.specs.Moments.{WasFree, WasTaken, Loses};
ghost use Rattle.turn_table.specs.Places.{saw, took, gave_back, Apart};
ghost use Rattle.turn_table.specs.Taken.{IfTaken, IfBusy};
ghost use Rattle.arc_table.specs.Cache.{IsPartyOf};
ghost use Rattle.arc_table.specs.Geometry.{IsCell};
ghost use Rattle.arc_table.specs.Giving.{IsGivenCell};
ghost use Rattle.arc_table.specs.Looking.{HasNoLook};
ghost use Rattle.arc_table.specs.pact.Rule.{Pact as pact};
ghost use Rattle.arc_table.specs.Views.{after_cell, after_lost, after_won};
ghost use Rattle.arc_table.specs.declared.item.Item.TheVariants as item;
ghost use Rattle.arc_table.specs.declared.view.Known.{Known};

use crate::arcs::{Arcs, Party};
use crate::gives;
use crate::item::Item;
use arc_core::Keeps;
use std::sync::Wait;
use turn_table::Take;

impl<C: Keeps> Arcs<C> {
    /// Takes the cell `i`, and waits while another party has it. The cell is sound, and the party lists what it keeps.
    pub fn take_cell(&self, rt: &impl Wait, party: &mut Party<C>, i: u32) -> C
        requires party { IsPartyOf self.now party.old }
        requires look { HasNoLook self.now party.old }
        requires range { IsCell self.now.config i }
        requires not_held { ¬ IsAmong i party.old.held }
        ensures party { IsPartyOf self.now party.new }
        ensures free { HasNoLook self.now party.new }
        ensures took { (owners : List ℕ) × (w : Known C) × Loses (pact C.Keeps) (λ _. after_lost) i owners party.old (saw party.old w)
            × WasFree (pact C.Keeps) (saw party.old w) i (item.Cell result)
            × (party.new ≡ took party.old i (after_won C.Keeps i (item.Cell result) w)) }
    {
        self.turns.take(rt, party, i).into_cell()
    }

    /// Takes the cell `i` if no other party has it.
    pub fn try_take_cell(&self, party: &mut Party<C>, i: u32) -> Take<C>
        requires party { IsPartyOf self.now party.old }
        requires look { HasNoLook self.now party.old }
        requires range { IsCell self.now.config i }
        requires not_held { ¬ IsAmong i party.old.held }
        ensures taken { IfTaken result (λ cell. WasFree (pact C.Keeps) party.old i (item.Cell cell)
            × (party.new ≡ took party.old i (after_won C.Keeps i (item.Cell cell) party.old.own))) }
        ensures busy { IfBusy result (λ m. WasTaken (pact C.Keeps) party.old i m × (party.new ≡ saw party.old (after_lost i m party.old.own))) }
        ensures owner { IfBusy result (λ m. (m < self.now.row.parties) × (m ≢ party.old.number) × Apart m party.old.joined) }
    {
        match self.turns.try_take(party, i) {
            Take::Busy { owner } => Take::Busy { owner },
            Take::Taken(value) => Take::Taken(value.into_cell()),
        }
    }

    /// Gives the cell `i` back with this value. The entries made since it was taken stand in the cell's history as the party's own.
    pub fn give_cell(&self, party: &mut Party<C>, i: u32, cell: C)
        requires party { IsPartyOf self.now party.old }
        requires look { HasNoLook self.now party.old }
        requires range { IsCell self.now.config i }
        requires held { IsAmong i party.old.held }
        requires cell { IsGivenCell C.Keeps party.old.number i cell party.old.own }
        ensures { party.new ≡ gave_back party.old i (after_cell C.Keeps i (item.Cell cell) party.old.own) }
    {
        self.turns.give::<gives::Cell>(party, i, Item::Cell(cell));
    }
}
