//! Laws of plans and of live entries that no single call states.
ghost use Rattle.l2_ring.specs.RangeLaws.{FallTogether, PlansAreOne};

/// A law of plans: a ring has one plan for a number of bytes.
pub fn plans_are_one()
    ensures { PlansAreOne }
{}

/// A law of live entries: of two that have one range a plan keeps both or drops both.
pub fn one_range_falls_together()
    ensures { FallTogether }
{}
