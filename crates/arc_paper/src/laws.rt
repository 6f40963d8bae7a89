//! What holds of the definitions.
ghost use Rattle.arc_paper.specs.Bounds.{AreBoundsKept};

/// A law of the lists: after any pages none stands twice, and the publication's bounds on the lists and the target hold.
pub fn bounds_are_kept()
    ensures { AreBoundsKept }
{}
