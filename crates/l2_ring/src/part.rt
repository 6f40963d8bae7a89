/// The part of a ring in which a range lies.
#[derive(Clone, Copy, Debug, PartialEq, Eq)]
pub enum Part {
    /// Written in this lap: from the ring's start to the hand.
    Lower,
    /// Written in the lap before: from the evict mark to the top.
    Upper,
    /// Neither, so that its bytes may have been written over.
    Dead,
}
