//! The names of the four lists.

/// A list of the directory, by the publication's names. T1 and T2 list the pages that are cached, B1 and B2 those that were.
#[derive(Clone, Copy, Debug, PartialEq, Eq)]
pub(crate) enum Queue {
    T1,
    T2,
    B1,
    B2,
}
