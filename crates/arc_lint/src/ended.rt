//! How the program ended.

/// How the program ended.
#[derive(Clone, Copy, Debug, PartialEq, Eq)]
pub(crate) enum Ended {
    /// The text is what it is to be, and what it declares was told.
    Fine,
    /// A word is wrong.
    Usage,
    /// The text has a fault, which was told.
    Faulty,
    /// The source failed.
    SourceFault,
    /// The sink failed.
    SinkFault,
    /// Memory was refused.
    NoMemory,
}

impl Ended {
    /// The exit status, which is `arc_tool`'s where that has the same reason.
    pub(crate) fn code(self) -> u8 {
        match self {
            Ended::Fine => 0,
            Ended::Usage => 2,
            Ended::Faulty => 3,
            Ended::SourceFault => 4,
            Ended::SinkFault => 5,
            Ended::NoMemory => 7,
        }
    }

    /// What the standard error is told, if anything: what the standard output has speaks for itself.
    pub(crate) fn reason(self) -> Option<&'static str> {
        match self {
            Ended::Fine | Ended::Faulty => None,
            Ended::Usage => {
                Some("usage: arc_lint [--pages | --log] < FILE; arc_lint --help says more")
            }
            Ended::SourceFault => Some("the standard input could not be read"),
            Ended::SinkFault => Some("the standard output could not be written"),
            Ended::NoMemory => Some("there was too little memory"),
        }
    }
}
