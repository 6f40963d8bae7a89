//! Laws of the grammar of logs, over its definitions alone: each is the contract of a function with nothing to do.
ghost use Rattle.std.specs.Prelude.{◌≡◌, ℕ, List};
ghost use Rattle.arc_check.specs.LogText.{IsFirstLogFault, IsLogText};
ghost use Rattle.arc_check.specs.Printed.{IsPrintedAsSpelled};
ghost use Rattle.arc_check.specs.ReadBack.{IsReadBack};
ghost use Rattle.arc_check.specs.declared.log.Log.{Log};
ghost use Rattle.trace_text.specs.declared.fault.Kind.{Kind};

/// The line that is printed for an event is spelled as a log's line of this event is, field by field.
pub fn events_are_printed_as_spelled()
    ensures { IsPrintedAsSpelled }
{}

/// A text is at most one log.
pub fn one_log()
    ensures { (text : List ℕ) (one other : Log) → IsLogText text one → IsLogText text other → one ≡ other }
{}

/// A text with a first fault is no log, and has no other first fault. So a reader names a fault only outside the grammar, and there is one
/// that it may name.
pub fn one_log_fault()
    ensures no_log { (text : List ℕ) (log : Log) (line : ℕ) (kind : Kind) → IsLogText text log → IsFirstLogFault text line kind → ⊥ }
    ensures one { (text : List ℕ) (line other_line : ℕ) (kind other_kind : Kind) →
        IsFirstLogFault text line kind → IsFirstLogFault text other_line other_kind → (line ≡ other_line) × (kind ≡ other_kind) }
{}

/// A head that is followed by the printed form of histories is a log with these histories, where the text has at most 67,108,864 bytes and
/// 1,000,000 events, its numbers are in range and its keys are of their shards.
pub fn histories_are_read_back()
    ensures { IsReadBack }
{}
