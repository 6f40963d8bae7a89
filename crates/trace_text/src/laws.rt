//! What a text is and is not, told as laws of the grammar.
ghost use Rattle.std.specs.Prelude.{◌≡◌, ◌≤◌, ℕ, List, length};
ghost use Rattle.trace_text.specs.Grammar.{IsFirstFault, IsFormed, IsTraceText, IsWritten, counted_fields, lines_of, longest_text};
ghost use Rattle.trace_text.specs.TraceText.{text_of_trace};
ghost use Rattle.trace_text.specs.declared.fault.Kind.{Kind};
ghost use Rattle.trace_text.specs.declared.trace.Trace.{Trace};

/// A text is at most one trace.
pub fn one_trace()
    ensures { (text : List ℕ) (one other : Trace) → IsTraceText text one → IsTraceText text other → one ≡ other }
{}

/// The lines of a trace's text that aren't passed over are the spellings of its sizes, then of its bounds of a feed where a
/// line gives them, of its blocks and of its objects, in any order among each other, and then of its operations.
pub fn written_lines()
    ensures { (text : List ℕ) (trace : Trace) → IsTraceText text trace → IsWritten (counted_fields (lines_of text)) trace }
{}

/// A trace that has what each trace has that was read or made is printed as a text that is that trace, where that text is not too long to be read.
pub fn printed_reads_back()
    ensures { (trace : Trace) → IsFormed trace → length (text_of_trace trace) ≤ longest_text → IsTraceText (text_of_trace trace) trace }
{}

/// A text with a first fault is no trace, and has no other first fault. So a reader names a fault only outside the grammar,
/// and there is one that it may name.
pub fn one_fault()
    ensures no_trace { (text : List ℕ) (trace : Trace) (line : ℕ) (kind : Kind) →
        IsTraceText text trace → IsFirstFault text line kind → ⊥ }
    ensures one { (text : List ℕ) (line other_line : ℕ) (kind other_kind : Kind) →
        IsFirstFault text line kind → IsFirstFault text other_line other_kind → (line ≡ other_line) × (kind ≡ other_kind) }
{}
