//! Laws of the definitions, each the contract of a function with nothing to do.
ghost use Rattle.varint.specs.Number.{BytesAreReadBack, NumbersAreReadBack};

/// What was written is read back, whatever stands behind it.
pub fn what_was_written_is_read_back()
    ensures numbers { NumbersAreReadBack }
    ensures bytes { BytesAreReadBack }
{}
