//! Laws of a run, each the contract of a function that does nothing.
ghost use Rattle.trace_run.specs.Complete.{EndsInOrder};
ghost use Rattle.trace_run.specs.InPlace.{RefusesNothing};

use std::marker::PhantomData;
use vdev_io::{CacheDev, Pool};

/// A law of completeness: where nothing that a trace asks for is out of place, and no fault of the pool rises, a run that comes to a
/// report answers each line, refuses none, and has the status 0.
pub fn nothing_in_place_is_refused<P: Pool, D: CacheDev>(
    _pool: PhantomData<P>,
    _device: PhantomData<D>,
)
    ensures { RefusesNothing P.Pool D.CacheDev }
{}

/// A law of completeness: where the source tells a trace of which nothing is out of place, and no count of faults rises, the command `run` ends with
/// the status 0, or memory was refused.
pub fn traces_in_place_are_done<P: Pool, D: CacheDev>(
    _pool: PhantomData<P>,
    _device: PhantomData<D>,
)
    ensures { EndsInOrder P.Pool D.CacheDev }
{}
