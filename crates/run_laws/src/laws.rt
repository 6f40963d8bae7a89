//! Laws of two runs, each the contract of a function that does nothing.
ghost use Rattle.run_laws.specs.Alike.{ReportsAreRuns, RunsAreAlike};

use std::marker::PhantomData;
use vdev_io::{CacheDev, Pool};

/// A law of one caller: two runs of one trace over the same bytes, of which the same calls failed, come to the same report, or two
/// contents of one digest are in hand, or a feed wanted memory.
pub fn one_callers_runs_are_alike<P: Pool, D: CacheDev>(
    _pool: PhantomData<P>,
    _device: PhantomData<D>,
)
    ensures { RunsAreAlike P.Pool D.CacheDev }
{}

/// Each report of `run` with one caller, of a trace with a line on an object, a sync or a feed, is of a run of which the law above speaks.
pub fn one_callers_reports_are_runs<P: Pool, D: CacheDev>(
    _pool: PhantomData<P>,
    _device: PhantomData<D>,
)
    ensures { ReportsAreRuns P.Pool D.CacheDev }
{}
