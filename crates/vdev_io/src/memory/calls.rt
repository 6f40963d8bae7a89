//! The calls of an object in memory, numbered from 0, of which some are to fail.
ghost use Rattle.std.specs.Prelude.{◌≡◌, ◌+◌, ◌≤◌, is_err};
ghost use Rattle.vdev_io.specs.Faults.{Rose, CountsFault, HasCause, sum_of_counts};
ghost use Rattle.vdev_io.specs.Memory.{CallLog, after_call, is_to_fail, new_log};

use crate::fault::Failed;
use std::marker::Model;

/// Which calls of an object are to fail, and how many have. A call is named by its number, from 0.
#[derive(Debug, Drop)]
pub(crate) struct Calls {
    fail: Vec<u64>,
    made: u64,
    faults: u64,
}

impl Model for Calls {
    ghost Value = { CallLog };

    ghost view = { λ calls. record { fail = calls.fail.items; made = calls.made; faults = calls.faults } };
}

impl Calls {
    /// No call was made yet.
    pub(crate) fn new(fail: Vec<u64>) -> Calls
        ensures { result ≡ new_log fail.items }
    {
        Calls {
            fail,
            made: 0,
            faults: 0,
        }
    }

    /// Counts a call, and fails it where it is one of those that are to fail.
    pub(crate) fn begin(&mut self) -> Result<(), Failed>
        ensures listed { is_err result ≡ is_to_fail self.old }
        ensures calls { self.new ≡ after_call self.old }
        ensures cause { HasCause self.old.faults self.new.faults result }
        ensures fault { CountsFault self.old.faults self.new.faults result }
    {
        let fails = self.fail.contains(&self.made);
        self.made = self.made.saturating_add(1);
        if fails { Err(self.fault()) } else { Ok(()) }
    }

    /// How many calls failed.
    pub(crate) fn faults(&self) -> u64
        ensures { result ≡ self.now.faults }
    {
        self.faults
    }

    /// Adds a count of faults.
    pub(crate) fn absorb(&mut self, faults: u64)
        ensures { self.new ≡ record self.old { faults = sum_of_counts self.old.faults faults } }
    {
        self.faults = self.faults.saturating_add(faults);
    }

    /// Counts a fault.
    pub(crate) fn fault(&mut self) -> Failed
        ensures rose { Rose self.old.faults self.new.faults }
        ensures never_falls { self.old.faults ≤ self.new.faults }
        ensures counted { self.new ≡ record self.old { faults = sum_of_counts self.old.faults 1 } }
    {
        self.faults = self.faults.saturating_add(1);
        Failed
    }
}
