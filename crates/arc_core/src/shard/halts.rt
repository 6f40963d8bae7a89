//! Where the scans of a shard stand between two calls.
ghost use Rattle.std.specs.Prelude.{◌≡◌, IsTrue, None, Some};
ghost use Rattle.arc_core.specs.Halts.{AreForgotten};

use crate::event::Event;
use crate::table::search::Search;
use crate::table::walk::Walk;

/// How far the search for the victims of an event has come.
#[derive(Clone, Copy, Debug, Drop)]
pub struct Sought {
    /// The event. None: no search has begun.
    pub event: Option<Event>,
    pub search: Search,
}

impl Sought {
    /// Whether the search has begun for this event.
    pub fn is_for(&self, e: &Event) -> bool
        ensures { IsTrue result → self.now.event ≡ Some e.now }
    {
        match &self.event {
            Some(event) => *event == *e,
            None => false,
        }
    }
}

/// Where the search for victims stands, and the walk of a feed.
#[derive(Clone, Copy, Debug, Drop)]
pub struct Halts {
    pub sought: Sought,
    pub walk: Option<Walk>,
}

impl Halts {
    pub fn none() -> Halts
        ensures { AreForgotten result }
    {
        Halts {
            sought: Sought {
                event: None,
                search: Search::none(),
            },
            walk: None,
        }
    }

    /// Forgets both: they begin anew. Mostly there is neither, and then nothing is written, so that a shard that goes from one caller to the
    /// next doesn't take these lines of memory along.
    pub fn forget(&mut self)
        ensures { AreForgotten self.new }
    {
        if self.sought.event.is_some() || self.walk.is_some() {
            self.keep_walk(None);
        }
    }

    /// Forgets the search. The walk stands here.
    pub fn keep_walk(&mut self, walk: Option<Walk>)
        ensures { self.new ≡ record { sought = record self.old.sought { event = None }; walk = walk } }
    {
        self.sought.event = None;
        self.walk = walk;
    }
}
