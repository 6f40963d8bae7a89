//! One list of pages, with its length.
ghost use Rattle.std.specs.Prelude.{◌≡◌, ◌+◌, ◌-◌, ◌<◌, ◌≤◌, ◌^◌, ◌∷◌, Some, None, IsSome, IfOk, length};
ghost use Rattle.arc_links.specs.PlainLinks.{element_at, last_place, no_links, placed, without_place};

use arc_links::Links;
use key_table::NoMemory;
use std::alloc::Global;
use std::marker::Model;

/// A linked list of pages. Contracts see its links.
#[derive(Debug, Drop)]
pub(crate) struct Pages {
    links: Links<u64>,
    len: u32,
}

impl Model for Pages {
    ghost use Rattle.std.specs.Prelude.{ℕ};
    ghost use Rattle.arc_links.specs.PlainLinks.{PlainLinks, links_code};
    ghost use Rattle.std.specs.Coded.{coded_ℕ};

    ghost Value = { PlainLinks ℕ };

    ghost coded = { links_code coded_ℕ };

    ghost use Rattle.arc_paper.specs.Pages.{IsCounted};

    ghost view = { λ pages. pages.links };

    ghost invariant = { IsCounted };
}

impl Pages {
    /// An empty list with room for so many pages.
    pub(crate) fn new(alloc: Global, room: usize) -> Result<Pages, NoMemory>
        requires { room ≤ 2 ^ 31 }
        ensures { IfOk result (λ pages. pages ≡ record no_links { spare = room }) }
    {
        let mut links = Links::new(alloc);
        match links.reserve(room) {
            Ok(()) => Ok(Pages { links, len: 0 }),
            Err(arc_links::NoMemory) => Err(NoMemory),
        }
    }

    /// How many pages there are.
    pub(crate) fn len(&self) -> u32
        ensures { result ≡ length self.now.nodes }
    {
        self.len
    }

    /// Puts a page at the head, and answers its place.
    pub(crate) fn push_head(&mut self, x: u64) -> usize
        requires { 0 < self.old.spare }
        ensures free { element_at result self.old.nodes ≡ None }
        ensures links { self.new ≡ record { nodes = placed result x ∷ self.old.nodes; spare = self.old.spare - 1 } }
    {
        self.len += 1;
        self.links.push_head(x)
    }

    /// Takes the page at a place off the list.
    pub(crate) fn remove(&mut self, at: usize) -> u64
        requires { IsSome (element_at at self.old.nodes) }
        ensures page { element_at at self.old.nodes ≡ Some result }
        ensures links { self.new ≡ record { nodes = without_place at self.old.nodes; spare = self.old.spare + 1 } }
    {
        self.len -= 1;
        self.links.remove(at)
    }

    /// The place of the last page.
    pub(crate) fn last(&self) -> Option<usize>
        ensures { result ≡ last_place self.now.nodes }
    {
        self.links.last()
    }
}
