//! The four lists as linked lists.
ghost use Rattle.std.specs.Prelude.{◌≡◌, ℕ, ◌+◌, ◌-◌, ◌<◌, ◌≤◌, ◌^◌, ◌∷◌, Some, None, IsSome, IfOk, length};
ghost use Rattle.arc_links.specs.PlainLinks.{element_at, last_place, no_links, placed, without_place};
ghost use Rattle.arc_paper.specs.declared.queue.Queue.{Queue as QueueName};
ghost use Rattle.arc_paper.specs.Queues.{links_in, nodes_in, with_links};

use crate::pages::Pages;
use crate::queue::Queue;
use key_table::NoMemory;
use std::alloc::Global;

/// The four lists, each page at a place of its own.
#[derive(Debug, Drop)]
pub(crate) struct Queues {
    pub(crate) t1: Pages,
    pub(crate) t2: Pages,
    pub(crate) b1: Pages,
    pub(crate) b2: Pages,
}

impl Queues {
    /// Empty lists, each with room for so many pages.
    pub(crate) fn new(alloc: Global, room: usize) -> Result<Queues, NoMemory>
        requires { room ≤ 2 ^ 31 }
        ensures { IfOk result (λ queues. (queue : QueueName) → links_in queue queues ≡ record no_links { spare = room }) }
    {
        Ok(Queues {
            t1: Pages::new(alloc, room)?,
            t2: Pages::new(alloc, room)?,
            b1: Pages::new(alloc, room)?,
            b2: Pages::new(alloc, room)?,
        })
    }

    /// Puts a page at the head of a list, and answers its place.
    pub(crate) fn push_head(&mut self, queue: Queue, x: u64) -> usize
        requires { 0 < (links_in queue self.old).spare }
        ensures free { element_at result (nodes_in queue self.old) ≡ None }
        ensures links { self.new ≡ with_links queue
            (record { nodes = placed result x ∷ nodes_in queue self.old; spare = (links_in queue self.old).spare - 1 }) self.old }
    {
        match queue {
            Queue::T1 => self.t1.push_head(x),
            Queue::T2 => self.t2.push_head(x),
            Queue::B1 => self.b1.push_head(x),
            Queue::B2 => self.b2.push_head(x),
        }
    }

    /// Takes the page at a place off its list.
    pub(crate) fn remove(&mut self, queue: Queue, at: usize) -> u64
        requires { IsSome (element_at at (nodes_in queue self.old)) }
        ensures page { element_at at (nodes_in queue self.old) ≡ Some result }
        ensures links { self.new ≡ with_links queue
            (record { nodes = without_place at (nodes_in queue self.old); spare = (links_in queue self.old).spare + 1 }) self.old }
    {
        match queue {
            Queue::T1 => self.t1.remove(at),
            Queue::T2 => self.t2.remove(at),
            Queue::B1 => self.b1.remove(at),
            Queue::B2 => self.b2.remove(at),
        }
    }

    /// The place of the last page of a list.
    pub(crate) fn last(&self, queue: Queue) -> Option<usize>
        ensures { result ≡ last_place (nodes_in queue self.now) }
    {
        match queue {
            Queue::T1 => self.t1.last(),
            Queue::T2 => self.t2.last(),
            Queue::B1 => self.b1.last(),
            Queue::B2 => self.b2.last(),
        }
    }

    /// How many pages a list has.
    pub(crate) fn len(&self, queue: Queue) -> u32
        ensures { result ≡ length (nodes_in queue self.now) }
    {
        match queue {
            Queue::T1 => self.t1.len(),
            Queue::T2 => self.t2.len(),
            Queue::B1 => self.b1.len(),
            Queue::B2 => self.b2.len(),
        }
    }
}
