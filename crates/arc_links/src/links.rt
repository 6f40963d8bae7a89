//! The list itself.
ghost use Rattle.std.specs.Prelude.{◌≡◌, ℕ, ◌+◌, ◌-◌, ◌<◌, ◌∷◌, Some, None, IsSome, OnOk, OnErr, max};
ghost use Rattle.arc_links.specs.PlainLinks.{element_at, in_front, last_place, no_links, placed, without_place};

use crate::memory::NoMemory;
use crate::node::{NO_PLACE, Node, neighbour, set_toward_head, set_toward_last};
use slab::Slab;
use std::alloc::Global;
use std::marker::Model;

/// A doubly linked list. Contracts see its nodes from the head, each an element with its place, and the room that is left.
#[derive(Debug, Drop)]
pub struct Links<T> {
    nodes: Slab<Node<T>>,
    // The places of the first node and of the last one.
    head: usize,
    last: usize,
    spare: usize,
}

impl<T> Model for Links<T> {
    ghost use Rattle.arc_links.specs.PlainLinks.{PlainLinks, links_code};

    ghost Value = { PlainLinks T };

    ghost coded = { links_code T.code };

    ghost use Rattle.arc_links.specs.Linked.{plain, IsLinked};

    ghost view = { plain };

    ghost invariant = { IsLinked };
}

impl<T: Copy> Links<T> {
    /// The empty list, without room.
    pub fn new(alloc: Global) -> Links<T>
        ensures { result ≡ no_links }
    {
        Links {
            nodes: Slab::new(alloc),
            head: NO_PLACE,
            last: NO_PLACE,
            spare: 0,
        }
    }

    /// Makes room for `n` more nodes. After want of memory the list is as before.
    pub fn reserve(&mut self, n: usize) -> Result<(), NoMemory>
        ensures nodes { self.new ≡ record self.old { spare = self.new.spare } }
        ensures ok { OnOk result (self.new.spare ≡ max self.old.spare n) }
        ensures err { OnErr result (self.new ≡ self.old) }
    {
        if n > self.spare {
            self.nodes.reserve(n)?;
            // What is kept and what is spare is at most the capacity, a `usize`.
            let _capacity = self.nodes.capacity();
            self.spare = n;
        }
        Ok(())
    }

    /// For how many more nodes there is room.
    pub fn spare(&self) -> usize
        ensures { result ≡ self.now.spare }
    {
        self.spare
    }

    /// Puts an element at the head, and answers the place of its node. No other node stood there.
    pub fn push_head(&mut self, element: T) -> usize
        requires { 0 < self.old.spare }
        ensures free { element_at result self.old.nodes ≡ None }
        ensures links { self.new ≡ record self.old { nodes = placed result element ∷ self.old.nodes; spare = self.old.spare - 1 } }
    {
        let behind = self.head;
        let at = self.nodes.insert_reserved(Node {
            element,
            toward_head: NO_PLACE,
            toward_last: behind,
        });
        // A place is below the capacity, a `usize`, so it is never `NO_PLACE`.
        let _capacity = self.nodes.capacity();
        if behind == NO_PLACE {
            self.last = at;
        } else {
            set_toward_head(&mut self.nodes, behind, at);
        }
        self.head = at;
        self.spare -= 1;
        at
    }

    /// Takes the node at `at` off the list, and answers its element. Every other node keeps its place and its order.
    #[inline(always)]
    pub fn remove(&mut self, at: usize) -> T
        requires { IsSome (element_at at self.old.nodes) }
        ensures element { element_at at self.old.nodes ≡ Some result }
        ensures links { self.new ≡ record self.old { nodes = without_place at self.old.nodes; spare = self.old.spare + 1 } }
    {
        let node = self.nodes.remove(at);
        let (before, after) = (node.toward_head, node.toward_last);
        if before == NO_PLACE {
            self.head = after;
        } else {
            set_toward_last(&mut self.nodes, before, after);
        }
        if after == NO_PLACE {
            self.last = before;
        } else {
            set_toward_head(&mut self.nodes, after, before);
        }
        self.spare += 1;
        node.element
    }

    /// The place of the last node. None exactly for the empty list.
    pub fn last(&self) -> Option<usize>
        ensures { result ≡ last_place self.now.nodes }
    {
        neighbour(self.last)
    }

    /// The place of the node in front of the one at `at`, nearer the head. None exactly at the head.
    pub fn toward_head(&self, at: usize) -> Option<usize>
        requires { IsSome (element_at at self.now.nodes) }
        ensures { result ≡ last_place (in_front at self.now.nodes) }
    {
        neighbour(self.nodes[at].toward_head)
    }

    /// The element of the node at `at`.
    pub fn key_at(&self, at: usize) -> T
        requires { IsSome (element_at at self.now.nodes) }
        ensures { element_at at self.now.nodes ≡ Some result }
    {
        self.nodes[at].element
    }
}
