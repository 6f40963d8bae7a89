//! The nodes of a list, and how a node's neighbours are set.
ghost use Rattle.std.specs.Prelude.{◌≡◌, ℕ, Bool, nat_eq, if◌then◌else◌};
ghost use Rattle.std.specs.Option.{option_map};
ghost use Rattle.slab.specs.Slab.{ContainsKey, get, slab_len};

use slab::Slab;

/// The link of a node that has no neighbour on that side. No node stands there: a place is below the capacity of a slab.
pub const NO_PLACE: usize = usize::MAX;

/// An element, and the places of its neighbours.
#[derive(Clone, Copy, Debug, Drop)]
pub struct Node<T> {
    pub toward_head: usize,
    pub toward_last: usize,
    pub element: T,
}

ghost use Rattle.arc_links.specs.Nodes.{facing_head, facing_last, neighbour_of};

/// The place that a link names.
pub fn neighbour(link: usize) -> Option<usize>
    ensures { result ≡ neighbour_of link }
{
    if link == NO_PLACE { None } else { Some(link) }
}

/// Names the neighbour toward the head of the node at `at`.
pub fn set_toward_head<T: Copy>(nodes: &mut Slab<Node<T>>, at: usize, to: usize)
    requires { ContainsKey nodes.old at }
    ensures nodes { (q : ℕ) → get nodes.new q ≡ (if nat_eq q at then option_map (facing_head to) (get nodes.old q) else get nodes.old q) }
    ensures len { slab_len nodes.new ≡ slab_len nodes.old }
    ensures capacity { nodes.new.capacity ≡ nodes.old.capacity }
{
    nodes[at].toward_head = to;
}

/// Names the neighbour toward the last of the node at `at`.
pub fn set_toward_last<T: Copy>(nodes: &mut Slab<Node<T>>, at: usize, to: usize)
    requires { ContainsKey nodes.old at }
    ensures nodes { (q : ℕ) → get nodes.new q ≡ (if nat_eq q at then option_map (facing_last to) (get nodes.old q) else get nodes.old q) }
    ensures len { slab_len nodes.new ≡ slab_len nodes.old }
    ensures capacity { nodes.new.capacity ≡ nodes.old.capacity }
{
    nodes[at].toward_last = to;
}
