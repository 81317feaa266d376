//! A set of nodes in the order in which they were put in.
ghost use Rattle.std.specs.Prelude.{◌≡◌, ℕ, ◌+◌, ◌^◌, ◌<◌, ◌≤◌, ◌==◌, ◌&&◌, not, true, false, []};
ghost use Rattle.std.specs.Prelude.{◌∷◌, ◌++◌, length, slice_set, OnOk, vec_capacity};
ghost use Rattle.wait_index.specs.Inside.Listing.{IsListing, holds};

use crate::number::NodeNo;
use std::alloc::{AllocError, Global};

/// The place of a node is its index in the list plus 1, or 0 if it is not in the set. There is room
/// in the list for each node.
#[derive(Drop)]
pub(crate) struct NodeSet {
    pub(crate) items: Vec<NodeNo>,
    pub(crate) places: Vec<u32>,
    ghost listed: { IsListing items.items places.items },
    ghost roomy: { length places.items ≤ vec_capacity items },
    ghost few: { length places.items < 2 ^ 32 },
}

impl NodeSet {
    ghost use Rattle.wait_index.specs.Inside.Room.{GrowsNodes, HasNodesRoom};

    pub(crate) fn new(alloc: Global) -> Self
        ensures items { result.items.items ≡ [] }
        ensures places { result.places.items ≡ [] }
    {
        NodeSet {
            items: Vec::new(alloc),
            places: Vec::new(alloc),
        }
    }

    /// Makes room for this many more nodes.
    pub(crate) fn try_reserve(&mut self, nodes: usize) -> Result<(), AllocError>
        ensures grows { GrowsNodes self.old self.new }
        ensures ok { OnOk result (HasNodesRoom self.new nodes) }
    {
        self.places.try_reserve(nodes)?;
        let unlisted = self.places.len() - self.items.len();
        self.items.try_reserve(unlisted + nodes)?;
        Ok(())
    }

    /// Adds a node that is not in the set.
    pub(crate) fn add_node(&mut self)
        requires items_room { length self.old.places.items < vec_capacity self.old.items }
        requires places_room { length self.old.places.items < vec_capacity self.old.places }
        requires few { length self.old.places.items + 1 < 2 ^ 32 }
        ensures items { self.new.items.items ≡ self.old.items.items }
        ensures places { self.new.places.items ≡ self.old.places.items ++ 0 ∷ [] }
        ensures items_room { vec_capacity self.new.items ≡ vec_capacity self.old.items }
        ensures places_room { vec_capacity self.new.places ≡ vec_capacity self.old.places }
    {
        self.places.push_reserved(0);
    }

    pub(crate) fn holds(&self, node: usize) -> bool
        requires { node < length self.now.places.items }
        ensures { result ≡ holds self.now.places.items node }
    {
        self.places[node] > 0
    }

    /// Puts a node that is not in the set at the end of the list.
    pub(crate) fn insert(&mut self, node: usize)
        requires node { node < length self.old.places.items }
        requires absent { holds self.old.places.items node ≡ false }
        ensures items { self.new.items.items ≡ self.old.items.items ++ node ∷ [] }
        ensures places { self.new.places.items
            ≡ slice_set self.old.places.items node (length self.old.items.items + 1) }
        ensures items_room { vec_capacity self.new.items ≡ vec_capacity self.old.items }
        ensures places_room { vec_capacity self.new.places ≡ vec_capacity self.old.places }
    {
        self.items.push_reserved(NodeNo::new(node as u32));
        self.places[node] = self.items.len() as u32;
    }

    /// Takes a node out of the set. The last one of the list takes its place.
    pub(crate) fn remove(&mut self, node: usize)
        requires node { node < length self.old.places.items }
        requires present { holds self.old.places.items node ≡ true }
        ensures held { (n : ℕ) → holds self.new.places.items n
            ≡ (holds self.old.places.items n && not (n == node)) }
        ensures size { length self.new.places.items ≡ length self.old.places.items }
        ensures items_room { vec_capacity self.new.items ≡ vec_capacity self.old.items }
        ensures places_room { vec_capacity self.new.places ≡ vec_capacity self.old.places }
    {
        let index = self.places[node] - 1;
        let last = self.items[self.items.len() - 1];
        self.places[last.index()] = index + 1;
        self.places[node] = 0;
        let _ = self.items.swap_remove(index as usize);
    }
}
