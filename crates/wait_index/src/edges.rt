//! Edges in the order in which they were added, with a list of the edges of each owner through
//! them.
ghost use Rattle.std.specs.Prelude.{◌≡◌, ℕ, ◌+◌, ◌^◌, ◌<◌, ◌≤◌, [], ◌∷◌, ◌++◌, length, IsOk, OnOk};
ghost use Rattle.std.specs.Prelude.{◌==◌, vec_len, vec_capacity};
ghost use Rattle.std.specs.List.{list_any};
ghost use Rattle.wait_index.specs.Inside.Links.{AreLinked};

use std::alloc::{AllocError, Global};

/// An edge from its owner. An offer edge leads from a node to a label, a wait edge from a label to
/// a node.
#[derive(Clone, Copy, Debug, PartialEq, Eq)]
pub(crate) struct Edge {
    pub(crate) from: u32,
    pub(crate) to: u32,
}

/// A link is the number of an edge plus 1, or 0 if no edge is left.
#[derive(Drop)]
pub(crate) struct Edges {
    pub(crate) edges: Vec<Edge>,
    pub(crate) newest: Vec<u32>,
    pub(crate) earlier: Vec<u32>,
    ghost linked: { AreLinked edges.items newest.items earlier.items },
}

impl Edges {
    ghost use Rattle.wait_index.specs.Inside.Room.{GrowsEdges, HasEdgesRoom, owners_room};
    ghost use Rattle.wait_index.specs.Inside.Room.{edges_room};

    pub(crate) fn new(alloc: Global) -> Self
        ensures edges { result.edges.items ≡ [] }
        ensures owners { result.newest.items ≡ [] }
    {
        Edges {
            edges: Vec::new(alloc),
            newest: Vec::new(alloc),
            earlier: Vec::new(alloc),
        }
    }

    /// Makes room for this many more owners and edges.
    pub(crate) fn try_reserve(&mut self, owners: usize, edges: usize) -> Result<(), AllocError>
        ensures grows { GrowsEdges self.old self.new }
        ensures ok { OnOk result (HasEdgesRoom self.new owners edges) }
    {
        self.newest.try_reserve(owners)?;
        self.edges.try_reserve(edges)?;
        self.earlier.try_reserve(edges)?;
        Ok(())
    }

    /// Adds an owner that has no edge yet.
    pub(crate) fn add_owner(&mut self)
        requires { length self.old.newest.items < owners_room self.old }
        ensures edges { self.new.edges.items ≡ self.old.edges.items }
        ensures owners { length self.new.newest.items ≡ length self.old.newest.items + 1 }
        ensures owners_room { owners_room self.new ≡ owners_room self.old }
        ensures edges_room { edges_room self.new ≡ edges_room self.old }
    {
        self.newest.push_reserved(0);
    }

    pub(crate) fn add(&mut self, edge: Edge)
        requires owner { edge.from < length self.old.newest.items }
        requires room { length self.old.edges.items < edges_room self.old }
        requires few { length self.old.edges.items + 1 < 2 ^ 32 }
        ensures edges { self.new.edges.items ≡ self.old.edges.items ++ edge ∷ [] }
        ensures owners { length self.new.newest.items ≡ length self.old.newest.items }
        ensures owners_room { owners_room self.new ≡ owners_room self.old }
        ensures edges_room { edges_room self.new ≡ edges_room self.old }
    {
        self.edges.push_reserved(edge);
        self.earlier.push_reserved(self.newest[edge.from as usize]);
        self.newest[edge.from as usize] = self.edges.len() as u32;
    }

    /// Whether an edge leads there. It looks at each edge.
    pub(crate) fn has_edge_to(&self, there: usize) -> bool
        ensures { result ≡ list_any (λ edge. edge.to == there) self.now.edges.items }
    {
        self.edges.iter().any(|edge| edge.to as usize == there)
    }
}
