//! The nodes, labels and edges of an index.
ghost use Rattle.std.specs.Prelude.{◌≡◌, ℕ, ◌+◌, ◌^◌, ◌<◌, ◌≤◌, true, false, [], ◌∷◌, ◌++◌, length};
ghost use Rattle.std.specs.Prelude.{All, OnOk, IsOk, vec_capacity};
ghost use Rattle.wait_index.specs.Inside.Shape.{IsShaped};

use crate::edges::{Edge, Edges};
use crate::number::LabelNo;
use std::alloc::{AllocError, Global};

/// How many nodes, how many labels and how many edges an index holds at most.
const MOST: usize = 0xffff_ffff;

/// Which nodes are roots, which labels are closed, and the edges.
#[derive(Drop)]
pub(crate) struct Graph {
    pub(crate) roots: Vec<bool>,
    pub(crate) closed: Vec<bool>,
    pub(crate) offers: Edges,
    pub(crate) waits: Edges,
    ghost shaped: { IsShaped roots.items closed.items offers.edges.items offers.newest.items
        waits.edges.items waits.newest.items },
}

impl Graph {
    ghost use Rattle.wait_index.specs.Inside.Capacity.{graph_capacity, GrowsGraph, HasGraphRoom};
    ghost use Rattle.wait_index.specs.Net.{with_node, with_label, with_offer, with_wait, with_root};
    ghost use Rattle.wait_index.specs.Net.{with_closed, with_all_closed, has_wait};
    ghost use Rattle.wait_index.specs.Inside.Tally.{net_of};

    pub(crate) fn new(alloc: Global) -> Self
        ensures { net_of result ≡ record { roots = []; closed = []; offers = []; waits = [] } }
    {
        Graph {
            roots: Vec::new(alloc),
            closed: Vec::new(alloc),
            offers: Edges::new(alloc),
            waits: Edges::new(alloc),
        }
    }

    /// Makes room for this many more nodes, labels and edges of each kind. There are at most `MOST`
    /// nodes, at most `MOST` labels, and at most `MOST` edges of both kinds together.
    pub(crate) fn try_reserve(
        &mut self,
        nodes: usize,
        labels: usize,
        edges: usize,
    ) -> Result<(), AllocError>
        requires nodes { length self.old.roots.items < 2 ^ 32 }
        requires labels { length self.old.closed.items < 2 ^ 32 }
        requires edges { length self.old.offers.edges.items + length self.old.waits.edges.items
            < 2 ^ 32 }
        ensures grows { GrowsGraph self.old self.new }
        ensures ok { OnOk result (HasGraphRoom self.new nodes labels edges) }
    {
        let node_count = self.roots.len();
        let label_count = self.closed.len();
        let edge_count = self.offers.edges.len() + self.waits.edges.len();
        self.try_number(node_count, nodes)?;
        self.try_number(label_count, labels)?;
        self.try_number(edge_count, edges)?;
        self.roots.try_reserve(nodes)?;
        self.closed.try_reserve(labels)?;
        self.offers.try_reserve(nodes, edges)?;
        self.waits.try_reserve(labels, edges)?;
        Ok(())
    }

    /// The numbers of this many and of `more` of them have to fit 32 bits: past `MOST` it asks for
    /// a growth that is always refused.
    fn try_number(&mut self, count: usize, more: usize) -> Result<(), AllocError>
        requires { count < 2 ^ 32 }
        ensures grows { GrowsGraph self.old self.new }
        ensures ok { OnOk result (count + more < 2 ^ 32) }
    {
        if more > MOST - count {
            self.roots.try_reserve(usize::MAX)?;
        }
        Ok(())
    }

    /// Adds a node that is not a root and has no edge.
    pub(crate) fn add_node(&mut self)
        requires { length self.old.roots.items < (graph_capacity self.old).nodes }
        ensures net { net_of self.new ≡ with_node (net_of self.old) }
        ensures capacity { graph_capacity self.new ≡ graph_capacity self.old }
    {
        self.roots.push_reserved(false);
        self.offers.add_owner();
    }

    /// Adds a label that has no edge.
    pub(crate) fn add_label(&mut self, closed: bool)
        requires { length self.old.closed.items < (graph_capacity self.old).labels }
        ensures net { net_of self.new ≡ with_label (net_of self.old) closed }
        ensures capacity { graph_capacity self.new ≡ graph_capacity self.old }
    {
        self.closed.push_reserved(closed);
        self.waits.add_owner();
    }

    pub(crate) fn label_count(&self) -> usize
        ensures { result ≡ length self.now.closed.items }
    {
        self.closed.len()
    }

    pub(crate) fn add_offer(&mut self, node: u32, label: u32)
        requires node { node < length self.old.roots.items }
        requires label { label < length self.old.closed.items }
        requires room { length self.old.offers.edges.items < (graph_capacity self.old).offers }
        requires few { length self.old.offers.edges.items + 1 < 2 ^ 32 }
        ensures net { net_of self.new ≡ with_offer (net_of self.old) node label }
        ensures capacity { graph_capacity self.new ≡ graph_capacity self.old }
    {
        self.offers.add(Edge {
            from: node,
            to: label,
        });
    }

    pub(crate) fn add_wait(&mut self, label: u32, node: u32)
        requires label { label < length self.old.closed.items }
        requires node { node < length self.old.roots.items }
        requires once { has_wait (net_of self.old) node ≡ false }
        requires room { length self.old.waits.edges.items < (graph_capacity self.old).waits }
        requires few { length self.old.waits.edges.items + 1 < 2 ^ 32 }
        ensures net { net_of self.new ≡ with_wait (net_of self.old) label node }
        ensures capacity { graph_capacity self.new ≡ graph_capacity self.old }
    {
        self.waits.add(Edge {
            from: label,
            to: node,
        });
    }

    /// Makes the node a root.
    pub(crate) fn add_root(&mut self, node: usize)
        requires { node < length self.old.roots.items }
        ensures net { net_of self.new ≡ with_root (net_of self.old) node }
        ensures capacity { graph_capacity self.new ≡ graph_capacity self.old }
    {
        self.roots[node] = true;
    }

    /// Closes the labels.
    pub(crate) fn close_all(&mut self, labels: &[LabelNo])
        requires { All (λ label. label < length self.old.closed.items) labels.now }
        ensures net { net_of self.new ≡ with_all_closed (net_of self.old) labels.now }
        ensures capacity { graph_capacity self.new ≡ graph_capacity self.old }
    {
        for label in labels {
            self.close(label.index());
        }
    }

    fn close(&mut self, label: usize)
        requires { label < length self.old.closed.items }
        ensures net { net_of self.new ≡ with_closed (net_of self.old) label }
        ensures capacity { graph_capacity self.new ≡ graph_capacity self.old }
    {
        self.closed[label] = true;
    }
}
