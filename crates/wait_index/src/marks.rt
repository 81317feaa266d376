//! The marked nodes and open labels of a graph, and how they spread.
ghost use Rattle.std.specs.Prelude.{◌≡◌, ℕ, ◌+◌, ◌^◌, ◌<◌, ◌≤◌, true, false, [], ◌∷◌, ◌++◌, length};
ghost use Rattle.std.specs.Prelude.{slice_index, min, vec_capacity, OnOk, IsOk};
ghost use Rattle.wait_index.specs.Inside.Capacity.{GrowsMarks, HasMarksRoom};
ghost use Rattle.wait_index.specs.Inside.Step.{Follows, Spreads};
ghost use Rattle.wait_index.specs.Inside.Tally.{net_of, tally_of, marks_capacity, HasSizes};
ghost use Rattle.wait_index.specs.Inside.Tally.{MarksNode, Releases, SettlesLabel, Supports};

use crate::graph::Graph;
use crate::label_set::LabelSet;
use crate::node_set::NodeSet;
use std::alloc::{AllocError, Global};

/// The marked nodes, how many followed offer edges lead to each label, whether the wait edges of
/// each label are followed, the labels whose wait edges are to be looked at again, and the visits:
/// one more for each edge that is followed, one less for each that is taken back.
#[derive(Drop)]
pub(crate) struct Marks {
    pub(crate) marked: NodeSet,
    pub(crate) support: Vec<u32>,
    pub(crate) opened: Vec<bool>,
    pub(crate) touched: LabelSet,
    pub(crate) visits: usize,
}

impl Marks {
    pub(crate) fn new(alloc: Global) -> Self
        ensures { tally_of result ≡ record {
          marked = [];
          places = [];
          support = [];
          opened = [];
          touched = [];
          touched_places = [];
          visits = 0;
        } }
    {
        Marks {
            marked: NodeSet::new(alloc),
            support: Vec::new(alloc),
            opened: Vec::new(alloc),
            touched: LabelSet::new(alloc),
            visits: 0,
        }
    }

    /// Makes room for this many more nodes and labels.
    pub(crate) fn try_reserve(&mut self, nodes: usize, labels: usize) -> Result<(), AllocError>
        ensures grows { GrowsMarks self.old self.new }
        ensures ok { OnOk result (HasMarksRoom self.new nodes labels) }
    {
        self.marked.try_reserve(nodes)?;
        self.support.try_reserve(labels)?;
        self.opened.try_reserve(labels)?;
        self.touched.try_reserve(labels)?;
        Ok(())
    }

    /// Adds a node that is not marked.
    pub(crate) fn add_node(&mut self)
        requires room { length self.old.marked.places.items < (marks_capacity self.old).nodes }
        requires few { length self.old.marked.places.items + 1 < 2 ^ 32 }
        ensures tally { tally_of self.new
            ≡ record (tally_of self.old) { places = self.old.marked.places.items ++ 0 ∷ [] } }
        ensures capacity { marks_capacity self.new ≡ marks_capacity self.old }
    {
        self.marked.add_node();
    }

    /// Adds a label that is not open.
    pub(crate) fn add_label(&mut self)
        requires support { length self.old.support.items < (marks_capacity self.old).labels }
        requires opened { length self.old.opened.items < (marks_capacity self.old).labels }
        requires touched { length self.old.touched.places.items < (marks_capacity self.old).labels }
        requires few { length self.old.touched.places.items + 1 < 2 ^ 32 }
        ensures tally { tally_of self.new ≡ record (tally_of self.old) {
          support = self.old.support.items ++ 0 ∷ [];
          opened = self.old.opened.items ++ false ∷ [];
          touched_places = self.old.touched.places.items ++ 0 ∷ [];
        } }
        ensures capacity { marks_capacity self.new ≡ marks_capacity self.old }
    {
        self.support.push_reserved(0);
        self.opened.push_reserved(false);
        self.touched.add_label();
    }

    /// Follows what comes from the marked nodes from the cursor on, also from those that are marked
    /// meanwhile.
    pub(crate) fn follow_all(&mut self, graph: &Graph, cursor: usize)
        requires follows { Follows (net_of graph.now) (tally_of self.old) cursor 0 0 }
        requires cursor { cursor ≤ length self.old.marked.items.items }
        requires few { length graph.now.offers.edges.items + length graph.now.waits.edges.items
            < 2 ^ 32 }
        ensures follows { Follows (net_of graph.now) (tally_of self.new)
            (length self.new.marked.items.items) 0 0 }
        ensures spreads { Spreads (tally_of self.old) (tally_of self.new) }
        ensures capacity { marks_capacity self.new ≡ marks_capacity self.old }
    {
        let mut cursor = cursor;
        'nodes: while cursor < self.marked.items.len() {
            self.follow_offers(graph, cursor);
            cursor += 1;
        }
    }

    /// Follows the offer edges of the marked node at the cursor.
    fn follow_offers(&mut self, graph: &Graph, cursor: usize)
        requires follows { Follows (net_of graph.now) (tally_of self.old) cursor 0 0 }
        requires cursor { cursor < length self.old.marked.items.items }
        requires few { length graph.now.offers.edges.items + length graph.now.waits.edges.items
            < 2 ^ 32 }
        ensures follows { Follows (net_of graph.now) (tally_of self.new) (cursor + 1) 0 0 }
        ensures spreads { Spreads (tally_of self.old) (tally_of self.new) }
        ensures capacity { marks_capacity self.new ≡ marks_capacity self.old }
    {
        let node = self.marked.items[cursor].index();
        let mut link = graph.offers.newest[node];
        'offers: while link > 0 {
            let edge = link as usize - 1;
            self.follow_offer(graph, graph.offers.edges[edge].to as usize);
            link = graph.offers.earlier[edge];
        }
    }

    /// Follows an offer edge to the label.
    pub(crate) fn follow_offer(&mut self, graph: &Graph, label: usize)
        requires sizes { HasSizes (net_of graph.now) (tally_of self.old) }
        requires label { label < length graph.now.closed.items }
        requires visits { self.old.visits + 1 + length graph.now.waits.edges.items < 2 ^ 64 }
        requires support { slice_index self.old.support.items label + 1 < 2 ^ 32 }
        ensures supported { Supports (net_of graph.now) label (tally_of self.old)
            (tally_of self.new) }
        ensures capacity { marks_capacity self.new ≡ marks_capacity self.old }
    {
        self.visits += 1;
        self.support[label] += 1;
        self.settle(graph, label);
    }

    /// Opens the label if a followed edge leads to it and it is neither closed nor open.
    pub(crate) fn settle(&mut self, graph: &Graph, label: usize)
        requires sizes { HasSizes (net_of graph.now) (tally_of self.old) }
        requires label { label < length graph.now.closed.items }
        requires visits { self.old.visits + length graph.now.waits.edges.items < 2 ^ 64 }
        ensures settled { SettlesLabel (net_of graph.now) label (tally_of self.old)
            (tally_of self.new) }
        ensures capacity { marks_capacity self.new ≡ marks_capacity self.old }
    {
        if self.support[label] > 0 && !graph.closed[label] && !self.opened[label] {
            self.opened[label] = true;
            self.release(graph, label);
        }
    }

    /// Follows the wait edges of the label: marks each node that awaits it.
    fn release(&mut self, graph: &Graph, label: usize)
        requires sizes { HasSizes (net_of graph.now) (tally_of self.old) }
        requires label { label < length graph.now.closed.items }
        requires visits { self.old.visits + length graph.now.waits.edges.items < 2 ^ 64 }
        ensures released { Releases (net_of graph.now) label (tally_of self.old)
            (tally_of self.new) }
        ensures capacity { marks_capacity self.new ≡ marks_capacity self.old }
    {
        let mut link = graph.waits.newest[label];
        'waits: while link > 0 {
            let edge = link as usize - 1;
            self.visits += 1;
            self.mark(graph.waits.edges[edge].to as usize);
            link = graph.waits.earlier[edge];
        }
    }

    /// Marks the node.
    pub(crate) fn mark(&mut self, node: usize)
        requires { node < length self.old.marked.places.items }
        ensures marked { MarksNode node (tally_of self.old) (tally_of self.new) }
        ensures capacity { marks_capacity self.new ≡ marks_capacity self.old }
    {
        if !self.marked.holds(node) {
            self.marked.insert(node);
        }
    }
}
