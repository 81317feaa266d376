//! The index as its callers see it.
ghost use Rattle.std.specs.Prelude.{◌≡◌, ℕ, ◌+◌, ◌-◌, ◌*◌, ◌^◌, ◌<◌, ◌≤◌, ◌↔◌, true, false, []};
ghost use Rattle.std.specs.Prelude.{◌∷◌, Bool, length, take, max, All, IsTrue, IsOk, OnOk, OnErr};
ghost use Rattle.std.specs.Prelude.{Contains};

use crate::graph::Graph;
use crate::last_close::LastClose;
use crate::marks::Marks;
use crate::number::{LabelNo, NodeNo};
use crate::room::Room;
use std::alloc::{AllocError, Global};
use std::marker::Model;

/// Memory ran out.
pub type NoMemory = AllocError;

/// An index of nodes and labels that says which nodes are reached.
///
/// A node offers labels and awaits at most one. The reached nodes are the roots and, if a reached
/// node offers a label that is not closed, each node that awaits the label. The reached nodes are
/// marked at all times.
#[derive(Drop)]
pub struct Reach {
    graph: Graph,
    marks: Marks,
    room: Room,
    last: LastClose,
}

impl Model for Reach {
    ghost use Rattle.wait_index.specs.Index.{Index};

    ghost Value = { Index };

    ghost use Rattle.wait_index.specs.Inside.Keep.{index_of, IsStoredIndex};

    ghost view = { λ r. index_of r.graph r.marks r.room r.last };

    ghost invariant = { λ r. IsStoredIndex r.graph r.marks r.room r.last };
}

impl Reach {
    ghost use Rattle.wait_index.specs.Net.{with_node, with_label, with_offer, with_wait, with_root};
    ghost use Rattle.wait_index.specs.Net.{IsReached, IsOpen, ListsReached, has_wait, visits_of};
    ghost use Rattle.wait_index.specs.Close.{ClosesWithWork};

    /// An index without nodes, labels and room.
    pub fn new(alloc: Global) -> Self
        ensures net { result.net ≡ record { roots = []; closed = []; offers = []; waits = [] } }
        ensures marked { result.marked ≡ [] }
        ensures reached { ListsReached result.net result.marked }
        ensures room { result.room ≡ record { nodes = 0; labels = 0; edges = 0 } }
        ensures last { result.last ≡ record { fallen = []; kept = 0 } }
    {
        Reach {
            graph: Graph::new(alloc),
            marks: Marks::new(alloc),
            room: Room {
                nodes: 0,
                labels: 0,
                edges: 0,
            },
            last: LastClose::new(alloc),
        }
    }

    /// Makes room for this many more nodes, labels and edges.
    ///
    /// # Errors
    ///
    /// [`NoMemory`] if the room was not there already and a growth was refused, or if there would
    /// be 2 to the power of 32 nodes, labels or edges, or more. Nothing changes then.
    pub fn try_reserve(&mut self, nodes: usize, labels: usize, edges: usize) -> Result<(), NoMemory>
        ensures net { self.new.net ≡ self.old.net }
        ensures marked { self.new.marked ≡ self.old.marked }
        ensures reached { ListsReached self.new.net self.new.marked }
        ensures ok { OnOk result (self.new.room ≡ record {
          nodes = max self.old.room.nodes nodes;
          labels = max self.old.room.labels labels;
          edges = max self.old.room.edges edges;
        }) }
        ensures err { OnErr result (self.new.room ≡ self.old.room) }
        ensures last { self.new.last ≡ self.old.last }

        // It is refused only if the room was not there already.
        ensures within { nodes ≤ self.old.room.nodes → labels ≤ self.old.room.labels
            → edges ≤ self.old.room.edges → IsOk result }
    {
        if self.room.covers(nodes, labels, edges) {
            return Ok(());
        }
        self.graph.try_reserve(nodes, labels, edges)?;
        self.marks.try_reserve(nodes, labels)?;
        self.last.try_reserve(self.graph.roots.len() + nodes)?;
        self.room = self.room.at_least(nodes, labels, edges);
        Ok(())
    }

    /// How many nodes, labels and edges more there is room for.
    pub fn room(&self) -> (usize, usize, usize)
        ensures nodes { result.0 ≡ self.now.room.nodes }
        ensures labels { result.1 ≡ self.now.room.labels }
        ensures edges { result.2 ≡ self.now.room.edges }
    {
        (self.room.nodes, self.room.labels, self.room.edges)
    }

    /// Adds a node that is not a root and has no edge. There is room for it (`room`).
    pub fn add_node(&mut self) -> NodeNo
        requires { 0 < self.old.room.nodes }
        ensures number { result ≡ length self.old.net.roots }
        ensures net { self.new.net ≡ with_node self.old.net }
        ensures awaits { has_wait self.new.net result ≡ false }
        ensures marked { self.new.marked ≡ self.old.marked }
        ensures reached { ListsReached self.new.net self.new.marked }
        ensures room { self.new.room ≡ record self.old.room { nodes = self.old.room.nodes - 1 } }
        ensures last { self.new.last ≡ self.old.last }
    {
        let node = NodeNo::new(self.graph.roots.len() as u32);
        self.graph.add_node();
        self.marks.add_node();
        self.room.nodes -= 1;
        node
    }

    /// Adds a label that has no edge. There is room for it (`room`).
    pub fn add_label(&mut self) -> LabelNo
        requires { 0 < self.old.room.labels }
        ensures number { result ≡ length self.old.net.closed }
        ensures net { self.new.net ≡ with_label self.old.net false }
        ensures marked { self.new.marked ≡ self.old.marked }
        ensures reached { ListsReached self.new.net self.new.marked }
        ensures room { self.new.room ≡ record self.old.room { labels = self.old.room.labels - 1 } }
        ensures last { self.new.last ≡ self.old.last }
    {
        self.add_label_that_is(false)
    }

    /// Adds a label that is closed from the start: it is never open. There is room for it (`room`).
    pub fn add_closed_label(&mut self) -> LabelNo
        requires { 0 < self.old.room.labels }
        ensures number { result ≡ length self.old.net.closed }
        ensures net { self.new.net ≡ with_label self.old.net true }
        ensures marked { self.new.marked ≡ self.old.marked }
        ensures reached { ListsReached self.new.net self.new.marked }
        ensures room { self.new.room ≡ record self.old.room { labels = self.old.room.labels - 1 } }
        ensures last { self.new.last ≡ self.old.last }
    {
        self.add_label_that_is(true)
    }

    /// The node offers the label from now on. There is room for an edge (`room`), and both are of
    /// this index.
    pub fn add_offer(&mut self, node: NodeNo, label: LabelNo)
        requires room { 0 < self.old.room.edges }
        requires node { node < length self.old.net.roots }
        requires label { label < length self.old.net.closed }
        ensures net { self.new.net ≡ with_offer self.old.net node label }
        ensures marked { ListsReached self.new.net self.new.marked }
        ensures front { take (length self.old.marked) self.new.marked ≡ self.old.marked }
        ensures room { self.new.room ≡ record self.old.room { edges = self.old.room.edges - 1 } }
        ensures last { self.new.last ≡ self.old.last }
    {
        self.room.edges -= 1;
        self.marks
            .add_offer(&mut self.graph, node.number(), label.number());
    }

    /// The node awaits the label from now on. It awaited none before (`awaits`), there is room for
    /// an edge (`room`), and both are of this index.
    pub fn add_wait(&mut self, label: LabelNo, node: NodeNo)
        requires room { 0 < self.old.room.edges }
        requires label { label < length self.old.net.closed }
        requires node { node < length self.old.net.roots }
        requires once { has_wait self.old.net node ≡ false }
        ensures net { self.new.net ≡ with_wait self.old.net label node }
        ensures marked { ListsReached self.new.net self.new.marked }
        ensures front { take (length self.old.marked) self.new.marked ≡ self.old.marked }
        ensures room { self.new.room ≡ record self.old.room { edges = self.old.room.edges - 1 } }
        ensures last { self.new.last ≡ self.old.last }
    {
        self.room.edges -= 1;
        self.marks
            .add_wait(&mut self.graph, label.number(), node.number());
    }

    /// Makes the node, which is of this index, a root: it is marked from now on.
    pub fn mark(&mut self, node: NodeNo)
        requires { node < length self.old.net.roots }
        ensures net { self.new.net ≡ with_root self.old.net node }
        ensures marked { ListsReached self.new.net self.new.marked }
        ensures front { take (length self.old.marked) self.new.marked ≡ self.old.marked }
        ensures room { self.new.room ≡ self.old.room }
        ensures last { self.new.last ≡ self.old.last }
    {
        self.marks.add_root(&mut self.graph, node.index());
    }

    /// Closes the label for good, and returns how much work that was, as
    /// [`close_labels`](Reach::close_labels) does.
    pub fn close_label(&mut self, label: LabelNo) -> usize
        requires { label < length self.old.net.closed }
        ensures { ClosesWithWork self.old (label ∷ []) self.new result }
    {
        self.close_labels(&[label])
    }

    /// Closes the labels for good, and returns how much work that was, by the number of times that
    /// it looked at an edge: once for each edge that rests on the labels, which is taken back, and
    /// once for each that is followed again, since it is reached otherwise. If none of them was
    /// open that is 0, and the marked nodes are as they were. Else their order may change. The
    /// labels may repeat, and may be closed already. [`fallen`](Reach::fallen) and
    /// [`kept`](Reach::kept) then say what fell. What bounds the work is in
    /// [`work_of_a_close`](crate::laws::work_of_a_close).
    ///
    /// First all that rests on the labels is deleted, and then all that is reached otherwise is
    /// derived again, once for all the labels: this is DRed, of A. Gupta, I. S. Mumick and V. S.
    /// Subrahmanian, "Maintaining Views Incrementally", 1993. So an edge is looked at no more than
    /// twice, however many the labels are.
    pub fn close_labels(&mut self, labels: &[LabelNo]) -> usize
        requires { All (λ label. label < length self.old.net.closed) labels.now }
        ensures { ClosesWithWork self.old labels.now self.new result }
    {
        self.marks.close(&mut self.graph, &mut self.last, labels)
    }

    /// Whether the node is reached.
    pub fn is_marked(&self, node: NodeNo) -> bool
        requires { node < length self.now.net.roots }
        ensures reached { IsTrue result ↔ IsReached self.now.net node }
        ensures listed { IsTrue result ↔ Contains self.now.marked node }
    {
        self.marks.marked.holds(node.index())
    }

    /// Whether the label is not closed and a marked node offers it.
    pub fn is_open(&self, label: LabelNo) -> bool
        requires { label < length self.now.net.closed }
        ensures { IsTrue result ↔ IsOpen self.now.net label }
    {
        self.marks.opened[label.index()]
    }

    /// Whether a wait edge leads to the node. It looks at each wait edge.
    pub fn awaits(&self, node: NodeNo) -> bool
        ensures { result ≡ has_wait self.now.net node }
    {
        self.graph.waits.has_edge_to(node.index())
    }

    /// How many edges are followed: one more for each that was followed, one less for each that a
    /// close took back.
    pub fn visits(&self) -> usize
        ensures { result ≡ visits_of self.now.net self.now.marked }
    {
        self.marks.visits
    }

    /// How many nodes, offer edges and wait edges there are.
    pub fn counts(&self) -> (usize, usize, usize)
        ensures nodes { result.0 ≡ length self.now.net.roots }
        ensures offers { result.1 ≡ length self.now.net.offers }
        ensures waits { result.2 ≡ length self.now.net.waits }
        ensures few_nodes { result.0 < 2 ^ 32 }
        ensures few_edges { result.1 + result.2 < 2 ^ 32 }
    {
        (
            self.graph.roots.len(),
            self.graph.offers.edges.len(),
            self.graph.waits.edges.len(),
        )
    }

    /// How many labels there are.
    pub fn label_count(&self) -> usize
        ensures labels { result ≡ length self.now.net.closed }
        ensures few { result < 2 ^ 32 }
    {
        self.graph.label_count()
    }

    /// The marked nodes, each once, in the order in which they were marked, which a close may
    /// change.
    pub fn marked(&self) -> &[NodeNo]
        ensures nodes { result.now ≡ self.now.marked }
        ensures reached { ListsReached self.now.net result.now }
    {
        &self.marks.marked.items
    }

    /// The nodes that the last close unmarked, each once. Those that it marked again are among
    /// them.
    pub fn fallen(&self) -> &[NodeNo]
        ensures { result.now ≡ self.now.last.fallen }
    {
        &self.last.fallen
    }

    /// How many marked nodes the last close left marked: they are the first ones of `marked`, and
    /// right after that close those after them are the ones that it marked again.
    pub fn kept(&self) -> usize
        ensures { result ≡ self.now.last.kept }
    {
        self.last.kept
    }

    /// Adds a label that has no edge, closed or not.
    fn add_label_that_is(&mut self, closed: bool) -> LabelNo
        requires { 0 < self.old.room.labels }
        ensures number { result ≡ length self.old.net.closed }
        ensures net { self.new.net ≡ with_label self.old.net closed }
        ensures marked { self.new.marked ≡ self.old.marked }
        ensures reached { ListsReached self.new.net self.new.marked }
        ensures room { self.new.room ≡ record self.old.room { labels = self.old.room.labels - 1 } }
        ensures last { self.new.last ≡ self.old.last }
    {
        let label = LabelNo::new(self.graph.closed.len() as u32);
        self.graph.add_label(closed);
        self.marks.add_label();
        self.room.labels -= 1;
        label
    }
}
