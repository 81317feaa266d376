//! How marks grow with what is added to a graph.
ghost use Rattle.std.specs.Prelude.{◌≡◌, ℕ, ◌+◌, ◌^◌, ◌<◌, ◌≤◌, ◌⊎◌, true, false, length, take};
ghost use Rattle.wait_index.specs.Inside.Capacity.{graph_capacity};
ghost use Rattle.wait_index.specs.Inside.Fall.{IsSettled};
ghost use Rattle.wait_index.specs.Net.{with_node, with_label, with_offer, with_wait, with_root};
ghost use Rattle.wait_index.specs.Net.{has_wait};
ghost use Rattle.wait_index.specs.Inside.Tally.{net_of, tally_of, marks_capacity, HasSizes};
ghost use Rattle.wait_index.specs.Inside.Tally.{is_marked_in, is_open_in, support_in, Supports};
ghost use Rattle.wait_index.specs.Inside.Tally.{FollowsWait};

use crate::graph::Graph;
use crate::marks::Marks;

impl Marks {
    /// Adds a root, and marks what it reaches.
    pub(crate) fn add_root(&mut self, graph: &mut Graph, node: usize)
        requires settled { IsSettled (net_of graph.old) (tally_of self.old) }
        requires node { node < length graph.old.roots.items }
        requires few { length graph.old.offers.edges.items + length graph.old.waits.edges.items
            < 2 ^ 32 }
        ensures net { net_of graph.new ≡ with_root (net_of graph.old) node }
        ensures settled { IsSettled (net_of graph.new) (tally_of self.new) }
        ensures front { take (length self.old.marked.items.items) self.new.marked.items.items
            ≡ self.old.marked.items.items }
        ensures graph_room { graph_capacity graph.new ≡ graph_capacity graph.old }
        ensures room { marks_capacity self.new ≡ marks_capacity self.old }
    {
        graph.add_root(node);
        let cursor = self.marked.items.len();
        self.mark(node);
        self.follow_all(graph, cursor);
    }

    /// Adds an offer edge, and marks what it reaches.
    pub(crate) fn add_offer(&mut self, graph: &mut Graph, node: u32, label: u32)
        requires settled { IsSettled (net_of graph.old) (tally_of self.old) }
        requires node { node < length graph.old.roots.items }
        requires label { label < length graph.old.closed.items }
        requires room { length graph.old.offers.edges.items < (graph_capacity graph.old).offers }
        requires few { length graph.old.offers.edges.items + length graph.old.waits.edges.items + 1
            < 2 ^ 32 }
        ensures net { net_of graph.new ≡ with_offer (net_of graph.old) node label }
        ensures settled { IsSettled (net_of graph.new) (tally_of self.new) }
        ensures front { take (length self.old.marked.items.items) self.new.marked.items.items
            ≡ self.old.marked.items.items }
        ensures graph_room { graph_capacity graph.new ≡ graph_capacity graph.old }
        ensures room { marks_capacity self.new ≡ marks_capacity self.old }
    {
        graph.add_offer(node, label);
        let cursor = self.marked.items.len();
        self.follow_new_offer(graph, node as usize, label as usize);
        self.follow_all(graph, cursor);
    }

    /// Follows an offer edge of the node to the label, if the node is marked.
    fn follow_new_offer(&mut self, graph: &Graph, node: usize, label: usize)
        requires sizes { HasSizes (net_of graph.now) (tally_of self.old) }
        requires node { node < length graph.now.roots.items }
        requires label { label < length graph.now.closed.items }
        requires visits { self.old.visits + 1 + length graph.now.waits.edges.items < 2 ^ 64 }
        requires support { support_in (tally_of self.old) label + 1 < 2 ^ 32 }
        ensures followed { ((is_marked_in (tally_of self.old) node ≡ true)
            × Supports (net_of graph.now) label (tally_of self.old) (tally_of self.new))
            ⊎ ((is_marked_in (tally_of self.old) node ≡ false)
            × (tally_of self.new ≡ tally_of self.old)) }
        ensures room { marks_capacity self.new ≡ marks_capacity self.old }
    {
        if self.marked.holds(node) {
            self.follow_offer(graph, label);
        }
    }

    /// Adds a wait edge, and marks what it reaches.
    pub(crate) fn add_wait(&mut self, graph: &mut Graph, label: u32, node: u32)
        requires settled { IsSettled (net_of graph.old) (tally_of self.old) }
        requires label { label < length graph.old.closed.items }
        requires node { node < length graph.old.roots.items }
        requires once { has_wait (net_of graph.old) node ≡ false }
        requires room { length graph.old.waits.edges.items < (graph_capacity graph.old).waits }
        requires few { length graph.old.offers.edges.items + length graph.old.waits.edges.items + 1
            < 2 ^ 32 }
        ensures net { net_of graph.new ≡ with_wait (net_of graph.old) label node }
        ensures settled { IsSettled (net_of graph.new) (tally_of self.new) }
        ensures front { take (length self.old.marked.items.items) self.new.marked.items.items
            ≡ self.old.marked.items.items }
        ensures graph_room { graph_capacity graph.new ≡ graph_capacity graph.old }
        ensures room { marks_capacity self.new ≡ marks_capacity self.old }
    {
        graph.add_wait(label, node);
        let cursor = self.marked.items.len();
        self.follow_new_wait(label as usize, node as usize);
        self.follow_all(graph, cursor);
    }

    /// Follows a wait edge from the label to the node, if the label is open.
    fn follow_new_wait(&mut self, label: usize, node: usize)
        requires label { label < length self.old.opened.items }
        requires node { node < length self.old.marked.places.items }
        requires visits { self.old.visits + 1 < 2 ^ 64 }
        ensures followed { FollowsWait label node (tally_of self.old) (tally_of self.new) }
        ensures room { marks_capacity self.new ≡ marks_capacity self.old }
    {
        if self.opened[label] {
            self.visits += 1;
            self.mark(node);
        }
    }
}
