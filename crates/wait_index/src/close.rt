//! How labels are closed: what only they reach is taken back, and what is reached otherwise is
//! followed again.
ghost use Rattle.std.specs.Prelude.{◌≡◌, ℕ, ◌+◌, ◌*◌, ◌^◌, ◌<◌, ◌≤◌, true, false, [], Bool, List};
ghost use Rattle.std.specs.Prelude.{length, slice_index, take, vec_capacity, All, Contains};
ghost use Rattle.wait_index.specs.Inside.Capacity.{graph_capacity};
ghost use Rattle.wait_index.specs.Inside.Fall.{CanFall, HasFallen, IsFalling, IsSettled};
ghost use Rattle.wait_index.specs.Inside.Fall.{ListsFallen, with_fallen};
ghost use Rattle.wait_index.specs.Net.{with_all_closed, ClosesIn, ReportsFallen};
ghost use Rattle.wait_index.specs.Inside.Step.{Follows};
ghost use Rattle.wait_index.specs.Inside.Tally.{net_of, tally_of, marks_capacity, HasSizes};
ghost use Rattle.wait_index.specs.Inside.Tally.{is_marked_in, is_open_in, Falls, Touches};
ghost use Rattle.wait_index.specs.Inside.Tally.{TouchesAll, Withdraws, WithdrawsAll};

use crate::graph::Graph;
use crate::last_close::LastClose;
use crate::marks::Marks;
use crate::number::LabelNo;

impl Marks {
    /// Closes the labels, and returns how much work that was: how many times it looked at an edge.
    pub(crate) fn close(
        &mut self,
        graph: &mut Graph,
        last: &mut LastClose,
        labels: &[LabelNo],
    ) -> usize
        requires settled { IsSettled (net_of graph.old) (tally_of self.old) }
        requires labels { All (λ label. label < length graph.old.closed.items) labels.now }
        requires few { length graph.old.offers.edges.items + length graph.old.waits.edges.items
            < 2 ^ 32 }
        requires last_room { length graph.old.roots.items ≤ vec_capacity last.old.fallen }
        ensures net { net_of graph.new ≡ with_all_closed (net_of graph.old) labels.now }
        ensures settled { IsSettled (net_of graph.new) (tally_of self.new) }
        ensures work { ClosesIn (net_of graph.old) labels.now self.old.visits self.new.visits
            result }
        ensures fewer { self.new.visits ≤ self.old.visits }
        ensures shut { ((label : ℕ) → Contains labels.now label
            → is_open_in (tally_of self.old) label ≡ false)
            → (result ≡ 0) × (tally_of self.new ≡ tally_of self.old) }
        ensures fallen { ReportsFallen (net_of graph.old) labels.now last.new.fallen.items
            last.new.kept self.new.marked.items.items }
        ensures many { length last.new.fallen.items + last.new.kept
            ≡ length self.old.marked.items.items }
        ensures graph_room { graph_capacity graph.new ≡ graph_capacity graph.old }
        ensures room { marks_capacity self.new ≡ marks_capacity self.old }
        ensures last_room { vec_capacity last.new.fallen ≡ vec_capacity last.old.fallen }
    {
        last.begin(self.marked.items.len());
        self.touch_all(labels);
        if self.touched.items.is_empty() {
            graph.close_all(labels);
            return 0;
        }
        let before = self.visits;
        self.take_back(graph, last);
        last.kept = self.marked.items.len();
        let between = self.visits;
        graph.close_all(labels);
        self.follow_again(graph);
        (before - between) + (self.visits - between)
    }

    /// Touches each open label of the list.
    fn touch_all(&mut self, labels: &[LabelNo])
        requires labels { All (λ label. label < length self.old.opened.items) labels.now }
        requires touched { length self.old.touched.places.items ≡ length self.old.opened.items }
        ensures touched { TouchesAll labels.now (tally_of self.old) (tally_of self.new) }
        ensures room { marks_capacity self.new ≡ marks_capacity self.old }
    {
        for label in labels {
            self.touch(label.index());
        }
    }

    /// Touches the label if it is open: its wait edges are to be looked at.
    fn touch(&mut self, label: usize)
        requires label { label < length self.old.opened.items }
        requires places { length self.old.touched.places.items ≡ length self.old.opened.items }
        ensures touched { Touches label (tally_of self.old) (tally_of self.new) }
        ensures room { marks_capacity self.new ≡ marks_capacity self.old }
    {
        if self.opened[label] && !self.touched.holds(label) {
            self.touched.insert(label);
        }
    }

    /// Follows again what is reached otherwise.
    fn follow_again(&mut self, graph: &Graph)
        requires follows { Follows (net_of graph.now) (tally_of self.old)
            (length self.old.marked.items.items) 0 0 }
        requires few { length graph.now.offers.edges.items + length graph.now.waits.edges.items
            < 2 ^ 32 }
        ensures settled { IsSettled (net_of graph.now) (tally_of self.new) }
        ensures front { take (length self.old.marked.items.items) self.new.marked.items.items
            ≡ self.old.marked.items.items }
        ensures visits { self.old.visits ≤ self.new.visits }
        ensures room { marks_capacity self.new ≡ marks_capacity self.old }
    {
        let cursor = self.marked.items.len();
        self.restore(graph);
        self.follow_all(graph, cursor);
    }

    /// Takes the wait edges of the touched labels back, also of those that are touched meanwhile.
    fn take_back(&mut self, graph: &Graph, last: &mut LastClose)
        ghost closing: { List ℕ }
        requires falling { IsFalling (net_of graph.now) closing (tally_of self.old) 0 0 0 }
        requires listed { ListsFallen (net_of graph.now) (tally_of self.old) last.old.fallen.items }
        requires last_room { length last.old.fallen.items + length self.old.marked.items.items
            ≤ vec_capacity last.old.fallen }
        ensures fallen { HasFallen (net_of graph.now) closing (tally_of self.new) }
        ensures listed { ListsFallen (net_of graph.now) (tally_of self.new) last.new.fallen.items }
        ensures many { length last.new.fallen.items + length self.new.marked.items.items
            ≡ length last.old.fallen.items + length self.old.marked.items.items }
        ensures capacity { marks_capacity self.new ≡ marks_capacity self.old }
        ensures last_room { vec_capacity last.new.fallen ≡ vec_capacity last.old.fallen }
    {
        let mut index = 0;
        'labels: while index < self.touched.items.len() {
            self.take_back_waits(graph, last, index);
            index += 1;
        }
    }

    /// Takes the wait edges of the touched label at the index back. Each node that awaits it falls,
    /// except a root.
    fn take_back_waits(&mut self, graph: &Graph, last: &mut LastClose, index: usize)
        ghost closing: { List ℕ }
        requires falling { IsFalling (net_of graph.now) closing (tally_of self.old) index 0 0 }
        requires index { index < length self.old.touched.items.items }
        requires listed { ListsFallen (net_of graph.now) (tally_of self.old) last.old.fallen.items }
        requires last_room { length last.old.fallen.items + length self.old.marked.items.items
            ≤ vec_capacity last.old.fallen }
        ensures falling { IsFalling (net_of graph.now) closing (tally_of self.new) (index + 1) 0 0 }
        ensures front { take (length self.old.touched.items.items) self.new.touched.items.items
            ≡ self.old.touched.items.items }
        ensures listed { ListsFallen (net_of graph.now) (tally_of self.new) last.new.fallen.items }
        ensures many { length last.new.fallen.items + length self.new.marked.items.items
            ≡ length last.old.fallen.items + length self.old.marked.items.items }
        ensures capacity { marks_capacity self.new ≡ marks_capacity self.old }
        ensures last_room { vec_capacity last.new.fallen ≡ vec_capacity last.old.fallen }
    {
        let label = self.touched.items[index].index();
        self.opened[label] = false;
        let mut link = graph.waits.newest[label];
        'waits: while link > 0 {
            let edge = link as usize - 1;
            self.visits -= 1;
            self.fall(graph, last, graph.waits.edges[edge].to);
            link = graph.waits.earlier[edge];
        }
    }

    /// Unmarks the node and takes its offer edges back, unless it is a root.
    fn fall(&mut self, graph: &Graph, last: &mut LastClose, node: u32)
        requires can { CanFall (net_of graph.now) (tally_of self.old) node }
        requires node { node < length graph.now.roots.items }
        requires marked { is_marked_in (tally_of self.old) node ≡ true }
        requires last_room { length last.old.fallen.items < vec_capacity last.old.fallen }
        ensures falls { Falls (net_of graph.now) node (tally_of self.old) (tally_of self.new) }
        ensures listed { last.new.fallen.items
            ≡ with_fallen (net_of graph.now) node last.old.fallen.items }
        ensures capacity { marks_capacity self.new ≡ marks_capacity self.old }
        ensures last_room { vec_capacity last.new.fallen ≡ vec_capacity last.old.fallen }
    {
        if !graph.roots[node as usize] {
            last.add(node);
            self.marked.remove(node as usize);
            self.withdraw_offers(graph, node as usize);
        }
    }

    /// Takes the offer edges of a node back.
    fn withdraw_offers(&mut self, graph: &Graph, node: usize)
        requires can { CanFall (net_of graph.now) (tally_of self.old) node }
        requires node { node < length graph.now.roots.items }
        ensures withdrawn { WithdrawsAll (net_of graph.now) node (tally_of self.old)
            (tally_of self.new) }
        ensures capacity { marks_capacity self.new ≡ marks_capacity self.old }
    {
        let mut link = graph.offers.newest[node];
        'offers: while link > 0 {
            let edge = link as usize - 1;
            self.withdraw(graph.offers.edges[edge].to as usize);
            link = graph.offers.earlier[edge];
        }
    }

    /// Takes an offer edge to the label back. If the label is open its wait edges are to be looked
    /// at.
    fn withdraw(&mut self, label: usize)
        requires visits { 0 < self.old.visits }
        requires support { 0 < slice_index self.old.support.items label }
        requires label { label < length self.old.support.items }
        requires opened { length self.old.opened.items ≡ length self.old.support.items }
        requires touched { length self.old.touched.places.items ≡ length self.old.support.items }
        ensures withdrawn { Withdraws label (tally_of self.old) (tally_of self.new) }
        ensures capacity { marks_capacity self.new ≡ marks_capacity self.old }
    {
        self.visits -= 1;
        self.support[label] -= 1;
        self.touch(label);
    }

    /// Opens each touched label again if a followed edge still leads to it.
    pub(crate) fn restore(&mut self, graph: &Graph)
        requires follows { Follows (net_of graph.now) (tally_of self.old)
            (length self.old.marked.items.items) 0 0 }
        requires few { length graph.now.offers.edges.items + length graph.now.waits.edges.items
            < 2 ^ 32 }
        ensures follows { Follows (net_of graph.now) (tally_of self.new)
            (length self.old.marked.items.items) 0 0 }
        ensures untouched { self.new.touched.items.items ≡ [] }
        ensures front { take (length self.old.marked.items.items) self.new.marked.items.items
            ≡ self.old.marked.items.items }
        ensures visits { self.old.visits ≤ self.new.visits }
        ensures capacity { marks_capacity self.new ≡ marks_capacity self.old }
    {
        'labels: while !self.touched.items.is_empty() {
            let label = self.touched.take_last();
            self.settle(graph, label);
        }
    }
}
