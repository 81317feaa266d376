//! A net whose labels are found by what they mean.
ghost use Rattle.std.specs.Prelude.{◌≡◌, ◌+◌, ◌-◌, ◌^◌, ◌<◌, ◌≤◌, false, [], length, vec_capacity};
ghost use Rattle.std.specs.Prelude.{IsOk, OnOk};
ghost use Rattle.wait_index.specs.Net.{ListsReached, has_wait, with_label};
ghost use Rattle.label_index.specs.Labels.{HasNumber, AreNumbersOf};

use crate::label::{Label, LabelTest};
use crate::label_table::LabelTable;
use jwk_set::KeyId;
use std::alloc::{AllocError, Global};
use std::marker::Model;
use wait_index::{LabelNo, NodeNo, Reach};

/// An index of nodes which offer labels and await at most one; labels are found by what they mean.
#[derive(Drop)]
pub struct LabelIndex {
    labels: LabelTable,
    reach: Reach,

    /// The labels that a close closes. There is room for each label, so a close takes no memory.
    closing: Vec<LabelNo>,
}

impl Model for LabelIndex {
    ghost use Rattle.label_index.specs.Labels.{LabelIndexView};

    ghost Value = { LabelIndexView };

    ghost use Rattle.std.specs.Prelude.{vec_capacity};
    ghost use Rattle.label_index.specs.Labels.{label_view_of, IsLabelIndex};

    ghost view = { λ w. label_view_of w.labels w.reach (vec_capacity w.closing) };

    ghost invariant = { λ w. IsLabelIndex w.labels w.reach (vec_capacity w.closing) };
}

impl LabelIndex {
    ghost use Rattle.label_index.specs.Labels.{IsRoomierIndex, HasNode, Offers, Awaits};
    ghost use Rattle.label_index.specs.Labels.{IsRooted, IsOfKey, Closes};

    /// An index without nodes, labels and room.
    pub fn new(alloc: Global) -> Self
        ensures { result ≡ record {
          labels = [];
          net = record { roots = []; closed = []; offers = []; waits = [] };
          marked = [];
          last = record { fallen = []; kept = 0 };
          nodes = 0;
          edges = 0;
        } }
    {
        LabelIndex {
            labels: LabelTable::new(alloc),
            reach: Reach::new(alloc),
            closing: Vec::new(alloc),
        }
    }

    /// Makes room for this many more nodes and edges, each of which may come with a new label.
    ///
    /// # Errors
    /// Memory ran out. Only the room may have grown.
    pub fn try_reserve(&mut self, nodes: usize, edges: usize) -> Result<(), AllocError>
        ensures roomier { IsRoomierIndex self.old self.new }
        ensures nodes { OnOk result (nodes ≤ self.new.nodes) }
        ensures edges { OnOk result (edges ≤ self.new.edges) }
        ensures few { OnOk result (edges < 2 ^ 63) }
        ensures within { nodes ≤ self.old.nodes → edges ≤ self.old.edges → IsOk result }
    {
        let (spare_nodes, spare_edges) = self.room();
        if nodes <= spare_nodes && edges <= spare_edges {
            return Ok(());
        }
        // This call shows that the labels are fewer than 2 to the power of 32.
        let _count = self.reach.label_count();
        self.labels.try_reserve(edges)?;
        reserve_list(&mut self.closing, self.labels.len(), edges)?;
        self.reach.try_reserve(nodes, edges, edges)?;
        Ok(())
    }

    /// Adds a node that is not a root and has no edge. There is room for it.
    pub fn add_node(&mut self) -> NodeNo
        requires { 0 < self.old.nodes }
        ensures node { HasNode self.old self.new result }
        ensures reached { ListsReached self.new.net self.new.marked }
    {
        self.reach.add_node()
    }

    /// Makes the node, which is of this index, a root.
    pub fn mark(&mut self, node: NodeNo)
        requires { node < length self.old.net.roots }
        ensures rooted { IsRooted self.old node self.new }
        ensures reached { ListsReached self.new.net self.new.marked }
    {
        self.reach.mark(node);
    }

    /// The node, which is of this index, offers the label from now on. A label that is new is
    /// closed from the start if `closed` says so. There is room for an edge.
    pub fn add_offer(&mut self, node: NodeNo, label: Label, closed: bool)
        requires room { 0 < self.old.edges }
        requires node { node < length self.old.net.roots }
        ensures offers { Offers self.old node label closed self.new }
        ensures reached { ListsReached self.new.net self.new.marked }
    {
        let number = number_of(&mut self.labels, &mut self.reach, label, closed);
        self.reach.add_offer(node, number);
    }

    /// The node, which is of this index and awaited no label before, awaits the label from now on.
    /// A label that is new is closed from the start if `closed` says so. There is room for an edge.
    pub fn add_wait(&mut self, node: NodeNo, label: Label, closed: bool)
        requires room { 0 < self.old.edges }
        requires node { node < length self.old.net.roots }
        requires once { has_wait self.old.net node ≡ false }
        ensures awaits { Awaits self.old node label closed self.new }
        ensures reached { ListsReached self.new.net self.new.marked }
    {
        let number = newest_or_number_of(&mut self.labels, &mut self.reach, label, closed);
        self.reach.add_wait(number, node);
    }

    /// Closes the labels of a key in a domain, of whatever document, all together, and returns how
    /// many times it looked at an edge. It takes no memory.
    pub fn close_key(&mut self, domain: u32, key: KeyId) -> usize
        ensures closes { Closes self.old (IsOfKey domain key) self.new result }
        ensures reached { ListsReached self.new.net self.new.marked }
    {
        self.labels.list_key(&mut self.closing, domain, key);
        self.reach.close_labels(&self.closing)
    }

    /// Closes the labels that are meant, all together, and returns how many times it looked at an
    /// edge. It takes no memory.
    pub fn close_where<T: LabelTest>(&mut self, test: &T) -> usize
        ensures closes { Closes self.old (T.IsMeant test.now) self.new result }
        ensures reached { ListsReached self.new.net self.new.marked }
    {
        // The labels are fewer than 2 to the power of 32, so each number fits its 32 bits.
        let _count = self.reach.label_count();
        list_meant(&mut self.closing, self.labels.items(), test);
        let meant = self.closing.as_slice();
        self.reach.close_labels(meant)
    }

    /// The index itself.
    pub fn reach(&self) -> &Reach
        ensures net { result.now.net ≡ self.now.net }
        ensures marked { result.now.marked ≡ self.now.marked }
        ensures last { result.now.last ≡ self.now.last }
        ensures reached { ListsReached self.now.net self.now.marked }
    {
        &self.reach
    }

    /// For how many nodes, and for how many edges with new labels, there is room.
    pub fn room(&self) -> (usize, usize)
        ensures nodes { result.0 ≡ self.now.nodes }
        ensures edges { result.1 ≡ self.now.edges }
        ensures few { result.1 < 2 ^ 63 }
    {
        let (nodes, labels, edges) = self.reach.room();
        let listed = self.closing.capacity() - self.labels.len();
        (nodes, labels.min(edges).min(self.labels.room()).min(listed))
    }
}

/// The same as [`number_of`]. In a chain of bundles what is awaited is mostly the newest label, so
/// it looks at that first.
fn newest_or_number_of(
    labels: &mut LabelTable,
    reach: &mut Reach,
    label: Label,
    closed: bool,
) -> LabelNo
    requires sizes { length reach.old.net.closed ≡ length labels.old.items }
    requires reached { ListsReached reach.old.net reach.old.marked }
    requires items { length labels.old.items < labels.old.capacity }
    requires room { 0 < reach.old.room.labels }
    ensures number { HasNumber labels.old.items reach.old.net label closed labels.new.items
        reach.new.net result }
    ensures sizes { length reach.new.net.closed ≡ length labels.new.items }
    ensures reached { ListsReached reach.new.net reach.new.marked }
    ensures marked { reach.new.marked ≡ reach.old.marked }
    ensures last { reach.new.last ≡ reach.old.last }
    ensures capacity { labels.new.capacity ≡ labels.old.capacity }
    ensures nodes { reach.new.room.nodes ≡ reach.old.room.nodes }
    ensures edges { reach.new.room.edges ≡ reach.old.room.edges }
    ensures labels { reach.old.room.labels - (length labels.new.items - length labels.old.items)
        ≡ reach.new.room.labels }
{
    match labels.find_newest(label) {
        Some(number) => LabelNo::new(number),
        None => number_of(labels, reach, label, closed),
    }
}

/// The number of the label, which is added if it is new, closed or not. There is room for it.
fn number_of(labels: &mut LabelTable, reach: &mut Reach, label: Label, closed: bool) -> LabelNo
    requires sizes { length reach.old.net.closed ≡ length labels.old.items }
    requires reached { ListsReached reach.old.net reach.old.marked }
    requires items { length labels.old.items < labels.old.capacity }
    requires room { 0 < reach.old.room.labels }
    ensures number { HasNumber labels.old.items reach.old.net label closed labels.new.items
        reach.new.net result }
    ensures sizes { length reach.new.net.closed ≡ length labels.new.items }
    ensures reached { ListsReached reach.new.net reach.new.marked }
    ensures marked { reach.new.marked ≡ reach.old.marked }
    ensures last { reach.new.last ≡ reach.old.last }
    ensures capacity { labels.new.capacity ≡ labels.old.capacity }
    ensures nodes { reach.new.room.nodes ≡ reach.old.room.nodes }
    ensures edges { reach.new.room.edges ≡ reach.old.room.edges }
    ensures labels { reach.old.room.labels - (length labels.new.items - length labels.old.items)
        ≡ reach.new.room.labels }
{
    let _arranged = labels.len();
    match labels.find(label) {
        Ok(number) => LabelNo::new(number),
        Err(place) => {
            let number = add_label(reach, closed);
            // This call shows that the labels are fewer than 2 to the power of 32.
            let _count = reach.label_count();
            labels.insert(place, label);
            number
        }
    }
}

fn add_label(reach: &mut Reach, closed: bool) -> LabelNo
    requires { 0 < reach.old.room.labels }
    ensures number { result ≡ length reach.old.net.closed }
    ensures net { reach.new.net ≡ with_label reach.old.net closed }
    ensures marked { reach.new.marked ≡ reach.old.marked }
    ensures reached { ListsReached reach.new.net reach.new.marked }
    ensures room { reach.new.room ≡ record reach.old.room { labels = reach.old.room.labels - 1 } }
    ensures last { reach.new.last ≡ reach.old.last }
{
    if closed {
        reach.add_closed_label()
    } else {
        reach.add_label()
    }
}

/// Makes room in the list for this many labels and `more` of them, and forgets what it had. Past 64
/// bits it asks for a growth that is always refused.
fn reserve_list(list: &mut Vec<LabelNo>, labels: usize, more: usize) -> Result<(), AllocError>
    ensures grows { vec_capacity list.old ≤ vec_capacity list.new }
    ensures ok { OnOk result (labels + more ≤ vec_capacity list.new) }
    ensures few { OnOk result (labels + more < 2 ^ 63) }
{
    list.clear();
    list.try_reserve(labels.saturating_add(more))
}

/// Lists the numbers of the labels that are meant, in place of what the list had. There is room for
/// each label.
fn list_meant<T: LabelTest>(list: &mut Vec<LabelNo>, labels: &[Label], test: &T)
    requires room { length labels.now ≤ vec_capacity list.old }
    requires few { length labels.now < 2 ^ 32 }
    ensures numbers { AreNumbersOf labels.now (T.IsMeant test.now) list.new.items }
    ensures room { vec_capacity list.new ≡ vec_capacity list.old }
{
    list.clear();
    for (number, label) in labels.iter().enumerate() {
        if test.is_meant(label) {
            list.push_reserved(LabelNo::new(number as u32));
        }
    }
}
