//! What the last close did.
ghost use Rattle.std.specs.Prelude.{◌≡◌, ◌<◌, ◌≤◌, [], ◌∷◌, ◌++◌, length, OnOk, vec_capacity};

use crate::number::NodeNo;
use std::alloc::{AllocError, Global};

/// The nodes that the last close unmarked, each once, and how many marked nodes it left marked: the
/// first ones, before those that it marked again.
#[derive(Drop)]
pub(crate) struct LastClose {
    pub(crate) fallen: Vec<NodeNo>,
    pub(crate) kept: usize,
}

impl LastClose {
    pub(crate) fn new(alloc: Global) -> Self
        ensures fallen { result.fallen.items ≡ [] }
        ensures kept { result.kept ≡ 0 }
    {
        LastClose {
            fallen: Vec::new(alloc),
            kept: 0,
        }
    }

    /// Makes room for this many nodes in all.
    pub(crate) fn try_reserve(&mut self, nodes: usize) -> Result<(), AllocError>
        requires { length self.old.fallen.items ≤ nodes }
        ensures fallen { self.new.fallen.items ≡ self.old.fallen.items }
        ensures kept { self.new.kept ≡ self.old.kept }
        ensures grows { vec_capacity self.old.fallen ≤ vec_capacity self.new.fallen }
        ensures ok { OnOk result (nodes ≤ vec_capacity self.new.fallen) }
    {
        let more = nodes - self.fallen.len();
        self.fallen.try_reserve(more)
    }

    /// A close begins, which finds this many nodes marked.
    pub(crate) fn begin(&mut self, marked: usize)
        ensures fallen { self.new.fallen.items ≡ [] }
        ensures kept { self.new.kept ≡ marked }
        ensures room { vec_capacity self.new.fallen ≡ vec_capacity self.old.fallen }
    {
        self.fallen.clear();
        self.kept = marked;
    }

    /// The close unmarks the node.
    pub(crate) fn add(&mut self, node: u32)
        requires { length self.old.fallen.items < vec_capacity self.old.fallen }
        ensures fallen { self.new.fallen.items ≡ self.old.fallen.items ++ node ∷ [] }
        ensures kept { self.new.kept ≡ self.old.kept }
        ensures room { vec_capacity self.new.fallen ≡ vec_capacity self.old.fallen }
    {
        self.fallen.push_reserved(NodeNo::new(node));
    }
}
