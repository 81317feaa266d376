//! The numbers of nodes and labels.
ghost use Rattle.std.specs.Prelude.{◌≡◌, ℕ, ◌<◌, ◌^◌};

use std::marker::Model;

/// The number of a node: 0 for the first node that was added, and one more for each later one.
#[derive(Clone, Copy, Debug, PartialEq, Eq, PartialOrd, Ord, Hash)]
pub struct NodeNo(u32);

impl Model for NodeNo {
    ghost Value = { ℕ };

    ghost view = { λ number. number.0 };

    ghost invariant = { λ number. number.0 < 2 ^ 32 };

    ghost inverse = { λ index. record { 0 = index } };
}

impl NodeNo {
    /// The number of the node before which `index` nodes were added.
    pub fn new(index: u32) -> Self
        ensures { result ≡ index }
    {
        NodeNo(index)
    }

    /// How many nodes were added before this one.
    pub fn index(self) -> usize
        ensures { result ≡ self }
    {
        self.0 as usize
    }

    /// The same in 32 bits.
    pub(crate) fn number(self) -> u32
        ensures { result ≡ self }
    {
        self.0
    }
}

/// The number of a label: 0 for the first label that was added, and one more for each later one.
#[derive(Clone, Copy, Debug, PartialEq, Eq, PartialOrd, Ord, Hash)]
pub struct LabelNo(u32);

impl Model for LabelNo {
    ghost Value = { ℕ };

    ghost view = { λ number. number.0 };

    ghost invariant = { λ number. number.0 < 2 ^ 32 };

    ghost inverse = { λ index. record { 0 = index } };
}

impl LabelNo {
    /// The number of the label before which `index` labels were added.
    pub fn new(index: u32) -> Self
        ensures { result ≡ index }
    {
        LabelNo(index)
    }

    /// How many labels were added before this one.
    pub fn index(self) -> usize
        ensures { result ≡ self }
    {
        self.0 as usize
    }

    /// The same in 32 bits.
    pub(crate) fn number(self) -> u32
        ensures { result ≡ self }
    {
        self.0
    }
}
