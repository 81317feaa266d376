//! How much more an index takes without asking for memory.
ghost use Rattle.std.specs.Prelude.{◌≡◌, ◌≤◌, ◌↔◌, max, IsTrue};

/// How many nodes, labels and edges more there is room for.
#[derive(Clone, Copy, Debug, PartialEq, Eq)]
pub struct Room {
    pub nodes: usize,
    pub labels: usize,
    pub edges: usize,
}

impl Room {
    /// Whether there is room for this many.
    pub(crate) fn covers(self, nodes: usize, labels: usize, edges: usize) -> bool
        ensures { IsTrue result
            ↔ ((nodes ≤ self.nodes) × (labels ≤ self.labels) × (edges ≤ self.edges)) }
    {
        nodes <= self.nodes && labels <= self.labels && edges <= self.edges
    }

    /// The greater of the room and what is asked for, each by itself.
    pub(crate) fn at_least(self, nodes: usize, labels: usize, edges: usize) -> Room
        ensures { result ≡ record {
          nodes = max self.nodes nodes;
          labels = max self.labels labels;
          edges = max self.edges edges;
        } }
    {
        Room {
            nodes: self.nodes.max(nodes),
            labels: self.labels.max(labels),
            edges: self.edges.max(edges),
        }
    }
}
