//! The numbers of nodes and edges, and the endpoints of an edge.

/// The number of a node, from 1 to 4,294,967,294 in a graph.
#[derive(Clone, Copy, Debug, PartialEq, Eq, PartialOrd, Ord, Hash)]
pub struct NodeId(pub u32);

/// The number of an edge, from 1 to 4,294,967,294 in a graph. Nodes and edges are numbered apart.
#[derive(Clone, Copy, Debug, PartialEq, Eq, PartialOrd, Ord, Hash)]
pub struct EdgeId(pub u32);

/// A node or an edge.
#[derive(Clone, Copy, Debug, PartialEq, Eq, PartialOrd, Ord, Hash)]
pub enum Elem {
    Node(NodeId),
    Edge(EdgeId),
}

/// The endpoints of an edge. In a graph `low` is not above `high`; both are one node for a loop.
#[derive(Clone, Copy, Debug, PartialEq, Eq)]
pub enum Ends {
    Directed { source: NodeId, target: NodeId },
    Undirected { low: NodeId, high: NodeId },
}
