//! The changes of a graph, one element at a time.

use gql_values3::{EdgeId, EdgeRecord, NodeId, NodeRecord, Sequence};

/// One step by which a graph is edited. Each has another that undoes it.
#[derive(Debug, Drop)]
pub enum Change {
    /// Adds a node whose number is the next one, below 4,294,967,295, and raises the next number by one.
    NewNode(NodeRecord),
    /// Takes out the node whose number is one below the next, and lowers the next number by one.
    UnNode(NodeId),
    /// Adds an edge whose number is the next one, below 4,294,967,295, and raises the next number by one.
    NewEdge(EdgeRecord),
    /// Takes out the edge whose number is one below the next, and lowers the next number by one.
    UnEdge(EdgeId),
    /// Takes out a node.
    OutNode(NodeId),
    /// Puts in a node whose number isn't there and is below the next one.
    BackNode(NodeRecord),
    /// Takes out an edge.
    OutEdge(EdgeId),
    /// Puts in an edge whose number isn't there and is below the next one.
    BackEdge(EdgeRecord),
    /// Puts a node in the place of the one of its number.
    SwapNode(NodeRecord),
    /// Puts an edge in the place of the one of its number, which has the same ends.
    SwapEdge(EdgeRecord),
}

/// Changes in the order in which they act.
pub type Changes = Sequence<Change>;
