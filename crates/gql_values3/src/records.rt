//! Nodes and edges with their labels and properties, as a graph keeps them.

use crate::element::{EdgeId, Ends, NodeId};
use crate::properties::Properties;
use crate::sequence::Names;

/// A node as a graph keeps it. In a graph its labels strictly ascend by bytes.
#[derive(Debug, Drop)]
pub struct NodeRecord {
    pub number: NodeId,
    pub labels: Names,
    pub properties: Properties,
}

/// An edge as a graph keeps it. In a graph its labels strictly ascend by bytes, and its ends are nodes of the graph.
#[derive(Debug, Drop)]
pub struct EdgeRecord {
    pub number: EdgeId,
    pub ends: Ends,
    pub labels: Names,
    pub properties: Properties,
}
