//! Graph types: what the nodes and edges of a graph may be.

use gql_values3::{Keyed, Names, PropKind, Sequence, Text};

/// A property that a node or an edge may have.
#[derive(Debug, Drop)]
pub struct PropType {
    pub name: Text,
    pub kind: PropKind,
    /// Whether each such node or edge has it.
    pub required: bool,
}

impl Keyed for PropType {
    ghost key_bytes = { λ t. t.name };

    fn key(&self) -> &[u8] {
        self.name.as_str().as_bytes()
    }
}

/// Properties by strictly ascending name.
pub type PropTypes = Sequence<PropType>;

/// What a node may be: one that has exactly these labels, and no properties but these.
#[derive(Debug, Drop)]
pub struct NodeType {
    /// Strictly ascending.
    pub labels: Names,
    pub body: PropTypes,
}

/// Node types in the order in which they were written.
pub type NodeTypes = Sequence<NodeType>;

/// What an edge may be, between nodes of two types.
#[derive(Debug, Drop)]
pub struct EdgeType {
    pub directed: bool,
    /// The place of the source's type among the node types, from 0; of either end's where the edge is undirected.
    pub first: u64,
    /// The place of the target's type, or of the other end's.
    pub second: u64,
    /// Strictly ascending.
    pub labels: Names,
    pub body: PropTypes,
}

/// Edge types in the order in which they were written.
pub type EdgeTypes = Sequence<EdgeType>;

/// Each node of a graph of this type is one of the node types, and each edge one of the edge types.
#[derive(Debug, Drop)]
pub struct GraphType {
    pub nodes: NodeTypes,
    pub edges: EdgeTypes,
}
