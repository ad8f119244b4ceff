//! What the records before a place said.

use gql_graph::{EdgeRecords, GraphType, NodeRecords};
use gql_values3::Text;

/// A graph as far as it was read.
#[derive(Debug, Drop)]
pub struct GraphSeen {
    pub kind: Option<Text>,
    pub nodes: NodeRecords,
    pub edges: EdgeRecords,
    pub next_node: u32,
    pub next_edge: u32,
}

/// Types and graphs in the order of their records, which is by length of the name and then by bytes.
#[derive(Debug, Drop)]
pub struct Seen {
    pub types: Vec<(Text, GraphType)>,
    pub graphs: Vec<(Text, GraphSeen)>,
}
