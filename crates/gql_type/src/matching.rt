//! One element, beside all types of its kind.

ghost use Rattle.std.specs.Prelude.{◌≡◌};
ghost use Rattle.gql_type.specs.Machinery.InOrder.{node_matches, edge_matches};

use crate::content::fits_node_type;
use crate::ends::fits_edge_type;
use crate::nodes::Nodes;
use gql_graph::GraphType;
use gql_values3::{EdgeRecord, NodeRecord};

/// Whether the node fits some node type.
pub fn node_matches(kind: &GraphType, node: &NodeRecord) -> bool
    ensures { result ≡ node_matches kind.now node.now }
{
    kind.nodes
        .as_slice()
        .iter()
        .any(|of| fits_node_type(node, of))
}

/// Whether the edge fits some edge type.
pub fn edge_matches(nodes: &Nodes, kind: &GraphType, edge: &EdgeRecord) -> bool
    ensures { result ≡ edge_matches nodes.now kind.now edge.now }
{
    kind.edges
        .as_slice()
        .iter()
        .any(|of| fits_edge_type(nodes, kind, edge, of))
}
