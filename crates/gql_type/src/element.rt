//! Whether one element fits a graph type, for a graph of which the elements come one after the other.

ghost use Rattle.std.specs.Prelude.{◌≡◌, ℕ, ◌&&◌, IsTrue};
ghost use Rattle.gql_values3.specs.Texts.{texts_ascend};
ghost use Rattle.gql_values3.specs.PropertyGraph.{PropertyGraph, is_node_record, are_nodes, are_properties};
ghost use Rattle.gql_type.specs.GraphTypes.{is_graph_type};
ghost use Rattle.gql_type.specs.Conformance.{node_fits, edge_fits};

use crate::matching::{edge_matches, node_matches};
use crate::nodes::Nodes;
use gql_graph::GraphType;
use gql_values3::{EdgeRecord, NodeRecord};

/// Whether the node fits some node type. It takes no memory.
pub fn node_fits(kind: &GraphType, node: &NodeRecord) -> bool
    requires kind { IsTrue (is_graph_type kind.now) }
    requires node { IsTrue (is_node_record node.now) }
    ensures { result ≡ node_fits kind.now node.now }
{
    node_matches(kind, node)
}

/// Whether the edge fits some edge type, in any graph of these nodes. It takes no memory, and finds each endpoint at the place
/// of its number or by binary search.
pub fn edge_fits(kind: &GraphType, nodes: &[NodeRecord], edge: &EdgeRecord) -> bool
    requires kind { IsTrue (is_graph_type kind.now) }
    requires nodes { (next : ℕ) × IsTrue (are_nodes nodes.now next) }
    requires edge { IsTrue (texts_ascend edge.now.labels && are_properties edge.now.properties) }
    ensures { (g : PropertyGraph) → g.nodes ≡ nodes.now → result ≡ edge_fits g kind.now edge.now }
{
    edge_matches(&Nodes::of(nodes), kind, edge)
}
