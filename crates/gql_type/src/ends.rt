//! The endpoints of an edge, beside the node types that an edge type names.

ghost use Rattle.std.specs.Prelude.{◌≡◌};
ghost use Rattle.gql_type.specs.Machinery.InOrder.{end_matches, ends_either_way, ends_match, matches_edge_type};

use crate::content::{fits_node_type, has_content};
use crate::nodes::Nodes;
use gql_graph::{EdgeType, GraphType};
use gql_values3::{EdgeRecord, Ends, NodeId};

/// Whether the edge has what the edge type asks for, and lies between nodes of its two types.
pub fn fits_edge_type(nodes: &Nodes, kind: &GraphType, edge: &EdgeRecord, of: &EdgeType) -> bool
    ensures { result ≡ matches_edge_type nodes.now kind.now edge.now of.now }
{
    has_content(
        &of.labels,
        of.body.as_slice(),
        &edge.labels,
        &edge.properties,
    ) && has_ends(nodes, kind, edge.ends, of)
}

fn has_ends(nodes: &Nodes, kind: &GraphType, ends: Ends, of: &EdgeType) -> bool
    ensures { result ≡ ends_match nodes.now kind.now ends of.now }
{
    match ends {
        Ends::Directed { source, target } => {
            of.directed
                && is_end(nodes, kind, source, of.first)
                && is_end(nodes, kind, target, of.second)
        }
        Ends::Undirected { low, high } => {
            !of.directed && are_either_way(nodes, kind, low, high, of)
        }
    }
}

/// Whether the two nodes are of the edge type's two ends, in the one assignment or in the other.
fn are_either_way(nodes: &Nodes, kind: &GraphType, low: NodeId, high: NodeId, of: &EdgeType) -> bool
    ensures { result ≡ ends_either_way nodes.now kind.now low high of.now }
{
    (is_end(nodes, kind, low, of.first) && is_end(nodes, kind, high, of.second))
        || (is_end(nodes, kind, high, of.first) && is_end(nodes, kind, low, of.second))
}

/// Whether the node fits the node type of that place.
fn is_end(nodes: &Nodes, kind: &GraphType, node: NodeId, place: u64) -> bool
    ensures { result ≡ end_matches nodes.now kind.now node place }
{
    match (nodes.find(node), kind.nodes.as_slice().get(place as usize)) {
        (Some(record), Some(node_type)) => fits_node_type(record, node_type),
        (_, _) => false,
    }
}
