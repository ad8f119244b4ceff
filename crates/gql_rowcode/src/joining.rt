//! Which nodes and edges a graph takes.

ghost use Rattle.std.specs.Prelude.{◌≡◌, ℕ, true, ◌&&◌, IsTrue, Some};
ghost use Rattle.std.specs.List.{list_all, list_any};
ghost use Rattle.gql_values3.specs.PropertyGraph.{are_nodes, are_ends, is_among, is_node_record, are_properties};
ghost use Rattle.gql_values3.specs.Texts.{texts_ascend};
ghost use Rattle.gql_graph.specs.Machinery.Ascending.{AscendsBy};
ghost use Rattle.gql_type.specs.Conformance.{node_fits, edge_fits};
ghost use Rattle.gql_type.specs.GraphTypes.{is_graph_type};
ghost use Rattle.gql_rowcode.specs.FirstBad.{passes_type};
ghost use Rattle.gql_rowcode.specs.Machinery.KeyOrder.{AreListed};
ghost use Rattle.gql_rowcode.specs.Machinery.Noted.{graph_seen, node_joins, edge_joins, graph_joins};

use crate::places::type_named;
use crate::seen::GraphSeen;
use gql_graph::{GraphType, find_node};
use gql_type::{edge_fits, node_fits};
use gql_values3::{EdgeRecord, Ends, NodeId, NodeRecord, Text};

/// Whether a graph may be of this type and have these next numbers.
pub fn graph_joins(
    types: &[(Text, GraphType)],
    kind: &Option<Text>,
    next_node: u32,
    next_edge: u32,
) -> bool
    requires { AreListed types.now }
    ensures { result ≡ graph_joins types.now kind.now next_node next_edge }
{
    0 < next_node && 0 < next_edge && is_there(types, kind)
}

fn is_there(types: &[(Text, GraphType)], kind: &Option<Text>) -> bool
    requires { AreListed types.now }
    ensures { result ≡ passes_type (λ t. true) types.now kind.now }
{
    match kind {
        None => true,
        Some(name) => match type_named(types, name.as_str()) {
            None => false,
            Some(_) => true,
        },
    }
}

/// Whether the graph takes the node.
pub fn node_joins(types: &[(Text, GraphType)], graph: &GraphSeen, node: &NodeRecord) -> bool
    requires listed { AreListed types.now }
    requires types { IsTrue (list_all (λ t. is_graph_type t.1) types.now) }
    requires node { IsTrue (is_node_record node.now) }
    ensures { result ≡ node_joins types.now node.now (Some (graph_seen graph.now)) }
{
    0 < node.number.0 && node.number.0 < graph.next_node && node_passes(types, &graph.kind, node)
}

fn node_passes(types: &[(Text, GraphType)], kind: &Option<Text>, node: &NodeRecord) -> bool
    requires listed { AreListed types.now }
    requires types { IsTrue (list_all (λ t. is_graph_type t.1) types.now) }
    requires node { IsTrue (is_node_record node.now) }
    ensures { result ≡ passes_type (λ t. node_fits t node.now) types.now kind.now }
{
    match kind {
        None => true,
        Some(name) => match type_named(types, name.as_str()) {
            None => false,
            Some(found) => node_fits(found, node),
        },
    }
}

/// Whether the graph takes the edge.
pub fn edge_joins(types: &[(Text, GraphType)], graph: &GraphSeen, edge: &EdgeRecord) -> bool
    requires listed { AreListed types.now }
    requires types { IsTrue (list_all (λ t. is_graph_type t.1) types.now) }
    requires nodes { IsTrue (are_nodes graph.now.nodes graph.now.next_node) }
    requires edge { IsTrue (texts_ascend edge.now.labels && are_properties edge.now.properties) }
    ensures { result ≡ edge_joins types.now edge.now (Some (graph_seen graph.now)) }
{
    0 < edge.number.0
        && edge.number.0 < graph.next_edge
        && are_ends(graph.nodes.as_slice(), graph.next_node, &edge.ends)
        && edge_passes(types, graph, edge)
}

fn edge_passes(types: &[(Text, GraphType)], graph: &GraphSeen, edge: &EdgeRecord) -> bool
    requires listed { AreListed types.now }
    requires types { IsTrue (list_all (λ t. is_graph_type t.1) types.now) }
    requires nodes { IsTrue (are_nodes graph.now.nodes graph.now.next_node) }
    requires edge { IsTrue (texts_ascend edge.now.labels && are_properties edge.now.properties) }
    ensures { result ≡ passes_type (λ t. edge_fits (graph_seen graph.now).graph t edge.now) types.now graph.now.kind }
{
    match &graph.kind {
        None => true,
        Some(name) => match type_named(types, name.as_str()) {
            None => false,
            Some(found) => edge_fits(found, graph.nodes.as_slice(), edge),
        },
    }
}

fn are_ends(nodes: &[NodeRecord], next_node: u32, ends: &Ends) -> bool
    requires { IsTrue (are_nodes nodes.now next_node) }
    ensures { result ≡ are_ends nodes.now ends.now }
{
    match ends {
        Ends::Directed { source, target } => {
            is_among(nodes, next_node, *source) && is_among(nodes, next_node, *target)
        }
        Ends::Undirected { low, high } => {
            is_among(nodes, next_node, *low) && is_among(nodes, next_node, *high) && low.0 <= high.0
        }
    }
}

// The next number is named for the premise alone.
fn is_among(nodes: &[NodeRecord], next_node: u32, node: NodeId) -> bool
    requires { IsTrue (are_nodes nodes.now next_node) }
    ensures { result ≡ is_among nodes.now node }
{
    let _next_node = next_node;
    find_node(nodes, node).is_some()
}
