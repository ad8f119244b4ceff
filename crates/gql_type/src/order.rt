//! Which graph types are in order.

ghost use Rattle.std.specs.Prelude.{◌≡◌};
ghost use Rattle.std.specs.List.{list_all};
ghost use Rattle.gql_type.specs.GraphTypes.{is_content_type, is_node_type, is_edge_type, is_graph_type};

use gql_graph::{EdgeType, GraphType, NodeType, PropType};
use gql_values3::{Names, keys_ascend};

/// Whether labels and names of properties are sets in order, and the ends of edge types are node types. It takes no memory.
pub fn is_graph_type(kind: &GraphType) -> bool
    ensures { result ≡ is_graph_type kind.now }
{
    are_node_types(kind.nodes.as_slice())
        && are_edge_types(kind.nodes.len() as u64, kind.edges.as_slice())
}

fn are_node_types(kinds: &[NodeType]) -> bool
    ensures { result ≡ list_all is_node_type kinds.now }
{
    kinds.iter().all(|kind| is_node_type(kind))
}

fn are_edge_types(count: u64, kinds: &[EdgeType]) -> bool
    ensures { result ≡ list_all (is_edge_type count) kinds.now }
{
    kinds.iter().all(|kind| is_edge_type(count, kind))
}

fn is_node_type(kind: &NodeType) -> bool
    ensures { result ≡ is_node_type kind.now }
{
    is_content_type(&kind.labels, kind.body.as_slice())
}

fn is_edge_type(count: u64, kind: &EdgeType) -> bool
    ensures { result ≡ is_edge_type count kind.now }
{
    is_content_type(&kind.labels, kind.body.as_slice()) && kind.first < count && kind.second < count
}

fn is_content_type(labels: &Names, body: &[PropType]) -> bool
    ensures { result ≡ is_content_type labels.now body.now }
{
    keys_ascend(labels.as_slice()) && keys_ascend(body)
}
