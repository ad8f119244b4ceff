//! Nodes looked up by number or by label, and edges by a node that they touch.

ghost use Rattle.std.specs.Prelude.{◌≡◌, ◌==◌, find, map, filter, slice_get};
ghost use Rattle.std.specs.Option.{option_copied};
ghost use Rattle.std.specs.List.{list_any};
ghost use Rattle.gql_values3.specs.Texts.{same_text};
ghost use Rattle.gql_values3.specs.PropertyGraph.{is_among};
ghost use Rattle.gql_values3.specs.Lookup.{touches};
ghost use Rattle.gql_graph.specs.Machinery.Ascending.{AscendsBy};

use crate::names::contains_name;
use crate::numbered::find_numbered;
use gql_values3::{EdgeId, EdgeRecord, Ends, NodeId, NodeRecord};

/// The node of that number, by binary search.
pub fn find_node(nodes: &[NodeRecord], node: NodeId) -> Option<&NodeRecord>
    requires { AscendsBy (λ r. r.number.0) nodes.now }
    ensures { option_copied result ≡ find (λ r. r.number.0 == node.0) nodes.now }
{
    find_numbered(nodes, node.0)
}

/// Whether a node of that number is among the records.
pub fn is_among(nodes: &[NodeRecord], node: NodeId) -> bool
    requires { AscendsBy (λ r. r.number.0) nodes.now }
    ensures { result ≡ is_among nodes.now node }
{
    find_node(nodes, node).is_some()
}

/// The node of that place among those with the label.
pub fn nth_labelled(nodes: &[NodeRecord], label: &str, index: u32) -> Option<NodeId>
    ensures { result ≡ slice_get (map (λ r. r.number) (filter (λ r. list_any (same_text label.now) r.labels) nodes.now)) index }
{
    let mut left = index;
    for node in nodes {
        if contains_name(node.labels.as_slice(), label) {
            if left == 0 {
                return Some(node.number);
            }
            left -= 1;
        }
    }
    None
}

/// The edge of that place among those that touch the node.
pub fn nth_touching(edges: &[EdgeRecord], node: NodeId, index: u32) -> Option<EdgeId>
    ensures { result ≡ slice_get (map (λ r. r.number) (filter (touches node) edges.now)) index }
{
    let mut left = index;
    for edge in edges {
        if touches(edge, node) {
            if left == 0 {
                return Some(edge.number);
            }
            left -= 1;
        }
    }
    None
}

fn touches(edge: &EdgeRecord, node: NodeId) -> bool
    ensures { result ≡ touches node edge.now }
{
    match edge.ends {
        Ends::Directed { source, target } => source == node || target == node,
        Ends::Undirected { low, high } => low == node || high == node,
    }
}
