//! Which nodes and edges a graph may have: labels and properties in order, and endpoints that are there.

ghost use Rattle.std.specs.Prelude.{◌≡◌};
ghost use Rattle.std.specs.List.{list_all};
ghost use Rattle.gql_values3.specs.PropertyGraph.{is_node_record, is_edge_record, are_ends};
ghost use Rattle.gql_graph.specs.Machinery.Ascending.{AscendsBy};

use crate::lookup::is_among;
use crate::names::names_ascend;
use crate::storable::properties_fit;
use gql_values3::{EdgeRecord, Ends, NodeRecord};

/// Whether each record is that of a node.
pub fn node_records_fit(nodes: &[NodeRecord]) -> bool
    ensures { result ≡ list_all is_node_record nodes.now }
{
    nodes.iter().all(node_fits)
}

fn node_fits(node: &NodeRecord) -> bool
    ensures { result ≡ is_node_record node.now }
{
    names_ascend(node.labels.as_slice()) && properties_fit(&node.properties)
}

/// Whether each record is that of an edge between these nodes.
pub fn edge_records_fit(nodes: &[NodeRecord], edges: &[EdgeRecord]) -> bool
    requires { AscendsBy (λ r. r.number.0) nodes.now }
    ensures { result ≡ list_all (is_edge_record nodes.now) edges.now }
{
    edges.iter().all(|edge| edge_fits(nodes, edge))
}

fn edge_fits(nodes: &[NodeRecord], edge: &EdgeRecord) -> bool
    requires { AscendsBy (λ r. r.number.0) nodes.now }
    ensures { result ≡ is_edge_record nodes.now edge.now }
{
    names_ascend(edge.labels.as_slice())
        && properties_fit(&edge.properties)
        && ends_fit(nodes, &edge.ends)
}

fn ends_fit(nodes: &[NodeRecord], ends: &Ends) -> bool
    requires { AscendsBy (λ r. r.number.0) nodes.now }
    ensures { result ≡ are_ends nodes.now ends.now }
{
    match ends {
        Ends::Directed { source, target } => is_among(nodes, *source) && is_among(nodes, *target),
        Ends::Undirected { low, high } => {
            is_among(nodes, *low) && is_among(nodes, *high) && low.0 <= high.0
        }
    }
}
