//! Edges that a deletion would leave without a node.

ghost use Rattle.std.specs.Prelude.{◌≡◌};
ghost use Rattle.gql_change.specs.Machinery.DeletionSteps.{has_number, other_edge, other_edges, refusal_of};
ghost use Rattle.gql_change.specs.Machinery.Rising.{IsRising};

use gql_ast::{Detachment, Refusal};
use gql_values3::{EdgeId, NodeId, View};

/// E20 of the first node, in order, that an edge touches which is not among these. With DETACH none is.
pub fn refusal_of<V: View>(
    view: &V,
    nodes: &[u32],
    edges: &[u32],
    detachment: Detachment,
) -> Option<Refusal>
    requires { IsRising edges.now }
    ensures { result ≡ refusal_of detachment edges.now (V.graph view.now) nodes.now }
{
    match detachment {
        Detachment::Detach => None,
        Detachment::NoDetach => other_edges(view, nodes, edges),
    }
}

fn other_edges<V: View>(view: &V, nodes: &[u32], edges: &[u32]) -> Option<Refusal>
    requires { IsRising edges.now }
    ensures { result ≡ other_edges edges.now (V.graph view.now) nodes.now }
{
    for i in 0..nodes.len() {
        let node = nodes[i];
        if let Some(edge) = other_edge(view, node, edges) {
            return Some(Refusal::Edges {
                node: NodeId(node),
                edge,
            });
        }
    }
    None
}

/// The first edge on the node, by number, that is not among these.
fn other_edge<V: View>(view: &V, node: u32, edges: &[u32]) -> Option<EdgeId>
    requires { IsRising edges.now }
    ensures { result ≡ other_edge edges.now (V.graph view.now) node }
{
    // What is looked at is a graph, so it has fewer edges than there are numbers.
    let _count = view.node_count();
    for i in 0..u32::MAX {
        match view.touching(NodeId(node), i) {
            Some(edge) => {
                if !has_number(edges, edge.0) {
                    return Some(edge);
                }
            }
            None => return None,
        }
    }
    None
}

fn has_number(numbers: &[u32], number: u32) -> bool
    requires { IsRising numbers.now }
    ensures { result ≡ has_number numbers.now number }
{
    numbers.binary_search(&number).is_ok()
}
