//! The first element of a graph that fits no type.

ghost use Rattle.std.specs.Prelude.{◌≡◌, not, option_map, is_some, IfSome, IsTrue};
ghost use Rattle.std.specs.Option.{option_copied};
ghost use Rattle.gql_values3.specs.PropertyGraph.{is_graph};
ghost use Rattle.gql_type.specs.GraphTypes.{is_graph_type};
ghost use Rattle.gql_type.specs.Conformance.{conforms, first_misfit, is_least_misfit};
ghost use Rattle.gql_type.specs.Machinery.InOrder.{first_unmatched_node, first_unmatched_edge, first_unmatched};

use crate::matching::{edge_matches, node_matches};
use crate::nodes::Nodes;
use gql_graph::{Graph, GraphType};
use gql_values3::{EdgeRecord, Elem, NodeRecord};

/// An element that fits no type of its graph's graph type.
#[derive(Clone, Copy, Debug, PartialEq, Eq)]
pub struct Misfit {
    pub elem: Elem,
}

/// The first element that fits no type, nodes before edges, each by number. It takes no memory; each element is compared with
/// the types one after the other, until it fits one.
pub fn fits(graph: &Graph, kind: &GraphType) -> Option<Misfit>
    requires { IsTrue (is_graph_type kind.now) }
    ensures first { option_map (λ m. m.elem) result ≡ first_misfit graph.now.graph kind.now }
    ensures conforms { is_some result ≡ not (conforms graph.now.graph kind.now) }
    ensures least { IfSome result (λ m. IsTrue (is_least_misfit graph.now.graph kind.now m.elem)) }
{
    // What every graph is says that its labels and properties are in order.
    let _count = graph.count_nodes();
    match first_unmatched(graph, kind) {
        None => None,
        Some(elem) => Some(Misfit { elem }),
    }
}

fn first_unmatched(graph: &Graph, kind: &GraphType) -> Option<Elem>
    ensures { result ≡ first_unmatched graph.now.graph kind.now }
{
    // What every graph is says that the numbers of its nodes ascend.
    let _count = graph.count_nodes();
    let nodes = Nodes::of(graph.nodes());
    match first_unmatched_node(kind, graph.nodes()) {
        Some(node) => Some(Elem::Node(node.number)),
        None => {
            let edge = first_unmatched_edge(&nodes, kind, graph.edges())?;
            Some(Elem::Edge(edge.number))
        }
    }
}

fn first_unmatched_node<'a>(kind: &GraphType, nodes: &'a [NodeRecord]) -> Option<&'a NodeRecord>
    ensures { option_copied result ≡ first_unmatched_node kind.now nodes.now }
{
    nodes.iter().find(|node| !node_matches(kind, node))
}

fn first_unmatched_edge<'a>(
    nodes: &Nodes,
    kind: &GraphType,
    edges: &'a [EdgeRecord],
) -> Option<&'a EdgeRecord>
    ensures { option_copied result ≡ first_unmatched_edge nodes.now kind.now edges.now }
{
    edges.iter().find(|edge| !edge_matches(nodes, kind, edge))
}
