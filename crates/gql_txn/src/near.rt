//! Nodes and edges by number, looked for at one place first: who goes through two graphs by ascending numbers finds them there.

ghost use Rattle.std.specs.Prelude.{◌≡◌};
ghost use Rattle.std.specs.Option.{option_copied};
ghost use Rattle.gql_values3.specs.Lookup.{node_of, edge_of};

use gql_graph::Graph;
use gql_values3::{EdgeId, EdgeRecord, NodeId, NodeRecord};

/// The node of that number, which is looked for at this place first.
pub fn node_near(graph: &Graph, near: usize, number: NodeId) -> Option<&NodeRecord>
    ensures { option_copied result ≡ node_of graph.now.graph number }
{
    // The count's clause says that the graph is one.
    let _count = graph.count_nodes();
    if let Some(found) = graph.nodes().get(near) {
        if found.number.0 == number.0 {
            return Some(found);
        }
    }
    graph.node(number)
}

/// The edge of that number, which is looked for at this place first.
pub fn edge_near(graph: &Graph, near: usize, number: EdgeId) -> Option<&EdgeRecord>
    ensures { option_copied result ≡ edge_of graph.now.graph number }
{
    // The count's clause says that the graph is one.
    let _count = graph.count_nodes();
    if let Some(found) = graph.edges().get(near) {
        if found.number.0 == number.0 {
            return Some(found);
        }
    }
    graph.edge(number)
}

/// The first place from this one on where no node of a lower number stands. It is where to look first, and no more.
pub fn node_place(graph: &Graph, from: usize, number: NodeId) -> usize {
    let nodes = graph.nodes();
    let mut place = from;
    while place < nodes.len() && nodes[place].number.0 < number.0 {
        place += 1;
    }
    place
}

/// The first place from this one on where no edge of a lower number stands. It is where to look first, and no more.
pub fn edge_place(graph: &Graph, from: usize, number: EdgeId) -> usize {
    let edges = graph.edges();
    let mut place = from;
    while place < edges.len() && edges[place].number.0 < number.0 {
        place += 1;
    }
    place
}
