//! The catalog of what was read, its graphs and types in order by name.

ghost use Rattle.std.specs.Prelude.{◌≡◌, IfOk, IsTrue, map, true};
ghost use Rattle.std.specs.List.{list_all};
ghost use Rattle.gql_values3.specs.PropertyGraph.{is_graph};
ghost use Rattle.gql_graph.specs.Bare.{bare, bare_held};
ghost use Rattle.gql_eval.specs.StableSort.{stably_sorted};
ghost use Rattle.gql_type.specs.SoundCatalog.{is_sound};
ghost use Rattle.gql_rowcode.specs.Machinery.Noted.{in_order, name_before, noted_of, named_seen, graph_seen};

use crate::seen::{GraphSeen, Seen};
use gql_graph::{Catalog, Graph, GraphType, Held};
use gql_values3::{OutOfMemory, Text};

/// The catalog. Each graph is one, and no name stands twice.
pub fn catalog_of(seen: Seen) -> Result<Catalog, OutOfMemory>
    requires { IsTrue (is_sound (in_order (noted_of seen))) }
    ensures { IfOk result (λ c. c ≡ in_order (noted_of seen)) }
{
    let types = types_in_order(seen.types)?;
    let graphs = held_graphs(graphs_in_order(seen.graphs)?)?;
    Ok(Catalog::of(graphs, types).unwrap())
}

fn types_in_order(types: Vec<(Text, GraphType)>) -> Result<Vec<(Text, GraphType)>, OutOfMemory>
    ensures { IfOk result (λ sorted. sorted.items ≡ stably_sorted name_before types.items) }
{
    let mut sorted = types;
    sorted.sort_by(|a, b| a.0.as_str().cmp(b.0.as_str()))?;
    Ok(sorted)
}

fn graphs_in_order(graphs: Vec<(Text, GraphSeen)>) -> Result<Vec<(Text, GraphSeen)>, OutOfMemory>
    ensures { IfOk result (λ sorted. sorted.items ≡ stably_sorted name_before graphs.items) }
{
    let mut sorted = graphs;
    sorted.sort_by(|a, b| a.0.as_str().cmp(b.0.as_str()))?;
    Ok(sorted)
}

fn held_graphs(graphs: Vec<(Text, GraphSeen)>) -> Result<Vec<(Text, Held)>, OutOfMemory>
    requires { IsTrue (list_all (λ g. is_graph (graph_seen g.1).graph) graphs.items) }
    ensures { IfOk result (λ held. map bare held.items ≡ map named_seen graphs.items) }
{
    let mut held = Vec::with_capacity(*graphs.allocator(), graphs.len())?;
    for (name, graph) in graphs {
        held.push((name, held_graph(graph)))?;
    }
    Ok(held)
}

fn held_graph(graph: GraphSeen) -> Held
    requires { IsTrue (is_graph (graph_seen graph).graph) }
    ensures { bare_held result ≡ graph_seen graph }
{
    let whole = Graph::of(graph.nodes, graph.edges, graph.next_node, graph.next_edge);
    Held {
        graph: whole.unwrap(),
        kind: graph.kind,
    }
}
