//! The graph over which statements are evaluated.
ghost use Rattle.std.specs.Prelude.{◌≡◌, option_map, IfOk};
ghost use Rattle.std.specs.Option.{option_copied};
ghost use Rattle.gql_graph.specs.Catalog.{graph_of, empty_graph};
ghost use Rattle.gql_machine.specs.SessionState.{graph_or_empty};

use gql_graph::{Catalog, Graph};
use gql_values3::{OutOfMemory, Text};
use std::alloc::Global;

/// The graph of that name, or where it isn't there the empty one that is passed.
pub fn statement_graph<'a>(catalog: &'a Catalog, name: &Text, empty: &'a Graph) -> &'a Graph
    requires { empty.now.graph ≡ empty_graph }
    ensures { result.now.graph ≡ graph_or_empty (graph_of catalog.now name.now) }
{
    match current_graph(catalog, name) {
        Some(graph) => graph,
        None => empty,
    }
}

/// A copy of the graph of that name, or where it isn't there an empty one.
pub fn copy_statement_graph(
    alloc: Global,
    catalog: &Catalog,
    name: &Text,
) -> Result<Graph, OutOfMemory>
    ensures { IfOk result (λ copy. copy.graph ≡ graph_or_empty (graph_of catalog.now name.now)) }
{
    match current_graph(catalog, name) {
        Some(graph) => graph.try_copy(alloc),
        None => Ok(Graph::new(alloc)),
    }
}

fn current_graph<'a>(catalog: &'a Catalog, name: &Text) -> Option<&'a Graph>
    ensures { option_map (λ g. g.graph) (option_copied result) ≡ graph_of catalog.now name.now }
{
    catalog.graph(name.as_str())
}
