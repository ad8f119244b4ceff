//! Whether names stand in the catalog.
ghost use Rattle.std.specs.Prelude.{◌≡◌, is_some, option_map, find};
ghost use Rattle.std.specs.Option.{option_copied};
ghost use Rattle.gql_graph.specs.Bare.{bare_held};
ghost use Rattle.gql_graph.specs.Catalog.{held_in, type_in};
ghost use Rattle.gql_machine.specs.StateRefusals.{has_type, graph_of_type};

use gql_graph::{Catalog, Held};
use gql_values3::Text;

/// Whether there is a graph of that name.
pub fn has_graph(catalog: &Catalog, name: &Text) -> bool
    ensures { result ≡ is_some (held_in catalog.now name.now) }
{
    match catalog.held(name.as_str()) {
        Some(_) => true,
        None => false,
    }
}

/// Whether there is a graph type of that name.
pub fn has_graph_type(catalog: &Catalog, name: &Text) -> bool
    ensures { result ≡ is_some (type_in catalog.now name.now) }
{
    match catalog.graph_type(name.as_str()) {
        Some(_) => true,
        None => false,
    }
}

/// The name of the least graph that has the type of that name.
pub fn graph_of_type<'a>(catalog: &'a Catalog, name: &Text) -> Option<&'a Text>
    ensures { option_copied result ≡ graph_of_type catalog.now name.now }
{
    first_of_type(catalog.graphs(), name)
}

fn first_of_type<'a>(graphs: &'a [(Text, Held)], name: &Text) -> Option<&'a Text>
    ensures { option_copied result ≡ option_map (λ g. g.0) (find (λ g. has_type name.now (bare_held g.1)) graphs.now) }
{
    graphs.iter().find(|g| is_of_type(&g.1, name)).map(|g| &g.0)
}

fn is_of_type(held: &Held, name: &Text) -> bool
    ensures { result ≡ has_type name.now (bare_held held.now) }
{
    match &held.kind {
        Some(kind) => name.as_str() == kind.as_str(),
        None => false,
    }
}
