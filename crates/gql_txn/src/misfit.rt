//! Graphs of a catalog against their types.

ghost use Rattle.std.specs.Prelude.{◌≡◌, IfOk, IsTrue, option_map};
ghost use Rattle.std.specs.Option.{option_copied};
ghost use Rattle.gql_graph.specs.Bare.{bare_held};
ghost use Rattle.gql_type.specs.SoundCatalog.{is_sound};
ghost use Rattle.gql_txn.specs.TxnData.{type_of_graph, misfit_in, new_graph};

use gql_graph::{Catalog, Graph, GraphType, Held};
use gql_type::{Misfit, fits};
use gql_values3::{OutOfMemory, Text};
use std::alloc::Global;

/// The first element that fits no type, of a graph that would take the place of the one of this name.
pub fn misfit_in(catalog: &Catalog, name: &str, graph: &Graph) -> Option<Misfit>
    requires { IsTrue (is_sound catalog.now) }
    ensures { option_map (λ m. m.elem) result ≡ misfit_in catalog.now name.now graph.now.graph }
{
    match type_of(catalog, name) {
        Some(kind) => fits(graph, kind),
        None => None,
    }
}

/// The type of the graph of this name, where it has one.
fn type_of<'a>(catalog: &'a Catalog, name: &str) -> Option<&'a GraphType>
    ensures { option_copied result ≡ type_of_graph catalog.now name.now }
{
    match catalog.held(name) {
        None => None,
        Some(held) => match &held.kind {
            None => None,
            Some(kind) => catalog.graph_type(kind.as_str()),
        },
    }
}

/// A graph without elements, of the type of this name, where one is given.
pub fn new_held(alloc: Global, kind: Option<&Text>) -> Result<Held, OutOfMemory>
    ensures { IfOk result (λ held. bare_held held ≡ new_graph (option_copied kind.entry)) }
{
    let kind = match kind {
        None => None,
        Some(name) => Some(name.try_copy(alloc)?),
    };
    Ok(Held {
        graph: Graph::new(alloc),
        kind,
    })
}
