//! E07: a name that stands already, or a type that graphs have.
ghost use Rattle.std.specs.Prelude.{◌≡◌, IfOk, Some, None, option_map, if◌then◌else◌};
ghost use Rattle.gql_ast.specs.declared.refusal.Refusal.TheVariants.{Exists};
ghost use Rattle.gql_machine.specs.Machinery.Meaning.{session_state};
ghost use Rattle.gql_machine.specs.StateRefusals.{graph_of_type, taken_in_catalog, taken_refusal};

use crate::names::{graph_of_type, has_graph, has_graph_type};
use crate::state::Session;
use gql_ast::{CatalogStatement, Refusal, Statement};
use gql_graph::Catalog;
use gql_values3::{OutOfMemory, Text};
use std::alloc::Global;

/// The name of CREATE where it stands already, or the least graph that has the type of DROP.
pub fn taken_refusal(
    alloc: Global,
    session: &Session,
    statement: &Statement,
) -> Result<Option<Refusal>, OutOfMemory>
    ensures { IfOk result (λ found. found ≡ taken_refusal (session_state session.now) statement.now) }
{
    match statement {
        Statement::Catalog(statement) => taken_in_catalog(alloc, session.txn.catalog(), statement),
        _ => Ok(None),
    }
}

fn taken_in_catalog(
    alloc: Global,
    catalog: &Catalog,
    statement: &CatalogStatement,
) -> Result<Option<Refusal>, OutOfMemory>
    ensures { IfOk result (λ found. found ≡ taken_in_catalog catalog.now statement.now) }
{
    match statement {
        CatalogStatement::CreateGraph { lenient, name, .. } => {
            exists(alloc, !*lenient & has_graph(catalog, name), name)
        }
        CatalogStatement::DropGraph { .. } => Ok(None),
        CatalogStatement::CreateType { lenient, name, .. } => {
            exists(alloc, !*lenient & has_graph_type(catalog, name), name)
        }
        CatalogStatement::DropType { name, .. } => in_use(alloc, catalog, name),
    }
}

/// The least graph that has the type.
fn in_use(alloc: Global, catalog: &Catalog, name: &Text) -> Result<Option<Refusal>, OutOfMemory>
    ensures { IfOk result (λ found. found ≡ option_map Exists (graph_of_type catalog.now name.now)) }
{
    match graph_of_type(catalog, name) {
        Some(graph) => Ok(Some(Refusal::Exists(graph.try_copy(alloc)?))),
        None => Ok(None),
    }
}

/// The refusal, where the name is taken.
fn exists(alloc: Global, is_taken: bool, name: &Text) -> Result<Option<Refusal>, OutOfMemory>
    ensures { IfOk result (λ found. found ≡ (if is_taken then Some (Exists name.now) else None)) }
{
    if is_taken {
        Ok(Some(Refusal::Exists(name.try_copy(alloc)?)))
    } else {
        Ok(None)
    }
}
