//! E06: what a statement names and isn't there.
ghost use Rattle.std.specs.Prelude.{◌≡◌, IfOk, Some, None, if◌then◌else◌};
ghost use Rattle.gql_ast.specs.declared.refusal.Refusal.TheVariants.{NoSuch};
ghost use Rattle.gql_machine.specs.Machinery.Meaning.{session_state};
ghost use Rattle.gql_machine.specs.StateRefusals.{missing_graph, missing_kind, missing_in_catalog, missing_in_session, missing_refusal};

use crate::names::{has_graph, has_graph_type};
use crate::state::Session;
use gql_ast::{CatalogStatement, GraphKind, Refusal, SessionStatement, Statement};
use gql_graph::Catalog;
use gql_values3::{OutOfMemory, Text};
use std::alloc::Global;

/// The current graph of a query, the graph of SESSION SET GRAPH, the type of CREATE GRAPH, or what DROP names, where it isn't there.
pub fn missing_refusal(
    alloc: Global,
    session: &Session,
    statement: &Statement,
) -> Result<Option<Refusal>, OutOfMemory>
    ensures { IfOk result (λ found. found ≡ missing_refusal (session_state session.now) statement.now) }
{
    let catalog = session.txn.catalog();
    match statement {
        Statement::Query(_) => missing_graph(alloc, catalog, &session.graph),
        Statement::Session(statement) => missing_in_session(alloc, catalog, statement),
        Statement::Catalog(statement) => missing_in_catalog(alloc, catalog, statement),
        Statement::Transaction(_) => Ok(None),
    }
}

fn missing_in_session(
    alloc: Global,
    catalog: &Catalog,
    statement: &SessionStatement,
) -> Result<Option<Refusal>, OutOfMemory>
    ensures { IfOk result (λ found. found ≡ missing_in_session catalog.now statement.now) }
{
    match statement {
        SessionStatement::SetGraph(name) => missing_graph(alloc, catalog, name),
        _ => Ok(None),
    }
}

fn missing_in_catalog(
    alloc: Global,
    catalog: &Catalog,
    statement: &CatalogStatement,
) -> Result<Option<Refusal>, OutOfMemory>
    ensures { IfOk result (λ found. found ≡ missing_in_catalog catalog.now statement.now) }
{
    match statement {
        CatalogStatement::CreateGraph { kind, .. } => missing_kind(alloc, catalog, kind),
        CatalogStatement::DropGraph { lenient, name } => {
            no_such(alloc, *lenient | has_graph(catalog, name), name)
        }
        CatalogStatement::CreateType { .. } => Ok(None),
        CatalogStatement::DropType { lenient, name } => {
            no_such(alloc, *lenient | has_graph_type(catalog, name), name)
        }
    }
}

/// The type of a new graph.
fn missing_kind(
    alloc: Global,
    catalog: &Catalog,
    kind: &GraphKind,
) -> Result<Option<Refusal>, OutOfMemory>
    ensures { IfOk result (λ found. found ≡ missing_kind catalog.now kind.now) }
{
    match kind {
        GraphKind::Any => Ok(None),
        GraphKind::Typed(name) => no_such(alloc, has_graph_type(catalog, name), name),
    }
}

fn missing_graph(
    alloc: Global,
    catalog: &Catalog,
    name: &Text,
) -> Result<Option<Refusal>, OutOfMemory>
    ensures { IfOk result (λ found. found ≡ missing_graph catalog.now name.now) }
{
    no_such(alloc, has_graph(catalog, name), name)
}

/// The refusal, unless all is well.
fn no_such(alloc: Global, is_well: bool, name: &Text) -> Result<Option<Refusal>, OutOfMemory>
    ensures { IfOk result (λ found. found ≡ (if is_well then None else Some (NoSuch name.now))) }
{
    if is_well {
        Ok(None)
    } else {
        Ok(Some(Refusal::NoSuch(name.try_copy(alloc)?)))
    }
}
