//! Statements about graphs and graph types.
ghost use Rattle.std.specs.Prelude.{◌≡◌, None, OnOk, [], is_some, if◌then◌else◌};
ghost use Rattle.std.specs.Option.{option_copied};
ghost use Rattle.gql_graph.specs.Catalog.{held_in, type_in, with_graph, without_graph, with_type, without_type};
ghost use Rattle.gql_txn.specs.TxnData.{with_catalog, new_graph};
ghost use Rattle.gql_type.specs.BodyFaults.{wrong_aliases, repeated_names};
ghost use Rattle.gql_type.specs.BodyMeaning.{graph_type_of};
ghost use Rattle.gql_machine.specs.StateRefusals.{missing_kind, missing_in_catalog, taken_in_catalog, graph_of_type};
ghost use Rattle.gql_machine.specs.StatementRun.{type_name, catalog_after};
ghost use Rattle.gql_machine.specs.Machinery.Allowed.{IsSoundType};

use crate::names::{has_graph, has_graph_type};
use gql_ast::{CatalogStatement, GraphKind, TypeBody};
use gql_txn::Txn;
use gql_type::graph_type;
use gql_values3::{OutOfMemory, Text};
use std::alloc::Global;

/// Makes or takes away a graph or a graph type. Where a name of CREATE stands already, or one of DROP is missing, all stays.
pub fn run_catalog_statement(
    alloc: Global,
    txn: &mut Txn,
    statement: &CatalogStatement,
) -> Result<(), OutOfMemory>
    requires missing { missing_in_catalog txn.old.catalog statement.now ≡ None }
    requires taken { taken_in_catalog txn.old.catalog statement.now ≡ None }
    requires sound { IsSoundType statement.now }
    ensures { OnOk result (txn.new ≡ with_catalog txn.old (catalog_after txn.old.catalog statement.now)) }
{
    match statement {
        CatalogStatement::CreateGraph { name, kind, .. } => create_graph(alloc, txn, name, kind),
        CatalogStatement::DropGraph { name, .. } => drop_graph(alloc, txn, name),
        CatalogStatement::CreateType { name, body, .. } => create_type(alloc, txn, name, body),
        CatalogStatement::DropType { name, .. } => drop_type(alloc, txn, name),
    }
}

fn create_graph(
    alloc: Global,
    txn: &mut Txn,
    name: &Text,
    kind: &GraphKind,
) -> Result<(), OutOfMemory>
    requires { missing_kind txn.old.catalog kind.now ≡ None }
    ensures { OnOk result (txn.new ≡ with_catalog txn.old (if is_some (held_in txn.old.catalog name.now) then txn.old.catalog else with_graph name.now (new_graph (type_name kind.now)) txn.old.catalog)) }
{
    if has_graph(txn.catalog(), name) {
        Ok(())
    } else {
        txn.create_graph(alloc, name, type_name(kind))
    }
}

/// The name of the type of a new graph.
fn type_name(kind: &GraphKind) -> Option<&Text>
    ensures { option_copied result ≡ type_name kind.now }
{
    match kind {
        GraphKind::Any => None,
        GraphKind::Typed(name) => Some(name),
    }
}

fn drop_graph(alloc: Global, txn: &mut Txn, name: &Text) -> Result<(), OutOfMemory>
    ensures { OnOk result (txn.new ≡ with_catalog txn.old (without_graph name.now txn.old.catalog)) }
{
    if has_graph(txn.catalog(), name) {
        txn.drop_graph(alloc, name)
    } else {
        Ok(())
    }
}

fn create_type(
    alloc: Global,
    txn: &mut Txn,
    name: &Text,
    body: &TypeBody,
) -> Result<(), OutOfMemory>
    requires aliases { wrong_aliases body.now ≡ [] }
    requires names { repeated_names body.now.elements ≡ [] }
    ensures { OnOk result (txn.new ≡ with_catalog txn.old (if is_some (type_in txn.old.catalog name.now) then txn.old.catalog else with_type name.now (graph_type_of body.now) txn.old.catalog)) }
{
    if has_graph_type(txn.catalog(), name) {
        return Ok(());
    }
    let kind = graph_type(alloc, body)?;
    txn.create_type(alloc, name, kind)
}

fn drop_type(alloc: Global, txn: &mut Txn, name: &Text) -> Result<(), OutOfMemory>
    requires { graph_of_type txn.old.catalog name.now ≡ None }
    ensures { OnOk result (txn.new ≡ with_catalog txn.old (without_type name.now txn.old.catalog)) }
{
    if has_graph_type(txn.catalog(), name) {
        txn.drop_type(alloc, name)
    } else {
        Ok(())
    }
}
