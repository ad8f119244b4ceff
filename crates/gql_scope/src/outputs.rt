//! The columns that RETURN gives, and those that its sort keys see.

ghost use Rattle.std.specs.Prelude.{◌≡◌, [], ◌∷◌, ◌++◌, map, not, OnOk, IfOk};
ghost use Rattle.std.specs.List.{list_any};
ghost use Rattle.gql_ast.specs.Meaning.{tree_of};
ghost use Rattle.gql_ast.specs.Outputs.{item_name, item_column, text_name};
ghost use Rattle.gql_ast.specs.Projections.{output_columns, output_trees, is_key, is_grouped, is_distinct, sort_columns};

use crate::behind::kind_of;
use gql_ast::{Expr, Return, ReturnItem, ReturnItems, SetQuantifier, expr_text};
use gql_expr_checks::{KnownColumns, has_aggregate};
use gql_values3::{ColumnKind, OutOfMemory, Text};
use std::alloc::Global;

/// The name of a column of RETURN.
pub fn item_name(alloc: Global, item: &ReturnItem) -> Result<Text, OutOfMemory>
    ensures { IfOk result (λ name. name ≡ item_name item.now) }
{
    match &item.name {
        Some(name) => name.try_copy(alloc),
        None => text_name(alloc, &item.value),
    }
}

/// The name of a value that is given none.
pub fn text_name(alloc: Global, expr: &Expr) -> Result<Text, OutOfMemory>
    ensures { IfOk result (λ name. name ≡ text_name (tree_of expr.now)) }
{
    match expr {
        Expr::Name(name) => name.try_copy(alloc),
        _ => expr_text(alloc, expr),
    }
}

/// Adds the column of an item of RETURN, whose value sees the incoming columns.
pub fn push_item(
    alloc: Global,
    outputs: &mut KnownColumns,
    scope: &KnownColumns,
    item: &ReturnItem,
) -> Result<(), OutOfMemory>
    ensures { OnOk result (outputs.new ≡ outputs.old ++ item_column scope.now item.now ∷ []) }
{
    outputs.push(item_name(alloc, item)?, kind_of(scope, &item.value))
}

/// Adds the columns of a list of items.
fn push_items(
    alloc: Global,
    outputs: &mut KnownColumns,
    scope: &KnownColumns,
    items: &[ReturnItem],
) -> Result<(), OutOfMemory>
    ensures { OnOk result (outputs.new ≡ outputs.old ++ map (item_column scope.now) items.now) }
{
    for item in items {
        push_item(alloc, outputs, scope, item)?;
    }
    Ok(())
}

/// Adds copies of columns.
pub fn push_columns(
    alloc: Global,
    outputs: &mut KnownColumns,
    columns: &[(Text, ColumnKind)],
) -> Result<(), OutOfMemory>
    ensures { OnOk result (outputs.new ≡ outputs.old ++ columns.now) }
{
    for column in columns {
        outputs.push_copy(alloc, &column.0, column.1)?;
    }
    Ok(())
}

/// The columns that RETURN gives.
pub fn output_scope(
    alloc: Global,
    scope: &KnownColumns,
    items: &ReturnItems,
) -> Result<KnownColumns, OutOfMemory>
    ensures { IfOk result (λ outputs. outputs ≡ output_columns scope.now items.now) }
{
    let mut outputs = KnownColumns::new(alloc);
    match items {
        ReturnItems::All => push_columns(alloc, &mut outputs, scope.columns())?,
        ReturnItems::Listed(items) => push_items(alloc, &mut outputs, scope, items.as_slice())?,
    }
    Ok(outputs)
}

/// Whether an item has an aggregate over rows.
fn any_aggregates(scope: &KnownColumns, items: &ReturnItems) -> bool
    ensures { result ≡ list_any (λ e. not (is_key scope.now e)) (output_trees scope.now items.now) }
{
    match items {
        ReturnItems::All => false,
        ReturnItems::Listed(items) => any_listed(scope, items.as_slice()),
    }
}

fn any_listed(scope: &KnownColumns, items: &[ReturnItem]) -> bool
    ensures { result ≡ list_any (λ e. not (is_key scope.now e)) (map (λ i. tree_of i.value) items.now) }
{
    for item in items {
        if has_aggregate(scope, &item.value) {
            return true;
        }
    }
    false
}

/// Whether RETURN is grouped.
pub fn is_grouped(scope: &KnownColumns, clause: &Return) -> bool
    ensures { result ≡ is_grouped scope.now clause.now }
{
    clause.grouping.is_some() || any_aggregates(scope, &clause.items)
}

/// The columns that sort keys of RETURN see.
pub fn sort_scope(
    alloc: Global,
    scope: &KnownColumns,
    clause: &Return,
) -> Result<KnownColumns, OutOfMemory>
    ensures { IfOk result (λ keys. keys ≡ sort_columns scope.now clause.now) }
{
    let mut keys = output_scope(alloc, scope, &clause.items)?;
    if !is_grouped(scope, clause) && clause.quantifier == SetQuantifier::All {
        push_columns(alloc, &mut keys, scope.columns())?;
    }
    Ok(keys)
}
