//! The columns of RETURN.

ghost use Rattle.std.specs.Prelude.{◌≡◌, ◌++◌, map, IfOk};
ghost use Rattle.gql_ast.specs.Meaning.{tree_of};
ghost use Rattle.gql_ast.specs.Outputs.{item_column, item_name, text_name};
ghost use Rattle.gql_ast.specs.Projections.{output_columns};

use crate::columns::expr_kind;
use gql_ast::{Expr, ReturnItem, ReturnItems, expr_text};
use gql_eval::copied_columns;
use gql_values3::{ColumnKind, Columns, OutOfMemory, Text};
use std::alloc::Global;

/// The columns that RETURN gives; `*` gives all columns in order.
pub fn columns_after_return(
    alloc: Global,
    columns: &Columns,
    items: &ReturnItems,
) -> Result<Columns, OutOfMemory>
    ensures { IfOk result (λ all. all ≡ output_columns columns.now items.now) }
{
    match items {
        ReturnItems::All => copied_columns(alloc, columns.as_slice()),
        ReturnItems::Listed(items) => listed_columns(alloc, columns, items.as_slice()),
    }
}

/// A column for each item.
pub fn listed_columns(
    alloc: Global,
    columns: &Columns,
    items: &[ReturnItem],
) -> Result<Columns, OutOfMemory>
    ensures { IfOk result (λ all. all ≡ map (item_column columns.now) items.now) }
{
    let mut all = Columns::new(alloc);
    for i in 0..items.len() {
        all.push(column_of_item(alloc, columns, &items[i])?)?;
    }
    Ok(all)
}

/// A column for each item, and then the columns before.
pub fn listed_and_incoming(
    alloc: Global,
    columns: &Columns,
    items: &[ReturnItem],
) -> Result<Columns, OutOfMemory>
    ensures { IfOk result (λ all. all ≡ map (item_column columns.now) items.now ++ columns.now) }
{
    let mut all = listed_columns(alloc, columns, items)?;
    all.extend(copied_columns(alloc, columns.as_slice())?)?;
    Ok(all)
}

fn column_of_item(
    alloc: Global,
    columns: &Columns,
    item: &ReturnItem,
) -> Result<(Text, ColumnKind), OutOfMemory>
    ensures { IfOk result (λ column. column ≡ item_column columns.now item.now) }
{
    let kind = expr_kind(columns.as_slice(), &item.value);
    Ok((name_of_item(alloc, item)?, kind))
}

fn name_of_item(alloc: Global, item: &ReturnItem) -> Result<Text, OutOfMemory>
    ensures { IfOk result (λ name. name ≡ item_name item.now) }
{
    match &item.name {
        Some(name) => name.try_copy(alloc),
        None => name_of_value(alloc, &item.value),
    }
}

/// A bare variable has its own name, and every other value its canonical text.
fn name_of_value(alloc: Global, value: &Expr) -> Result<Text, OutOfMemory>
    ensures { IfOk result (λ name. name ≡ text_name (tree_of value.now)) }
{
    match value {
        Expr::Name(name) => name.try_copy(alloc),
        _ => expr_text(alloc, value),
    }
}
