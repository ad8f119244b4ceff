//! The rows of a RETURN with GROUP BY, or with an aggregate over rows.

ghost use Rattle.std.specs.Prelude.{◌≡◌, true, map, IfOk};
ghost use Rattle.gql_ast.specs.Meaning.{tree_of};
ghost use Rattle.gql_values3.specs.Datum.{boolean};
ghost use Rattle.gql_ast.specs.Tree.{name, constant};
ghost use Rattle.gql_ast.specs.Projections.{output_trees};
ghost use Rattle.gql_eval.specs.Gives.{Gives};
ghost use Rattle.gql_table.specs.Grouping.{grouped_rows};
ghost use Rattle.gql_table.specs.Machinery.GroupPlan.{prepared_plan, rows_with_plan};
ghost use Rattle.gql_table.specs.Machinery.GroupMeaning.{item_meant};

use crate::group_items::{GroupItem, group_items};
use crate::group_rows::group_rows;
use crate::grouping::Grouping;
use crate::groups::groups_of_rows;
use crate::prepared_items::{PreparedItem, prepare_group_items};
use gql_ast::{Expr, ReturnItem, ReturnItems};
use gql_eval::EvalError;
use gql_values3::{ColumnKind, Columns, OutOfMemory, Params, Rows, Text, Value, View};
use std::alloc::Global;

/// The rows, one for each group of equal keys.
pub fn grouped_table<V: View>(
    alloc: Global,
    view: &V,
    columns: &Columns,
    rows: Rows,
    params: &Params,
    items: &ReturnItems,
) -> Result<Rows, EvalError>
    ensures { Gives (λ r. r) result (grouped_rows (V.graph view.now) params.now columns.now (output_trees columns.now items.now) rows) }
{
    match items {
        ReturnItems::Listed(items) => {
            let exprs = expressions(alloc, items.as_slice())?;
            grouped_by(alloc, view, columns, rows, params, exprs.as_slice())
        }
        ReturnItems::All => {
            let names = column_names(alloc, columns)?;
            let exprs = references(alloc, names.as_slice())?;
            grouped_by(alloc, view, columns, rows, params, exprs.as_slice())
        }
    }
}

/// The rows for these items. What COUNT(*) takes of a row is a value that each row has.
fn grouped_by<V: View>(
    alloc: Global,
    view: &V,
    columns: &Columns,
    rows: Rows,
    params: &Params,
    exprs: &[&Expr],
) -> Result<Rows, EvalError>
    ensures { Gives (λ r. r) result (grouped_rows (V.graph view.now) params.now columns.now (map (λ e. tree_of e.now) exprs.now) rows) }
{
    let items = group_items(alloc, columns, exprs)?;
    let each_row = Expr::Constant(Value::Bool(true));
    grouped_items(
        alloc,
        view,
        columns.as_slice(),
        rows,
        params,
        &each_row,
        items.as_slice(),
    )
}

/// All expressions are prepared first.
fn grouped_items<V: View>(
    alloc: Global,
    view: &V,
    columns: &[(Text, ColumnKind)],
    rows: Rows,
    params: &Params,
    each_row: &Expr,
    items: &[GroupItem],
) -> Result<Rows, EvalError>
    requires { tree_of each_row.now ≡ constant (boolean true) }
    ensures { Gives (λ r. r) result (rows_with_plan (V.graph view.now) (map (prepared_plan columns.now params.now) (map item_meant items.now)) rows) }
{
    let prepared = prepare_group_items(alloc, columns, params, each_row, items)?;
    prepared_rows(alloc, view, rows, prepared.as_slice())
}

fn prepared_rows<V: View>(
    alloc: Global,
    view: &V,
    rows: Rows,
    items: &[PreparedItem],
) -> Result<Rows, EvalError>
    ensures { Gives (λ r. r) result (rows_with_plan (V.graph view.now) items.now rows) }
{
    let grouping = Grouping { alloc, view, items };
    rows_by_group(&grouping, rows)
}

/// First every row joins its group, and then each group gives its row.
fn rows_by_group<V: View>(grouping: &Grouping<V>, rows: Rows) -> Result<Rows, EvalError>
    ensures { Gives (λ r. r) result (rows_with_plan (V.graph grouping.now.view.now) grouping.now.items.now rows) }
{
    let groups = groups_of_rows(grouping, rows)?;
    group_rows(grouping, groups.as_slice())
}

fn expressions<'a>(alloc: Global, items: &'a [ReturnItem]) -> Result<Vec<&'a Expr>, OutOfMemory>
    ensures { IfOk result (λ exprs. map (λ e. tree_of e.now) exprs.items ≡ map (λ i. tree_of i.value) items.now) }
{
    let mut exprs = Vec::new(alloc);
    for i in 0..items.len() {
        exprs.push(&items[i].value)?;
    }
    Ok(exprs)
}

/// The names of all columns, as `*` gives them.
fn column_names(alloc: Global, columns: &Columns) -> Result<Vec<Expr>, OutOfMemory>
    ensures { IfOk result (λ names. map tree_of names.items ≡ map (λ c. name c.0) columns.now) }
{
    let columns = columns.as_slice();
    let mut names = Vec::new(alloc);
    for i in 0..columns.len() {
        let column = &columns[i];
        names.push(Expr::Name(column.0.try_copy(alloc)?))?;
    }
    Ok(names)
}

fn references<'a>(alloc: Global, names: &'a [Expr]) -> Result<Vec<&'a Expr>, OutOfMemory>
    ensures { IfOk result (λ exprs. map (λ e. tree_of e.now) exprs.items ≡ map tree_of names.now) }
{
    let mut exprs = Vec::new(alloc);
    for i in 0..names.len() {
        exprs.push(&names[i])?;
    }
    Ok(exprs)
}
