//! The values of expressions in a row, which are prepared once for all rows of a clause.

ghost use Rattle.std.specs.Prelude.{◌≡◌, [], map, IfOk};
ghost use Rattle.gql_values3.specs.Meaning.{datum_of};
ghost use Rattle.gql_ast.specs.Faults.{each};
ghost use Rattle.gql_ast.specs.Meaning.{tree_of};
ghost use Rattle.gql_eval.specs.Gives.{Gives};
ghost use Rattle.gql_table.specs.Machinery.Preparations.{prepared_under, prepared_value};

use crate::room::empty_row;
use gql_ast::{Expr, ReturnItem, SortItem};
use gql_eval::{EvalError, Prepared};
use gql_values3::{ColumnKind, OutOfMemory, Params, Row, Text, Value, View};
use std::alloc::Global;

/// The expression, prepared for rows under these columns.
pub fn prepare<'a>(
    alloc: Global,
    columns: &'a [(Text, ColumnKind)],
    params: &'a Params,
    expr: &'a Expr,
) -> Result<Prepared<'a>, OutOfMemory>
    ensures { IfOk result (λ p. p ≡ prepared_under columns.now params.now (tree_of expr.now)) }
{
    Prepared::new(alloc, columns, params, expr)
}

/// The items of RETURN, prepared.
pub fn prepare_items<'a>(
    alloc: Global,
    columns: &'a [(Text, ColumnKind)],
    params: &'a Params,
    items: &'a [ReturnItem],
) -> Result<Vec<Prepared<'a>>, OutOfMemory>
    ensures { IfOk result (λ all. all.items ≡ map (prepared_under columns.now params.now) (map (λ i. tree_of i.value) items.now)) }
{
    let mut all = Vec::new(alloc);
    for i in 0..items.len() {
        let item = &items[i];
        all.push(prepare(alloc, columns, params, &item.value)?)?;
    }
    Ok(all)
}

/// The keys of ORDER BY, prepared.
pub fn prepare_keys<'a>(
    alloc: Global,
    columns: &'a [(Text, ColumnKind)],
    params: &'a Params,
    items: &'a [SortItem],
) -> Result<Vec<Prepared<'a>>, OutOfMemory>
    ensures { IfOk result (λ all. all.items ≡ map (prepared_under columns.now params.now) (map (λ i. tree_of i.key) items.now)) }
{
    let mut all = Vec::new(alloc);
    for i in 0..items.len() {
        let item = &items[i];
        all.push(prepare(alloc, columns, params, &item.key)?)?;
    }
    Ok(all)
}

/// The value of a prepared expression in a row, or its first fault.
pub fn prepared_cell<V: View>(
    alloc: Global,
    view: &V,
    prepared: &Prepared,
    row: &[Value],
) -> Result<Value, EvalError>
    ensures { Gives datum_of result (prepared_value (V.graph view.now) prepared.now (map datum_of row.now)) }
{
    let held = prepared.value(alloc, view, row)?;
    Ok(held.into_value(alloc)?)
}

/// The values of prepared expressions in a row, or the first fault. The row has room for these alone.
pub fn prepared_cells<V: View>(
    alloc: Global,
    view: &V,
    prepared: &[Prepared],
    row: &[Value],
) -> Result<Row, EvalError>
    ensures { Gives (λ r. r) result (each (λ p. prepared_value (V.graph view.now) p (map datum_of row.now)) prepared.now) }
{
    let room = empty_row(alloc, prepared.len())?;
    cells_in_room(alloc, view, prepared, row, room)
}

/// The same in a row that holds nothing yet.
pub fn cells_in_room<V: View>(
    alloc: Global,
    view: &V,
    prepared: &[Prepared],
    row: &[Value],
    room: Row,
) -> Result<Row, EvalError>
    requires { room ≡ [] }
    ensures { Gives (λ r. r) result (each (λ p. prepared_value (V.graph view.now) p (map datum_of row.now)) prepared.now) }
{
    let mut values = room;
    for i in 0..prepared.len() {
        let value = prepared_cell(alloc, view, &prepared[i], row)?;
        values.push(value)?;
    }
    Ok(values)
}
