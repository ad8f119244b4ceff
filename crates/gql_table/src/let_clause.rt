//! LET.

ghost use Rattle.std.specs.Prelude.{◌≡◌, ◌+◌, take, length, IfOk};
ghost use Rattle.gql_ast.specs.Faults.{each};
ghost use Rattle.gql_table.specs.Let.{let_rows};
ghost use Rattle.gql_table.specs.Machinery.Preparations.{prepared_lets, row_with};
ghost use Rattle.gql_ast.specs.ClauseColumns.{let_columns};
ghost use Rattle.gql_eval.specs.Gives.{Gives};

use crate::columns::expr_kind;
use crate::prepared::{prepare, prepared_cell};
use crate::room::with_room;
use gql_ast::LetItem;
use gql_eval::{EvalError, Prepared, copied_columns};
use gql_values3::{ColumnKind, Columns, OutOfMemory, Params, Row, Rows, Text, View};
use std::alloc::Global;
use std::mem;

/// The columns behind LET: one for each item, behind those before.
pub fn columns_after_let(
    alloc: Global,
    columns: &Columns,
    items: &[LetItem],
) -> Result<Columns, OutOfMemory>
    ensures { IfOk result (λ all. all ≡ let_columns columns.now items.now) }
{
    let mut all = copied_columns(alloc, columns.as_slice())?;
    for i in 0..items.len() {
        let item = &items[i];
        let kind = expr_kind(all.as_slice(), &item.value);
        all.push((item.name.try_copy(alloc)?, kind))?;
    }
    Ok(all)
}

/// The rows with the values of the items. They are moved.
pub fn let_table<V: View>(
    alloc: Global,
    view: &V,
    columns: &Columns,
    rows: Rows,
    params: &Params,
    items: &[LetItem],
) -> Result<Rows, EvalError>
    ensures { Gives (λ r. r) result (let_rows (V.graph view.now) params.now columns.now items.now rows) }
{
    let all = columns_after_let(alloc, columns, items)?;
    let prepared = prepare_lets(alloc, all.as_slice(), columns.len(), params, items)?;
    rows_with(alloc, view, prepared.as_slice(), rows)
}

/// The items, each prepared under the columns that it sees. The columns are those behind the clause, of which `width`
/// were there before.
fn prepare_lets<'a>(
    alloc: Global,
    columns: &'a [(Text, ColumnKind)],
    width: usize,
    params: &'a Params,
    items: &'a [LetItem],
) -> Result<Vec<Prepared<'a>>, OutOfMemory>
    requires columns { let_columns (take width columns.now) items.now ≡ columns.now }
    requires width { width + length items.now ≡ length columns.now }
    ensures { IfOk result (λ all. all.items ≡ prepared_lets (take width columns.now) params.now items.now) }
{
    let mut all = Vec::new(alloc);
    for i in 0..items.len() {
        let item = &items[i];
        let seen = &columns[..width + i];
        all.push(prepare(alloc, seen, params, &item.value)?)?;
    }
    Ok(all)
}

/// The rows with the values of the items, each in the place of the one that it was.
fn rows_with<V: View>(
    alloc: Global,
    view: &V,
    items: &[Prepared],
    rows: Rows,
) -> Result<Rows, EvalError>
    ensures { Gives (λ r. r) result (each (row_with (V.graph view.now) items.now) rows) }
{
    let mut all = rows.into_vec();
    for i in 0..all.len() {
        let row = mem::replace(&mut all[i], Row::new(alloc));
        all[i] = row_after_let(alloc, view, items, row)?;
    }
    Ok(Rows::from_vec(all))
}

/// The row with the values of the items, each seen by the next.
fn row_after_let<V: View>(
    alloc: Global,
    view: &V,
    items: &[Prepared],
    row: Row,
) -> Result<Row, EvalError>
    ensures { Gives (λ r. r) result (row_with (V.graph view.now) items.now row) }
{
    let mut longer = with_room(row, items.len())?;
    for i in 0..items.len() {
        let value = prepared_cell(alloc, view, &items[i], longer.as_slice())?;
        longer.push(value)?;
    }
    Ok(longer)
}
