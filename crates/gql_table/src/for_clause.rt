//! FOR.

ghost use Rattle.std.specs.Prelude.{◌≡◌, ◌≤◌, ◌++◌, ◌∷◌, [], map, IfOk};
ghost use Rattle.gql_values3.specs.Meaning.{datum_of};
ghost use Rattle.gql_ast.specs.Outputs.{element_kind};
ghost use Rattle.gql_eval.specs.Gives.{Gives};
ghost use Rattle.gql_eval.specs.Machinery.Next.{next};
ghost use Rattle.gql_eval.specs.RowLists.{each_some};
ghost use Rattle.gql_table.specs.For.{first_count, for_rows, item_rows, rows_over, start_count};
ghost use Rattle.gql_table.specs.Machinery.Preparations.{prepared_value};
ghost use Rattle.gql_ast.specs.ClauseColumns.{for_columns};

use crate::columns::expr_kind;
use crate::prepared::{prepare, prepared_cell};
use crate::room::{copy_with_room, empty_rows};
use gql_ast::{Counting, DataFault, For};
use gql_eval::{EvalError, Prepared, copied_columns, count_value};
use gql_values3::{ColumnKind, Columns, List, OutOfMemory, Params, Row, Rows, Text, Value, View};
use std::alloc::Global;

/// The columns behind FOR: the item's, and then the counter's.
pub fn columns_after_for(
    alloc: Global,
    columns: &Columns,
    clause: &For,
) -> Result<Columns, OutOfMemory>
    ensures { IfOk result (λ all. all ≡ for_columns columns.now clause.now) }
{
    let kind = item_kind(expr_kind(columns.as_slice(), &clause.list));
    let mut all = copied_columns(alloc, columns.as_slice())?;
    all.push((clause.name.try_copy(alloc)?, kind))?;
    if let Some((_, name)) = &clause.counter {
        all.push((name.try_copy(alloc)?, ColumnKind::Plain))?;
    }
    Ok(all)
}

/// What an item of a list holds: that of a group is an element.
fn item_kind(kind: ColumnKind) -> ColumnKind
    ensures { result ≡ element_kind kind }
{
    match kind {
        ColumnKind::Nodes => ColumnKind::Node,
        ColumnKind::Edges => ColumnKind::Edge,
        _ => ColumnKind::Plain,
    }
}

/// A row for each item of each row's list.
pub fn for_table<V: View>(
    alloc: Global,
    view: &V,
    columns: &Columns,
    rows: Rows,
    params: &Params,
    clause: &For,
) -> Result<Rows, EvalError>
    ensures { Gives (λ r. r) result (for_rows (V.graph view.now) params.now columns.now clause.now rows) }
{
    let list = prepare(alloc, columns.as_slice(), params, &clause.list)?;
    rows_over_lists(alloc, view, &list, rows, clause)
}

fn rows_over_lists<V: View>(
    alloc: Global,
    view: &V,
    list: &Prepared,
    rows: Rows,
    clause: &For,
) -> Result<Rows, EvalError>
    ensures { Gives (λ r. r) result (each_some (λ row. next (prepared_value (V.graph view.now) list.now row) (rows_over clause.now row)) rows) }
{
    let mut done = Rows::new(alloc);
    for row in rows.into_vec() {
        let more = rows_of_row(alloc, view, list, &row, clause)?;
        done.extend(more)?;
    }
    Ok(done)
}

/// A row for each item. NULL has none, and only a list has some.
fn rows_of_row<V: View>(
    alloc: Global,
    view: &V,
    list: &Prepared,
    row: &Row,
    clause: &For,
) -> Result<Rows, EvalError>
    ensures { Gives (λ r. r) result (next (prepared_value (V.graph view.now) list.now row.now) (rows_over clause.now row.now)) }
{
    let value = prepared_cell(alloc, view, list, row.as_slice())?;
    match value {
        Value::Null => Ok(Rows::new(alloc)),
        Value::List(items) => rows_of_items(alloc, row, items, &clause.counter),
        _ => Err(EvalError::Fault(DataFault::WrongKind)),
    }
}

#[tactic(auto, using(crate::proofs::ForLemmas::plain_items))]
fn rows_of_items(
    alloc: Global,
    row: &Row,
    items: List,
    counter: &Option<(Counting, Text)>,
) -> Result<Rows, EvalError>
    ensures { Gives (λ r. r) result (item_rows counter.now (start_count counter.now) row.now items) }
{
    match counter {
        None => Ok(plain_rows(alloc, row, items)?),
        Some(counter) => counted_rows(alloc, row, items, counter),
    }
}

/// The rows of the items, without numbers.
fn plain_rows(alloc: Global, row: &Row, items: List) -> Result<Rows, OutOfMemory>
    ensures { IfOk result (λ rows. rows ≡ map (λ d. row.now ++ d ∷ []) items) }
{
    let mut rows = empty_rows(alloc, items.len())?;
    for item in items.into_vec() {
        let mut longer = copy_with_room(alloc, row, 2)?;
        longer.push(item)?;
        rows.push(longer)?;
    }
    Ok(rows)
}

/// The rows of the items, numbered from the counter's first number on.
fn counted_rows(
    alloc: Global,
    row: &Row,
    items: List,
    counter: &(Counting, Text),
) -> Result<Rows, EvalError>
    ensures { Gives (λ r. r) result (item_rows (Some counter.now) (first_count counter.now.0) row.now items) }
{
    let first = first_number(counter.0);
    let all = items.len();
    let mut left = all;
    let mut rows = empty_rows(alloc, all)?;
    for item in items.into_vec() {
        let number = count_value(first + (all - left))?;
        rows.push(counted_row(alloc, row, item, number)?)?;
        left -= 1;
    }
    Ok(rows)
}

fn counted_row(alloc: Global, row: &Row, item: Value, number: Value) -> Result<Row, OutOfMemory>
    ensures { IfOk result (λ longer. longer ≡ row.now ++ datum_of item ∷ datum_of number ∷ []) }
{
    let mut longer = copy_with_room(alloc, row, 3)?;
    longer.push(item)?;
    longer.push(number)?;
    Ok(longer)
}

/// The first number of a counter.
fn first_number(counting: Counting) -> usize
    ensures number { result ≡ first_count counting }
    ensures small { result ≤ 1 }
{
    match counting {
        Counting::Ordinality => 1,
        Counting::Offset => 0,
    }
}
