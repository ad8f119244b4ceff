//! ORDER BY, OFFSET and LIMIT, as they stand together.

ghost use Rattle.std.specs.Prelude.{◌≡◌, ◌++◌, ◌∷◌, [], map, IfOk, OnOk};
ghost use Rattle.std.specs.Option.{option_copied};
ghost use Rattle.gql_table.specs.Paging.{keyed, ordered, paged};
ghost use Rattle.gql_table.specs.Machinery.Preparations.{keyed_by};
ghost use Rattle.gql_table.specs.Machinery.Width.{shown, seen};
ghost use Rattle.gql_ast.specs.Faults.{each};
ghost use Rattle.gql_eval.specs.Gives.{Gives};

use crate::paging::cut_table;
use crate::prepared::{prepare_keys, prepared_cells};
use crate::sorting::{Keyed, sort_keyed};
use gql_ast::{RowCount, SortItem, SortItems};
use gql_eval::{EvalError, Prepared};
use gql_values3::{Columns, List, OutOfMemory, Params, Row, Rows, View};
use std::alloc::Global;

/// What ORDER BY, OFFSET and LIMIT say, where they stand.
#[derive(Clone, Copy)]
pub struct Paging<'a> {
    pub order: Option<&'a SortItems>,
    pub skip: Option<&'a RowCount>,
    pub limit: Option<&'a RowCount>,
}

/// The rows in order, without the first ones, and no more than so many. Sort keys see whole rows, and `width` is the
/// number of values of a row that are put out; None is all.
pub fn page_table<V: View>(
    alloc: Global,
    view: &V,
    columns: &Columns,
    rows: Rows,
    width: Option<usize>,
    params: &Params,
    paging: &Paging,
) -> Result<Rows, EvalError>
    ensures { Gives (λ r. r) result (paged (V.graph view.now) params.now columns.now (option_copied paging.now.order) (option_copied paging.now.skip) (option_copied paging.now.limit) (map (seen width) rows)) }
{
    let all = order_table(alloc, view, columns, rows, width, params, paging.order)?;
    cut_table(alloc, params, paging.skip, paging.limit, all)
}

fn order_table<V: View>(
    alloc: Global,
    view: &V,
    columns: &Columns,
    rows: Rows,
    width: Option<usize>,
    params: &Params,
    order: Option<&SortItems>,
) -> Result<Rows, EvalError>
    ensures { Gives (λ r. r) result (ordered (V.graph view.now) params.now columns.now (option_copied order.entry) (map (seen width) rows)) }
{
    match order {
        None => Ok(shown_rows(alloc, rows, width)?),
        Some(items) => {
            let keyed = keyed_table(alloc, view, columns, rows, width, params, items.as_slice())?;
            let sorted = sort_keyed(keyed, items.as_slice())?;
            Ok(unkeyed_rows(alloc, sorted)?)
        }
    }
}

/// What is put out of each row, with the row's keys.
fn keyed_table<V: View>(
    alloc: Global,
    view: &V,
    columns: &Columns,
    rows: Rows,
    width: Option<usize>,
    params: &Params,
    items: &[SortItem],
) -> Result<Vec<Keyed>, EvalError>
    ensures { Gives (λ v. v.items) result (each (keyed (V.graph view.now) params.now columns.now items.now) (map (seen width) rows)) }
{
    let keys = prepare_keys(alloc, columns.as_slice(), params, items)?;
    keyed_rows(alloc, view, keys.as_slice(), rows, width)
}

fn keyed_rows<V: View>(
    alloc: Global,
    view: &V,
    keys: &[Prepared],
    rows: Rows,
    width: Option<usize>,
) -> Result<Vec<Keyed>, EvalError>
    ensures { Gives (λ v. v.items) result (each (keyed_by (V.graph view.now) keys.now) (map (seen width) rows)) }
{
    let mut done = Vec::new(alloc);
    for row in rows.into_vec() {
        let of_row = prepared_cells(alloc, view, keys, row.as_slice())?;
        add_keyed(&mut done, of_row, shown_row(row, width))?;
    }
    Ok(done)
}

fn add_keyed(done: &mut Vec<Keyed>, keys: List, row: Row) -> Result<(), OutOfMemory>
    ensures { OnOk result (done.new.items ≡ done.old.items ++ (keys, row) ∷ []) }
{
    done.push((keys, row))?;
    Ok(())
}

fn unkeyed_rows(alloc: Global, sorted: Vec<Keyed>) -> Result<Rows, OutOfMemory>
    ensures { IfOk result (λ rows. rows ≡ map (λ k. k.1) sorted.items) }
{
    let rows: Vec<Row> = sorted.into_iter().map(|(_, row)| row).collect(alloc)?;
    Ok(Rows::from_vec(rows))
}

fn shown_rows(alloc: Global, rows: Rows, width: Option<usize>) -> Result<Rows, OutOfMemory>
    ensures { IfOk result (λ done. done ≡ map (shown width) rows) }
{
    let done: Vec<Row> = rows
        .into_vec()
        .into_iter()
        .map(|row| shown_row(row, width))
        .collect(alloc)?;
    Ok(Rows::from_vec(done))
}

/// The values of a row that are put out.
fn shown_row(row: Row, width: Option<usize>) -> Row
    ensures { result ≡ shown width row }
{
    match width {
        None => row,
        Some(count) => {
            let mut values = row.into_vec();
            values.truncate(count);
            List::from_vec(values)
        }
    }
}
