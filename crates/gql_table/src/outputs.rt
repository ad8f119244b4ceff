//! The output rows of RETURN, one for each row.

ghost use Rattle.std.specs.Prelude.{◌≡◌, [], ◌++◌, map, Ok, IfOk};
ghost use Rattle.gql_ast.specs.Meaning.{tree_of};
ghost use Rattle.gql_ast.specs.Faults.{each};
ghost use Rattle.gql_eval.specs.Gives.{Gives};
ghost use Rattle.gql_eval.specs.Machinery.Next.{next};
ghost use Rattle.gql_table.specs.Projection.{output_row};
ghost use Rattle.gql_table.specs.Machinery.Preparations.{prepared_value, values_of};

use crate::prepared::{cells_in_room, prepare_items, prepared_cells};
use crate::room::{emptied, empty_row};
use gql_ast::ReturnItem;
use gql_eval::{EvalError, Prepared};
use gql_values3::{Columns, Params, Row, Rows, View};
use std::alloc::Global;
use std::mem;

/// The values of the items in each row.
pub fn output_table<V: View>(
    alloc: Global,
    view: &V,
    columns: &Columns,
    rows: Rows,
    params: &Params,
    items: &[ReturnItem],
) -> Result<Rows, EvalError>
    ensures { Gives (λ r. r) result (each (output_row (V.graph view.now) params.now columns.now (map (λ i. tree_of i.value) items.now)) rows) }
{
    let prepared = prepare_items(alloc, columns.as_slice(), params, items)?;
    output_rows(alloc, view, prepared.as_slice(), rows)
}

/// The values of the items in each row, and behind them the row, which is moved.
pub fn wide_table<V: View>(
    alloc: Global,
    view: &V,
    columns: &Columns,
    rows: Rows,
    params: &Params,
    items: &[ReturnItem],
) -> Result<Rows, EvalError>
    ensures { Gives (λ r. r) result (each (λ row. next (output_row (V.graph view.now) params.now columns.now (map (λ i. tree_of i.value) items.now) row) (λ out. Ok (out ++ row))) rows) }
{
    let prepared = prepare_items(alloc, columns.as_slice(), params, items)?;
    wide_rows(alloc, view, prepared.as_slice(), rows)
}

/// The values stand in the place of the row that they are of, and in the room of the row before it, so that no row takes room.
fn output_rows<V: View>(
    alloc: Global,
    view: &V,
    items: &[Prepared],
    rows: Rows,
) -> Result<Rows, EvalError>
    ensures { Gives (λ r. r) result (each (values_of (V.graph view.now) items.now) rows) }
{
    let mut all = rows.into_vec();
    let mut room = empty_row(alloc, items.len())?;
    for i in 0..all.len() {
        let row = mem::replace(&mut all[i], Row::new(alloc));
        let (values, emptied) = values_in_room(alloc, view, items, row, room)?;
        all[i] = values;
        room = emptied;
    }
    Ok(Rows::from_vec(all))
}

/// The values of the items in the row, in this room, and the room of the row.
#[tactic(auto, unfolding(crate::specs::Machinery::Preparations::values_of))]
fn values_in_room<V: View>(
    alloc: Global,
    view: &V,
    items: &[Prepared],
    row: Row,
    room: Row,
) -> Result<(Row, Row), EvalError>
    requires { room ≡ [] }
    ensures values { Gives (λ r. r.0) result (values_of (V.graph view.now) items.now row) }
    ensures room { IfOk result (λ r. r.1 ≡ []) }
{
    let values = cells_in_room(alloc, view, items, row.as_slice(), room)?;
    let room = emptied(row, items.len())?;
    Ok((values, room))
}

fn wide_rows<V: View>(
    alloc: Global,
    view: &V,
    items: &[Prepared],
    rows: Rows,
) -> Result<Rows, EvalError>
    ensures { Gives (λ r. r) result (each (λ row. next (each (λ p. prepared_value (V.graph view.now) p row) items.now) (λ out. Ok (out ++ row))) rows) }
{
    let mut done = Rows::new(alloc);
    for row in rows.into_vec() {
        let mut wide = prepared_cells(alloc, view, items, row.as_slice())?;
        wide.extend(row)?;
        done.push(wide)?;
    }
    Ok(done)
}
