//! RETURN.

ghost use Rattle.std.specs.Prelude.{◌≡◌, true, false, map, Ok, Some, None};
ghost use Rattle.std.specs.Option.{option_copied};
ghost use Rattle.gql_ast.specs.declared.projection.ReturnItems.TheVariants.{Listed};
ghost use Rattle.gql_eval.specs.Gives.{Gives};
ghost use Rattle.gql_eval.specs.Machinery.Next.{next};
ghost use Rattle.gql_table.specs.Paging.{paged};
ghost use Rattle.gql_table.specs.Projection.{with_incoming, row_outputs, distinct_outputs, returned_rows};
ghost use Rattle.gql_ast.specs.Projections.{is_grouped, output_columns};

use crate::distinct::{distinct_table, left_rows};
use crate::grouped::grouped_table;
use crate::grouped_return::is_grouped_return;
use crate::ordering::{Paging, page_table};
use crate::outputs::{output_table, wide_table};
use crate::return_columns::{columns_after_return, listed_and_incoming};
use gql_ast::{Return, ReturnItem, ReturnItems, SetQuantifier};
use gql_eval::EvalError;
use gql_values3::{Columns, Params, Rows, Sequence, View};
use std::alloc::Global;

/// The rows of RETURN. `*` without grouping moves them.
pub fn return_table<V: View>(
    alloc: Global,
    view: &V,
    columns: &Columns,
    rows: Rows,
    params: &Params,
    clause: &Return,
) -> Result<Rows, EvalError>
    ensures { Gives (λ r. r) result (returned_rows (V.graph view.now) params.now columns.now clause.now rows) }
{
    if is_grouped_return(alloc, columns, clause)? {
        return_grouped(alloc, view, columns, rows, params, clause)
    } else {
        return_plain(alloc, view, columns, rows, params, clause)
    }
}

fn paging_of(clause: &Return) -> Paging
    ensures order { option_copied result.order ≡ clause.now.order }
    ensures skip { option_copied result.skip ≡ clause.now.skip }
    ensures limit { option_copied result.limit ≡ clause.now.limit }
{
    Paging {
        order: clause.order.as_ref(),
        skip: clause.skip.as_ref(),
        limit: clause.limit.as_ref(),
    }
}

/// A row for each group. Sort keys see the output columns alone.
fn return_grouped<V: View>(
    alloc: Global,
    view: &V,
    columns: &Columns,
    rows: Rows,
    params: &Params,
    clause: &Return,
) -> Result<Rows, EvalError>
    requires { is_grouped columns.now clause.now ≡ true }
    ensures { Gives (λ r. r) result (returned_rows (V.graph view.now) params.now columns.now clause.now rows) }
{
    let outs = grouped_table(alloc, view, columns, rows, params, &clause.items)?;
    let left = left_rows(alloc, clause.quantifier, outs)?;
    let seen = columns_after_return(alloc, columns, &clause.items)?;
    page_table(alloc, view, &seen, left, None, params, &paging_of(clause))
}

fn return_plain<V: View>(
    alloc: Global,
    view: &V,
    columns: &Columns,
    rows: Rows,
    params: &Params,
    clause: &Return,
) -> Result<Rows, EvalError>
    requires { is_grouped columns.now clause.now ≡ false }
    ensures { Gives (λ r. r) result (returned_rows (V.graph view.now) params.now columns.now clause.now rows) }
{
    let paging = paging_of(clause);
    match clause.quantifier {
        SetQuantifier::All => {
            return_all(alloc, view, columns, rows, params, &clause.items, &paging)
        }
        SetQuantifier::Distinct => {
            return_distinct(alloc, view, columns, rows, params, &clause.items, &paging)
        }
    }
}

/// All rows. Where there are sort keys, these see the incoming columns too.
fn return_all<V: View>(
    alloc: Global,
    view: &V,
    columns: &Columns,
    rows: Rows,
    params: &Params,
    items: &ReturnItems,
    paging: &Paging,
) -> Result<Rows, EvalError>
    ensures { Gives (λ r. r) result (next (row_outputs (V.graph view.now) params.now columns.now items.now rows) (paged (V.graph view.now) params.now (with_incoming columns.now items.now) (option_copied paging.now.order) (option_copied paging.now.skip) (option_copied paging.now.limit))) }
{
    match items {
        ReturnItems::All => page_table(alloc, view, columns, rows, None, params, paging),
        ReturnItems::Listed(items) => match paging.order {
            None => return_unordered(alloc, view, columns, rows, params, items, paging),
            Some(_) => return_ordered(alloc, view, columns, rows, params, items, paging),
        },
    }
}

fn return_unordered<V: View>(
    alloc: Global,
    view: &V,
    columns: &Columns,
    rows: Rows,
    params: &Params,
    items: &Sequence<ReturnItem>,
    paging: &Paging,
) -> Result<Rows, EvalError>
    requires { paging.now.order ≡ None }
    ensures { Gives (λ r. r) result (next (row_outputs (V.graph view.now) params.now columns.now (Listed items.now) rows) (paged (V.graph view.now) params.now (with_incoming columns.now (Listed items.now)) None (option_copied paging.now.skip) (option_copied paging.now.limit))) }
{
    let outs = output_table(alloc, view, columns, rows, params, items.as_slice())?;
    page_table(alloc, view, columns, outs, None, params, paging)
}

fn return_ordered<V: View>(
    alloc: Global,
    view: &V,
    columns: &Columns,
    rows: Rows,
    params: &Params,
    items: &Sequence<ReturnItem>,
    paging: &Paging,
) -> Result<Rows, EvalError>
    ensures { Gives (λ r. r) result (next (row_outputs (V.graph view.now) params.now columns.now (Listed items.now) rows) (paged (V.graph view.now) params.now (with_incoming columns.now (Listed items.now)) (option_copied paging.now.order) (option_copied paging.now.skip) (option_copied paging.now.limit))) }
{
    let seen = listed_and_incoming(alloc, columns, items.as_slice())?;
    let wide = wide_table(alloc, view, columns, rows, params, items.as_slice())?;
    page_table(alloc, view, &seen, wide, Some(items.len()), params, paging)
}

/// The first of equal output rows. Sort keys see the output columns alone.
fn return_distinct<V: View>(
    alloc: Global,
    view: &V,
    columns: &Columns,
    rows: Rows,
    params: &Params,
    items: &ReturnItems,
    paging: &Paging,
) -> Result<Rows, EvalError>
    ensures { Gives (λ r. r) result (next (next (row_outputs (V.graph view.now) params.now columns.now items.now rows) (λ outs. Ok (distinct_outputs outs))) (paged (V.graph view.now) params.now (output_columns columns.now items.now) (option_copied paging.now.order) (option_copied paging.now.skip) (option_copied paging.now.limit))) }
{
    let outs = item_rows(alloc, view, columns, rows, params, items)?;
    let left = distinct_table(alloc, outs)?;
    let seen = columns_after_return(alloc, columns, items)?;
    page_table(alloc, view, &seen, left, None, params, paging)
}

/// The output rows alone.
fn item_rows<V: View>(
    alloc: Global,
    view: &V,
    columns: &Columns,
    rows: Rows,
    params: &Params,
    items: &ReturnItems,
) -> Result<Rows, EvalError>
    ensures { Gives (λ r. r) result (next (row_outputs (V.graph view.now) params.now columns.now items.now rows) (λ outs. Ok (map (λ o. o.0) outs))) }
{
    match items {
        ReturnItems::All => Ok(rows),
        ReturnItems::Listed(items) => {
            output_table(alloc, view, columns, rows, params, items.as_slice())
        }
    }
}
