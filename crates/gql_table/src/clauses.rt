//! The clauses over tables.

ghost use Rattle.std.specs.Prelude.{◌≡◌, IfOk, IsTrue};
ghost use Rattle.gql_eval.specs.Gives.{Gives};
ghost use Rattle.gql_table.specs.Clauses.{columns_after, rows_after, table_after, page_rows};
ghost use Rattle.gql_eval.specs.RowLists.{rows_fit};
ghost use Rattle.gql_table.specs.Fitting.{names_serve};

use crate::filter::filter_table;
use crate::for_clause::{columns_after_for, for_table};
use crate::let_clause::{columns_after_let, let_table};
use crate::ordering::{Paging, page_table};
use crate::projection::return_table;
use crate::return_columns::columns_after_return;
use gql_ast::{Clause, Page};
use gql_eval::{EvalError, copied_columns};
use gql_values3::{Columns, OutOfMemory, Params, Rows, View};
use std::alloc::Global;

/// The columns and the rows behind a clause, or its first fault: LET, FILTER, FOR, ORDER BY, OFFSET, LIMIT and RETURN.
/// A clause that looks at the graph or changes it leaves both as they are. Rows are moved where the clause keeps them.
///
/// Rows that fit their columns become rows that fit the columns behind the clause; for a grouped `*` the columns' names
/// have to differ.
pub fn apply<V: View>(
    alloc: Global,
    view: &V,
    columns: &Columns,
    rows: Rows,
    params: &Params,
    clause: &Clause,
) -> Result<(Columns, Rows), EvalError>
    ensures exact { Gives (λ t. (t.0, t.1)) result (table_after (V.graph view.now) params.now columns.now clause.now rows) }
    ensures fit { IsTrue (rows_fit columns.now rows) → IsTrue (names_serve columns.now clause.now) → IfOk result (λ t. IsTrue (rows_fit t.0 t.1)) }
{
    apply_clause(alloc, view, columns, rows, params, clause)
}

fn apply_clause<V: View>(
    alloc: Global,
    view: &V,
    columns: &Columns,
    rows: Rows,
    params: &Params,
    clause: &Clause,
) -> Result<(Columns, Rows), EvalError>
    ensures { Gives (λ t. (t.0, t.1)) result (table_after (V.graph view.now) params.now columns.now clause.now rows) }
{
    let behind = rows_behind(alloc, view, columns, rows, params, clause)?;
    Ok((columns_behind(alloc, columns, clause)?, behind))
}

fn columns_behind(alloc: Global, columns: &Columns, clause: &Clause) -> Result<Columns, OutOfMemory>
    ensures { IfOk result (λ behind. behind ≡ columns_after columns.now clause.now) }
{
    match clause {
        Clause::Let(items) => columns_after_let(alloc, columns, items.as_slice()),
        Clause::For(clause) => columns_after_for(alloc, columns, clause),
        Clause::Return(clause) => columns_after_return(alloc, columns, &clause.items),
        Clause::Filter(_) | Clause::Page(_) | Clause::Match(_) | Clause::Change(_) => {
            copied_columns(alloc, columns.as_slice())
        }
    }
}

fn rows_behind<V: View>(
    alloc: Global,
    view: &V,
    columns: &Columns,
    rows: Rows,
    params: &Params,
    clause: &Clause,
) -> Result<Rows, EvalError>
    ensures { Gives (λ r. r) result (rows_after (V.graph view.now) params.now columns.now clause.now rows) }
{
    match clause {
        Clause::Let(items) => let_table(alloc, view, columns, rows, params, items.as_slice()),
        Clause::Filter(condition) => filter_table(alloc, view, columns, rows, params, condition),
        Clause::For(clause) => for_table(alloc, view, columns, rows, params, clause),
        Clause::Page(page) => paged_table(alloc, view, columns, rows, params, page),
        Clause::Return(clause) => return_table(alloc, view, columns, rows, params, clause),
        Clause::Match(_) | Clause::Change(_) => Ok(rows),
    }
}

fn paged_table<V: View>(
    alloc: Global,
    view: &V,
    columns: &Columns,
    rows: Rows,
    params: &Params,
    page: &Page,
) -> Result<Rows, EvalError>
    ensures { Gives (λ r. r) result (page_rows (V.graph view.now) params.now columns.now page.now rows) }
{
    let paging = match page {
        Page::Order(items, skip, limit) => Paging {
            order: Some(items),
            skip: skip.as_ref(),
            limit: limit.as_ref(),
        },
        Page::Skip(skip, limit) => Paging {
            order: None,
            skip: Some(skip),
            limit: limit.as_ref(),
        },
        Page::Limit(limit) => Paging {
            order: None,
            skip: None,
            limit: Some(limit),
        },
    };
    page_table(alloc, view, columns, rows, None, params, &paging)
}
