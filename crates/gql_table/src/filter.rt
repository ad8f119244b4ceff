//! FILTER.

ghost use Rattle.std.specs.Prelude.{◌≡◌, ◌∷◌, [], map, OnOk, IfOk};
ghost use Rattle.gql_values3.specs.Meaning.{datum_of};
ghost use Rattle.gql_ast.specs.Meaning.{tree_of};
ghost use Rattle.gql_ast.specs.TruthValues.{truth_in};
ghost use Rattle.gql_eval.specs.Gives.{Gives};
ghost use Rattle.gql_eval.specs.Machinery.Next.{next};
ghost use Rattle.gql_table.specs.Filter.{filter_rows};
ghost use Rattle.gql_table.specs.Machinery.Preparations.{is_kept, prepared_value};

use crate::prepared::prepare;
use gql_ast::Expr;
use gql_eval::{EvalError, Prepared, truth_of_value};
use gql_values3::{Columns, Params, Row, Rows, Truth, View};
use std::alloc::Global;

/// The rows whose condition is True. They stay in the vector that they stand in.
pub fn filter_table<V: View>(
    alloc: Global,
    view: &V,
    columns: &Columns,
    rows: Rows,
    params: &Params,
    condition: &Expr,
) -> Result<Rows, EvalError>
    ensures { Gives (λ r. r) result (filter_rows (V.graph view.now) params.now columns.now (tree_of condition.now) rows) }
{
    let prepared = prepare(alloc, columns.as_slice(), params, condition)?;
    rows_where(alloc, view, &prepared, rows)
}

/// The rows that the condition is True in. Each of them goes to the place behind those that were kept.
fn rows_where<V: View>(
    alloc: Global,
    view: &V,
    condition: &Prepared,
    rows: Rows,
) -> Result<Rows, EvalError>
    ensures { Gives (λ r. r) result (filter_rows (V.graph view.now) condition.now.params condition.now.columns condition.now.tree rows) }
{
    let mut left = rows.into_vec();
    let mut kept = 0;
    for i in 0..left.len() {
        if is_true(truth_at(alloc, view, condition, &left[i])?) {
            left.swap(kept, i);
            kept += 1;
        }
    }
    left.truncate(kept);
    Ok(Rows::from_vec(left))
}

/// The truth of the condition in a row.
fn truth_at<V: View>(
    alloc: Global,
    view: &V,
    condition: &Prepared,
    row: &Row,
) -> Result<Truth, EvalError>
    ensures { Gives (λ t. t) result (next (prepared_value (V.graph view.now) condition.now row.now) truth_in) }
{
    let value = condition.value(alloc, view, row.as_slice())?;
    Ok(truth_of_value(value.value())?)
}

/// A row is kept at True alone.
fn is_true(truth: Truth) -> bool
    ensures { result ≡ is_kept truth }
{
    match truth {
        Truth::True => true,
        Truth::Unknown | Truth::False => false,
    }
}
