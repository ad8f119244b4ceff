//! The truth of a predicate inside a path pattern.

ghost use Rattle.std.specs.Prelude.{◌≡◌, ◌++◌, IfOk};
ghost use Rattle.gql_ast.specs.Meaning.{tree_of};
ghost use Rattle.gql_ast.specs.Scope.{row_scope};
ghost use Rattle.gql_ast.specs.Evaluation.{pattern_truth};
ghost use Rattle.gql_eval.specs.Bound.{bound_scope, match_scope};

use crate::matched::{bound_names, bound_values};
use crate::prepared::Prepared;
use gql_ast::Expr;
use gql_values3::{Binding, Bound, Columns, OutOfMemory, Params, Row, Text, Truth, View};
use std::alloc::Global;

/// The truth of a predicate inside a path pattern: of its value over the columns of the row and then the bound
/// variables. Every fault is Unknown.
pub fn holds_in_pattern<V: View>(
    alloc: Global,
    view: &V,
    columns: &Columns,
    row: &Row,
    params: &Params,
    bound: &Bound,
    expr: &Expr,
) -> Result<Truth, OutOfMemory>
    ensures { IfOk result (λ truth. truth ≡ pattern_truth (V.graph view.now) params.now (row_scope columns.now row.now ++ bound_scope bound.now) (tree_of expr.now)) }
{
    let names = bound_names(alloc, bound.as_slice())?;
    let values = bound_values(alloc, bound.as_slice())?;
    let (names, values) = (names.as_slice(), values.as_slice());
    holds_of_match(alloc, view, columns, row, params, names, values, expr)
}

/// The same where the names and what they stand for are two lists.
fn holds_of_match<V: View>(
    alloc: Global,
    view: &V,
    columns: &Columns,
    row: &Row,
    params: &Params,
    names: &[Text],
    bound: &[Binding],
    expr: &Expr,
) -> Result<Truth, OutOfMemory>
    ensures { IfOk result (λ truth. truth ≡ pattern_truth (V.graph view.now) params.now (row_scope columns.now row.now ++ match_scope names.now bound.now) (tree_of expr.now)) }
{
    let prepared = Prepared::for_match(alloc, columns.as_slice(), names, params, expr)?;
    prepared.holds_beside(alloc, view, row.as_slice(), bound)
}
