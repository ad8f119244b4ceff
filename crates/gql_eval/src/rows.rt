//! The value of an expression over one row.

ghost use Rattle.gql_values3.specs.Meaning.{datum_of};
ghost use Rattle.gql_ast.specs.Meaning.{tree_of};
ghost use Rattle.gql_ast.specs.Scope.{row_scope};
ghost use Rattle.gql_ast.specs.Evaluation.{value_of};
ghost use Rattle.gql_eval.specs.Gives.{Gives};

use crate::error::EvalError;
use crate::prepared::Prepared;
use gql_ast::Expr;
use gql_values3::{Columns, Params, Row, Value, View};
use std::alloc::Global;

/// The value of an expression over a graph, a row under its columns, and parameters, or its first fault. Values past
/// the last column and columns past the last value are not seen. For many rows prepare the expression once.
pub fn value<V: View>(
    alloc: Global,
    view: &V,
    columns: &Columns,
    row: &Row,
    params: &Params,
    expr: &Expr,
) -> Result<Value, EvalError>
    ensures { Gives datum_of result (value_of (V.graph view.now) params.now (row_scope columns.now row.now) (tree_of expr.now)) }
{
    let prepared = Prepared::new(alloc, columns.as_slice(), params, expr)?;
    let held = prepared.value(alloc, view, row.as_slice())?;
    Ok(held.into_value(alloc)?)
}
