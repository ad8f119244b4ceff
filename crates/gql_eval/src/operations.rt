//! Operations on values that are given: of one operand, and of two.

ghost use Rattle.gql_values3.specs.Meaning.{datum_of};
ghost use Rattle.gql_ast.specs.Meaning.{tree_of};
ghost use Rattle.gql_eval.specs.Gives.{Gives, GivesExactly};
ghost use Rattle.gql_eval.specs.Machinery.Operations.{of_operand, of_operands};

use crate::error::EvalError;
use crate::functions::apply;
use crate::operators::{modulo, signed};
use crate::predicates::{compare, is_end, is_labeled, is_quality, negate};
use gql_ast::{DataFault, Expr};
use gql_values3::{Value, View};
use std::alloc::Global;

/// What the expression makes of its operand's value. Any other expression is of a wrong kind.
#[inline(never)]
pub fn operation_value<V: View>(
    alloc: Global,
    view: &V,
    expr: &Expr,
    value: &Value,
) -> Result<Value, EvalError>
    ensures { Gives datum_of result (of_operand (V.graph view.now) (tree_of expr.now) (datum_of value.now)) }
{
    match expr {
        Expr::Call(function, _) => apply(alloc, *function, value),
        Expr::Signed(sign, _) => Ok(signed(*sign, value)?),
        Expr::Is(_, sense, quality) => Ok(is_quality(view, *sense, *quality, value)?),
        Expr::IsLabeled(_, sense, labels) => Ok(is_labeled(view, *sense, labels, value)?),
        Expr::Not(_) => Ok(negate(value)?),
        _ => Err(EvalError::Fault(DataFault::WrongKind)),
    }
}

/// What the expression makes of its two operands' values. Any other expression is of a wrong kind.
#[inline(never)]
pub fn binary_value<V: View>(
    view: &V,
    expr: &Expr,
    a: &Value,
    b: &Value,
) -> Result<Value, DataFault>
    ensures { GivesExactly datum_of result (of_operands (V.graph view.now) (tree_of expr.now) (datum_of a.now) (datum_of b.now)) }
{
    match expr {
        Expr::Mod(_, _) => modulo(a, b),
        Expr::Compare(comparison, _, _) => compare(*comparison, a, b),
        Expr::IsEnd(_, sense, end, _) => is_end(view, *sense, *end, a, b),
        _ => Err(DataFault::WrongKind),
    }
}
