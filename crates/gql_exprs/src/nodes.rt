//! Nodes of two expressions.

ghost use Rattle.std.specs.Prelude.{◌≡◌, IfOk};
ghost use Rattle.gql_ast.specs.Meaning.{tree_of};
ghost use Rattle.gql_ast.specs.Tree.{comparing, modulo};

use gql_ast::{Expr, Sub};
use gql_values3::{Comparison, OutOfMemory};
use std::alloc::Global;

/// A comparison of two sides.
pub fn compare(
    alloc: Global,
    comparison: Comparison,
    first: Expr,
    second: Expr,
) -> Result<Expr, OutOfMemory>
    ensures { IfOk result (λ e. tree_of e ≡ comparing comparison (tree_of first) (tree_of second)) }
{
    let first = Sub::new(alloc, first)?;
    Ok(Expr::Compare(comparison, first, Sub::new(alloc, second)?))
}

/// `MOD(a, b)`.
pub fn remainder(alloc: Global, first: Expr, second: Expr) -> Result<Expr, OutOfMemory>
    ensures { IfOk result (λ e. tree_of e ≡ modulo (tree_of first) (tree_of second)) }
{
    let first = Sub::new(alloc, first)?;
    Ok(Expr::Mod(first, Sub::new(alloc, second)?))
}
