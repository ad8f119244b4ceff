//! The first wide number in an expression.

ghost use Rattle.std.specs.Prelude.{◌≡◌, find, map};
ghost use Rattle.std.specs.Option.{option_copied};
ghost use Rattle.gql_ast.specs.Tree.{trees_of, links_of};
ghost use Rattle.gql_ast.specs.Meaning.{tree_of, link_of};
ghost use Rattle.gql_ast.specs.NumberLiterals.{is_wide, numbers_in_expr, numbers_in_trees, numbers_in_links};

use super::numerals::if_wide;
use gql_ast::{Expr, Step};
use gql_values3::Text;

/// The first number of an expression that is too large.
#[cycle(wide)]
#[tactic(auto, using(crate::proofs::FindLemmas::in_both))]
pub fn in_expr(expr: &Expr) -> Option<&Text>
    ensures { option_copied result ≡ find is_wide (numbers_in_expr expr.now) }
{
    match expr {
        Expr::Constant(_) | Expr::Unknown | Expr::Parameter(_) | Expr::Name(_) => None,
        Expr::Property(_, _) | Expr::CountAll => None,
        Expr::Number(digits) => if_wide(digits),
        Expr::Paren(part) | Expr::Aggregate(_, _, part) | Expr::Call(_, part) => {
            in_expr(part.expr())
        }
        Expr::Signed(_, part) | Expr::Is(part, _, _) | Expr::IsLabeled(part, _, _) => {
            in_expr(part.expr())
        }
        Expr::IsEnd(part, _, _, _) | Expr::Not(part) => in_expr(part.expr()),
        Expr::List(parts) => in_exprs(parts.as_slice()),
        Expr::Mod(a, b) | Expr::Compare(_, a, b) => match in_expr(a.expr()) {
            Some(digits) => Some(digits),
            None => in_expr(b.expr()),
        },
        Expr::Coalesce(first, rest) => match in_expr(first.expr()) {
            Some(digits) => Some(digits),
            None => in_exprs(rest.as_slice()),
        },
        Expr::Product(first, steps)
        | Expr::Sum(first, steps)
        | Expr::And(first, steps)
        | Expr::Or(first, steps) => match in_expr(first.expr()) {
            Some(digits) => Some(digits),
            None => in_steps(steps.as_slice()),
        },
    }
}

#[cycle(wide)]
#[tactic(auto, using(crate::proofs::FindLemmas::in_both))]
fn in_exprs(exprs: &[Expr]) -> Option<&Text>
    ensures { option_copied result ≡ find is_wide (numbers_in_trees (trees_of (map tree_of exprs.now))) }
{
    for i in 0..exprs.len() {
        if let Some(digits) = in_expr(&exprs[i]) {
            return Some(digits);
        }
    }
    None
}

#[cycle(wide)]
#[tactic(auto, using(crate::proofs::FindLemmas::in_both))]
fn in_steps(steps: &[Step]) -> Option<&Text>
    ensures { option_copied result ≡ find is_wide (numbers_in_links (links_of (map link_of steps.now))) }
{
    for i in 0..steps.len() {
        let step = &steps[i];
        if let Some(digits) = in_expr(&step.operand) {
            return Some(digits);
        }
    }
    None
}
