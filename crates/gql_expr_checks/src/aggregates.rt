//! Whether an expression has an aggregate over rows.

ghost use Rattle.std.specs.Prelude.{◌≡◌, map, not};
ghost use Rattle.gql_ast.specs.Tree.{trees_of, links_of};
ghost use Rattle.gql_ast.specs.Meaning.{tree_of, link_of};
ghost use Rattle.gql_ast.specs.Projections.{has_none};
ghost use Rattle.gql_ast.specs.RowAggregates.{is_over_group, row_aggregates, row_aggregates_of, row_aggregates_in};

use crate::columns::KnownColumns;
use crate::names::{Sought, first_name};
use gql_ast::{Expr, Step};

/// Whether the expression names a group, so that an aggregate of it is over that group.
pub fn is_over_group(scope: &KnownColumns, expr: &Expr) -> bool
    ensures { result ≡ is_over_group scope.now (tree_of expr.now) }
{
    match first_name(scope, &Sought::Group, expr) {
        Some(_) => true,
        None => false,
    }
}

/// Whether the expression has an aggregate over rows.
#[cycle(aggregates)]
#[tactic(auto, using(crate::proofs::FirstLemmas::some_in_two), unfolding(gql_ast::specs::RowAggregates::row_aggregates))]
pub fn has_aggregate(scope: &KnownColumns, expr: &Expr) -> bool
    ensures { result ≡ not (has_none (row_aggregates scope.now (tree_of expr.now))) }
{
    match expr {
        Expr::Constant(_) | Expr::Unknown | Expr::Number(_) | Expr::Parameter(_) => false,
        Expr::Name(_) | Expr::Property(_, _) => false,
        Expr::CountAll => true,
        Expr::Aggregate(_, _, part) => !is_over_group(scope, part.expr()),
        Expr::Paren(part) | Expr::Call(_, part) | Expr::Signed(_, part) | Expr::Not(part) => {
            has_aggregate(scope, part.expr())
        }
        Expr::Is(part, _, _) | Expr::IsLabeled(part, _, _) | Expr::IsEnd(part, _, _, _) => {
            has_aggregate(scope, part.expr())
        }
        Expr::List(parts) => any_has_aggregate(scope, parts.as_slice()),
        Expr::Mod(a, b) | Expr::Compare(_, a, b) => {
            has_aggregate(scope, a.expr()) || has_aggregate(scope, b.expr())
        }
        Expr::Coalesce(first, rest) => {
            has_aggregate(scope, first.expr()) || any_has_aggregate(scope, rest.as_slice())
        }
        Expr::Product(first, steps)
        | Expr::Sum(first, steps)
        | Expr::And(first, steps)
        | Expr::Or(first, steps) => {
            has_aggregate(scope, first.expr()) || side_has_aggregate(scope, steps.as_slice())
        }
    }
}

#[cycle(aggregates)]
#[tactic(auto, unfolding(gql_ast::specs::RowAggregates::row_aggregates))]
fn any_has_aggregate(scope: &KnownColumns, parts: &[Expr]) -> bool
    ensures { result ≡ not (has_none (row_aggregates_of scope.now (trees_of (map tree_of parts.now)))) }
{
    for i in 0..parts.len() {
        let part = &parts[i];
        if has_aggregate(scope, part) {
            return true;
        }
    }
    false
}

#[cycle(aggregates)]
#[tactic(auto, unfolding(gql_ast::specs::RowAggregates::row_aggregates))]
fn side_has_aggregate(scope: &KnownColumns, steps: &[Step]) -> bool
    ensures { result ≡ not (has_none (row_aggregates_in scope.now (links_of (map link_of steps.now)))) }
{
    for i in 0..steps.len() {
        let step = &steps[i];
        if has_aggregate(scope, &step.operand) {
            return true;
        }
    }
    false
}
