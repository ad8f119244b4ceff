//! Which expressions have an aggregate over rows, and which RETURN is grouped.

ghost use Rattle.std.specs.Prelude.{◌≡◌, length, map, not};
ghost use Rattle.gql_ast.specs.Tree.{trees_of, links_of};
ghost use Rattle.gql_ast.specs.Meaning.{tree_of, link_of};
ghost use Rattle.gql_ast.specs.RowAggregates.{is_over_group, row_aggregates, row_aggregates_of, row_aggregates_in};
ghost use Rattle.gql_ast.specs.Projections.{has_none};

use gql_ast::{Expr, Step};
use gql_eval::{Scope, group_name};
use gql_values3::{ColumnKind, Text, Value};

/// Whether the expression has an aggregate over rows. The values, of which only the number counts, are one for each
/// column.
#[cycle(aggregation)]
#[tactic(auto, using(crate::proofs::AggregationLemmas::some_append), unfolding(gql_ast::specs::RowAggregates::row_aggregates))]
pub fn has_row_aggregate(columns: &[(Text, ColumnKind)], blank: &[Value], expr: &Expr) -> bool
    requires { length blank.now ≡ length columns.now }
    ensures { result ≡ not (has_none (row_aggregates columns.now (tree_of expr.now))) }
{
    match expr {
        Expr::Constant(_) | Expr::Unknown | Expr::Number(_) | Expr::Parameter(_) => false,
        Expr::Name(_) | Expr::Property(_, _) => false,
        Expr::CountAll => true,
        Expr::Aggregate(_, _, part) => !names_group(columns, blank, part.expr()),
        Expr::Paren(part) | Expr::Call(_, part) | Expr::Signed(_, part) => {
            has_row_aggregate(columns, blank, part.expr())
        }
        Expr::Is(part, _, _) | Expr::IsLabeled(part, _, _) | Expr::IsEnd(part, _, _, _) => {
            has_row_aggregate(columns, blank, part.expr())
        }
        Expr::Not(part) => has_row_aggregate(columns, blank, part.expr()),
        Expr::List(parts) => part_has_one(columns, blank, parts.as_slice()),
        Expr::Mod(a, b) | Expr::Compare(_, a, b) => {
            has_row_aggregate(columns, blank, a.expr())
                || has_row_aggregate(columns, blank, b.expr())
        }
        Expr::Coalesce(first, rest) => {
            has_row_aggregate(columns, blank, first.expr())
                || part_has_one(columns, blank, rest.as_slice())
        }
        Expr::Product(first, steps)
        | Expr::Sum(first, steps)
        | Expr::And(first, steps)
        | Expr::Or(first, steps) => {
            has_row_aggregate(columns, blank, first.expr())
                || side_has_one(columns, blank, steps.as_slice())
        }
    }
}

#[cycle(aggregation)]
#[tactic(auto, using(crate::proofs::AggregationLemmas::some_append), unfolding(gql_ast::specs::RowAggregates::row_aggregates))]
fn part_has_one(columns: &[(Text, ColumnKind)], blank: &[Value], parts: &[Expr]) -> bool
    requires { length blank.now ≡ length columns.now }
    ensures { result ≡ not (has_none (row_aggregates_of columns.now (trees_of (map tree_of parts.now)))) }
{
    for i in 0..parts.len() {
        let part = &parts[i];
        if has_row_aggregate(columns, blank, part) {
            return true;
        }
    }
    false
}

#[cycle(aggregation)]
#[tactic(auto, using(crate::proofs::AggregationLemmas::some_append), unfolding(gql_ast::specs::RowAggregates::row_aggregates))]
fn side_has_one(columns: &[(Text, ColumnKind)], blank: &[Value], steps: &[Step]) -> bool
    requires { length blank.now ≡ length columns.now }
    ensures { result ≡ not (has_none (row_aggregates_in columns.now (links_of (map link_of steps.now)))) }
{
    for i in 0..steps.len() {
        let step = &steps[i];
        if has_row_aggregate(columns, blank, &step.operand) {
            return true;
        }
    }
    false
}

/// Whether the expression names a group.
fn names_group(columns: &[(Text, ColumnKind)], blank: &[Value], expr: &Expr) -> bool
    requires { length blank.now ≡ length columns.now }
    ensures { result ≡ is_over_group columns.now (tree_of expr.now) }
{
    let scope = Scope {
        front: &[],
        columns,
        row: blank,
        names: &[],
        bound: &[],
    };
    match group_name(&scope, expr) {
        Some(_) => true,
        None => false,
    }
}
