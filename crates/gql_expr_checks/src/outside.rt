//! The first name of an expression that stands outside its aggregates over rows.

ghost use Rattle.std.specs.Prelude.{◌≡◌, [], map, if◌then◌else◌};
ghost use Rattle.std.specs.Option.{option_copied};
ghost use Rattle.gql_ast.specs.Tree.{trees_of, links_of};
ghost use Rattle.gql_ast.specs.Meaning.{tree_of, link_of};
ghost use Rattle.gql_expr_checks.specs.NamesOutside.{names_outside, names_outside_each, names_outside_sides};
ghost use Rattle.gql_ast.specs.RowAggregates.{is_over_group};
ghost use Rattle.gql_ast.specs.Scope.{names_in};
ghost use Rattle.gql_expr_checks.specs.First.{first};

use crate::aggregates::is_over_group;
use crate::columns::KnownColumns;
use crate::names::{Sought, first_name};
use gql_ast::{Expr, Step};
use gql_values3::Text;

/// The first name outside the aggregates over rows.
#[cycle(outside)]
#[tactic(auto, using(crate::proofs::FirstLemmas::first_in_two))]
pub fn name_outside<'e>(scope: &KnownColumns, expr: &'e Expr) -> Option<&'e Text>
    ensures { option_copied result ≡ first (names_outside scope.now (tree_of expr.now)) }
{
    match expr {
        Expr::Constant(_) | Expr::Unknown | Expr::Number(_) | Expr::Parameter(_) => None,
        Expr::CountAll => None,
        Expr::Name(name) | Expr::Property(name, _) => Some(name),
        Expr::Aggregate(_, _, part) => name_over_group(scope, part.expr()),
        Expr::Paren(part) | Expr::Call(_, part) | Expr::Signed(_, part) | Expr::Not(part) => {
            name_outside(scope, part.expr())
        }
        Expr::Is(part, _, _) | Expr::IsLabeled(part, _, _) => name_outside(scope, part.expr()),
        Expr::List(parts) => outside_parts(scope, parts.as_slice()),
        Expr::Mod(a, b) | Expr::Compare(_, a, b) => match name_outside(scope, a.expr()) {
            Some(name) => Some(name),
            None => name_outside(scope, b.expr()),
        },
        Expr::IsEnd(part, _, _, edge) => match name_outside(scope, part.expr()) {
            Some(name) => Some(name),
            None => Some(edge),
        },
        Expr::Coalesce(first, rest) => match name_outside(scope, first.expr()) {
            Some(name) => Some(name),
            None => outside_parts(scope, rest.as_slice()),
        },
        Expr::Product(first, steps)
        | Expr::Sum(first, steps)
        | Expr::And(first, steps)
        | Expr::Or(first, steps) => match name_outside(scope, first.expr()) {
            Some(name) => Some(name),
            None => outside_steps(scope, steps.as_slice()),
        },
    }
}

/// The first name of an aggregate's argument where that is over a group.
fn name_over_group<'e>(scope: &KnownColumns, argument: &'e Expr) -> Option<&'e Text>
    ensures { option_copied result ≡ first (if is_over_group scope.now (tree_of argument.now) then names_in (tree_of argument.now) else []) }
{
    if is_over_group(scope, argument) {
        first_name(scope, &Sought::Any, argument)
    } else {
        None
    }
}

#[cycle(outside)]
fn outside_parts<'e>(scope: &KnownColumns, parts: &'e [Expr]) -> Option<&'e Text>
    ensures { option_copied result ≡ first (names_outside_each scope.now (trees_of (map tree_of parts.now))) }
{
    for i in 0..parts.len() {
        let part = &parts[i];
        if let Some(name) = name_outside(scope, part) {
            return Some(name);
        }
    }
    None
}

#[cycle(outside)]
fn outside_steps<'e>(scope: &KnownColumns, steps: &'e [Step]) -> Option<&'e Text>
    ensures { option_copied result ≡ first (names_outside_sides scope.now (links_of (map link_of steps.now))) }
{
    for i in 0..steps.len() {
        let step = &steps[i];
        if let Some(name) = name_outside(scope, &step.operand) {
            return Some(name);
        }
    }
    None
}
