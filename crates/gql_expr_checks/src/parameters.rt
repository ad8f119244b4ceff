//! The first parameter of an expression that isn't set.

ghost use Rattle.std.specs.Prelude.{◌≡◌, [], ◌∷◌, map, not};
ghost use Rattle.std.specs.Option.{option_copied};
ghost use Rattle.gql_ast.specs.Tree.{trees_of, links_of};
ghost use Rattle.gql_ast.specs.Meaning.{tree_of, link_of};
ghost use Rattle.gql_expr_checks.specs.ExprParameters.{parameters_in, parameters_in_each, parameters_in_sides, unset, is_set};
ghost use Rattle.gql_expr_checks.specs.First.{first};

use gql_ast::{Expr, Step};
use gql_values3::{Params, Text};

/// The first parameter that isn't set.
#[cycle(parameters)]
#[tactic(auto, using(crate::proofs::FirstLemmas::unset_in_two))]
pub fn unset_parameter<'e>(params: &Params, expr: &'e Expr) -> Option<&'e Text>
    ensures { option_copied result ≡ first (unset params.now (parameters_in (tree_of expr.now))) }
{
    match expr {
        Expr::Constant(_) | Expr::Unknown | Expr::Number(_) | Expr::CountAll => None,
        Expr::Name(_) | Expr::Property(_, _) => None,
        Expr::Parameter(parameter) => if_unset(params, parameter),
        Expr::Paren(part) | Expr::Aggregate(_, _, part) | Expr::Call(_, part) => {
            unset_parameter(params, part.expr())
        }
        Expr::Signed(_, part) | Expr::Is(part, _, _) | Expr::IsLabeled(part, _, _) => {
            unset_parameter(params, part.expr())
        }
        Expr::Not(part) | Expr::IsEnd(part, _, _, _) => unset_parameter(params, part.expr()),
        Expr::List(parts) => unset_in_parts(params, parts.as_slice()),
        Expr::Mod(a, b) | Expr::Compare(_, a, b) => match unset_parameter(params, a.expr()) {
            Some(parameter) => Some(parameter),
            None => unset_parameter(params, b.expr()),
        },
        Expr::Coalesce(first, rest) => match unset_parameter(params, first.expr()) {
            Some(parameter) => Some(parameter),
            None => unset_in_parts(params, rest.as_slice()),
        },
        Expr::Product(first, steps)
        | Expr::Sum(first, steps)
        | Expr::And(first, steps)
        | Expr::Or(first, steps) => match unset_parameter(params, first.expr()) {
            Some(parameter) => Some(parameter),
            None => unset_in_steps(params, steps.as_slice()),
        },
    }
}

/// The parameter where it isn't set.
pub fn if_unset<'e>(params: &Params, parameter: &'e Text) -> Option<&'e Text>
    ensures { option_copied result ≡ first (unset params.now (parameter.now ∷ [])) }
{
    if is_set(params, parameter) {
        None
    } else {
        Some(parameter)
    }
}

/// Whether the parameter is set.
fn is_set(params: &Params, parameter: &Text) -> bool
    ensures { result ≡ is_set params.now parameter.now }
{
    match params.get(parameter.as_str()) {
        Some(_) => true,
        None => false,
    }
}

#[cycle(parameters)]
fn unset_in_parts<'e>(params: &Params, parts: &'e [Expr]) -> Option<&'e Text>
    ensures { option_copied result ≡ first (unset params.now (parameters_in_each (trees_of (map tree_of parts.now)))) }
{
    for i in 0..parts.len() {
        let part = &parts[i];
        if let Some(parameter) = unset_parameter(params, part) {
            return Some(parameter);
        }
    }
    None
}

#[cycle(parameters)]
fn unset_in_steps<'e>(params: &Params, steps: &'e [Step]) -> Option<&'e Text>
    ensures { option_copied result ≡ first (unset params.now (parameters_in_sides (links_of (map link_of steps.now)))) }
{
    for i in 0..steps.len() {
        let step = &steps[i];
        if let Some(parameter) = unset_parameter(params, &step.operand) {
            return Some(parameter);
        }
    }
    None
}
