//! The first barred name of an expression, of an element's predicates and of a condition.

ghost use Rattle.std.specs.Prelude.{◌≡◌, [], ◌∷◌, flat_map, map, find, option_map};
ghost use Rattle.std.specs.Option.{option_copied};
ghost use Rattle.gql_ast.specs.Meaning.{tree_of, link_of};
ghost use Rattle.gql_ast.specs.Scope.{names_in, names_in_trees, names_in_links};
ghost use Rattle.gql_ast.specs.Tree.{trees_of, links_of};
ghost use Rattle.gql_norm.specs.NormalData.{element_data, predicate_data};
ghost use Rattle.gql_norm.specs.PredicateSpot.{tree_in};
ghost use Rattle.gql_term.specs.Machinery.BarredNames.{barred_by};
ghost use Rattle.gql_term.specs.Machinery.OpenReferences.{names_of_condition, names_of_element};

use crate::before::{Before, is_barred};
use gql_ast::{Expr, Step};
use gql_norm::{ElementPattern, Predicate};
use gql_values3::Text;

/// The first barred name in the predicates of an element.
pub fn first_in_element<'e, 'a>(
    element: &'e ElementPattern,
    before: &'a Before<'a>,
) -> Option<&'e Text>
    ensures { option_copied result ≡ find (barred_by before.now) (names_of_element (element_data element.now)) }
{
    first_in_predicates(element.predicates.as_slice(), before)
}

fn first_in_predicates<'e, 'a>(
    predicates: &'e [Predicate],
    before: &'a Before<'a>,
) -> Option<&'e Text>
    ensures { option_copied result ≡ find (barred_by before.now) (flat_map names_in (map tree_in (map predicate_data predicates.now))) }
{
    for i in 0..predicates.len() {
        let predicate = &predicates[i];
        if let Some(name) = first_in_predicate(predicate, before) {
            return Some(name);
        }
    }
    None
}

fn first_in_predicate<'e, 'a>(predicate: &'e Predicate, before: &'a Before<'a>) -> Option<&'e Text>
    ensures { option_copied result ≡ find (barred_by before.now) (names_in (tree_in (predicate_data predicate.now))) }
{
    match predicate {
        Predicate::PropertyIs(_, expr) | Predicate::Holds(expr) => first_in_expr(expr, before),
    }
}

/// The first barred name in a condition, if there is one.
#[tactic(auto, using(crate::proofs::NameLemmas::one_condition))]
pub fn first_in_condition<'e, 'a>(
    condition: &'e Option<Expr>,
    before: &'a Before<'a>,
) -> Option<&'e Text>
    ensures { option_copied result ≡ find (barred_by before.now) (names_of_condition (option_map tree_of condition.now)) }
{
    match condition {
        Some(expr) => first_in_expr(expr, before),
        None => None,
    }
}

/// The first barred name of an expression.
#[cycle(names)]
#[tactic(auto, using(gql_expr_checks::proofs::PartLemmas::found_in_two))]
fn first_in_expr<'e, 'a>(expr: &'e Expr, before: &'a Before<'a>) -> Option<&'e Text>
    ensures { option_copied result ≡ find (barred_by before.now) (names_in (tree_of expr.now)) }
{
    match expr {
        Expr::Constant(_) | Expr::Unknown | Expr::Number(_) | Expr::Parameter(_) => None,
        Expr::CountAll => None,
        Expr::Name(name) | Expr::Property(name, _) => if_barred(name, before),
        Expr::Paren(part) | Expr::Aggregate(_, _, part) | Expr::Call(_, part) => {
            first_in_expr(part.expr(), before)
        }
        Expr::Signed(_, part) | Expr::Is(part, _, _) | Expr::IsLabeled(part, _, _) => {
            first_in_expr(part.expr(), before)
        }
        Expr::Not(part) => first_in_expr(part.expr(), before),
        Expr::List(parts) => first_in_parts(parts.as_slice(), before),
        Expr::Mod(a, b) | Expr::Compare(_, a, b) => match first_in_expr(a.expr(), before) {
            Some(name) => Some(name),
            None => first_in_expr(b.expr(), before),
        },
        Expr::IsEnd(part, _, _, edge) => match first_in_expr(part.expr(), before) {
            Some(name) => Some(name),
            None => if_barred(edge, before),
        },
        Expr::Coalesce(first, rest) => match first_in_expr(first.expr(), before) {
            Some(name) => Some(name),
            None => first_in_parts(rest.as_slice(), before),
        },
        Expr::Product(first, steps)
        | Expr::Sum(first, steps)
        | Expr::And(first, steps)
        | Expr::Or(first, steps) => match first_in_expr(first.expr(), before) {
            Some(name) => Some(name),
            None => first_in_steps(steps.as_slice(), before),
        },
    }
}

fn if_barred<'e, 'a>(name: &'e Text, before: &'a Before<'a>) -> Option<&'e Text>
    ensures { option_copied result ≡ find (barred_by before.now) (name.now ∷ []) }
{
    if is_barred(before, name) {
        Some(name)
    } else {
        None
    }
}

#[cycle(names)]
fn first_in_parts<'e, 'a>(parts: &'e [Expr], before: &'a Before<'a>) -> Option<&'e Text>
    ensures { option_copied result ≡ find (barred_by before.now) (names_in_trees (trees_of (map tree_of parts.now))) }
{
    for i in 0..parts.len() {
        let part = &parts[i];
        if let Some(name) = first_in_expr(part, before) {
            return Some(name);
        }
    }
    None
}

#[cycle(names)]
fn first_in_steps<'e, 'a>(steps: &'e [Step], before: &'a Before<'a>) -> Option<&'e Text>
    ensures { option_copied result ≡ find (barred_by before.now) (names_in_links (links_of (map link_of steps.now))) }
{
    for i in 0..steps.len() {
        let step = &steps[i];
        if let Some(name) = first_in_expr(&step.operand, before) {
            return Some(name);
        }
    }
    None
}
