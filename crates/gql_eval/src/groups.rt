//! The group that an aggregate is over.

ghost use Rattle.std.specs.Prelude.{◌≡◌, [], ◌∷◌, map, find};
ghost use Rattle.std.specs.Option.{option_copied};
ghost use Rattle.gql_ast.specs.Tree.{trees_of, links_of};
ghost use Rattle.gql_ast.specs.Meaning.{tree_of, link_of};
ghost use Rattle.gql_ast.specs.Scope.{group_of, is_group_name, names_in_trees, names_in_links};
ghost use Rattle.gql_ast.specs.Evaluation.{group_items};
ghost use Rattle.gql_values3.specs.Meaning.{datum_of};
ghost use Rattle.gql_eval.specs.Machinery.ScopeMeaning.{scope_of};

use crate::scope::{Scope, names_group};
use gql_ast::{Expr, Step};
use gql_values3::{Text, Value};

/// The first name of the expression that stands for a group.
#[cycle(groups)]
#[tactic(auto, using(crate::proofs::ScopeLemmas::find_append))]
pub fn group_name<'e>(scope: &Scope, expr: &'e Expr) -> Option<&'e Text>
    ensures { option_copied result ≡ group_of (scope_of scope.now) (tree_of expr.now) }
{
    match expr {
        Expr::Constant(_) | Expr::Unknown | Expr::Number(_) | Expr::Parameter(_) => None,
        Expr::CountAll => None,
        Expr::Name(name) | Expr::Property(name, _) => if_group(scope, name),
        Expr::Paren(part) | Expr::Aggregate(_, _, part) | Expr::Call(_, part) => {
            group_name(scope, part.expr())
        }
        Expr::Signed(_, part) | Expr::Is(part, _, _) | Expr::IsLabeled(part, _, _) => {
            group_name(scope, part.expr())
        }
        Expr::Not(part) => group_name(scope, part.expr()),
        Expr::List(parts) => group_of_parts(scope, parts.as_slice()),
        Expr::Mod(a, b) | Expr::Compare(_, a, b) => match group_name(scope, a.expr()) {
            Some(name) => Some(name),
            None => group_name(scope, b.expr()),
        },
        Expr::IsEnd(part, _, _, edge) => match group_name(scope, part.expr()) {
            Some(name) => Some(name),
            None => if_group(scope, edge),
        },
        Expr::Coalesce(first, rest) => match group_name(scope, first.expr()) {
            Some(name) => Some(name),
            None => group_of_parts(scope, rest.as_slice()),
        },
        Expr::Product(first, steps)
        | Expr::Sum(first, steps)
        | Expr::And(first, steps)
        | Expr::Or(first, steps) => match group_name(scope, first.expr()) {
            Some(name) => Some(name),
            None => group_of_steps(scope, steps.as_slice()),
        },
    }
}

fn if_group<'e>(scope: &Scope, name: &'e Text) -> Option<&'e Text>
    ensures { option_copied result ≡ find (is_group_name (scope_of scope.now)) (name.now ∷ []) }
{
    if names_group(scope, name) {
        Some(name)
    } else {
        None
    }
}

#[cycle(groups)]
#[tactic(auto, using(crate::proofs::ScopeLemmas::find_append))]
fn group_of_parts<'e>(scope: &Scope, parts: &'e [Expr]) -> Option<&'e Text>
    ensures { option_copied result ≡ find (is_group_name (scope_of scope.now)) (names_in_trees (trees_of (map tree_of parts.now))) }
{
    for i in 0..parts.len() {
        let part = &parts[i];
        if let Some(name) = group_name(scope, part) {
            return Some(name);
        }
    }
    None
}

#[cycle(groups)]
#[tactic(auto, using(crate::proofs::ScopeLemmas::find_append))]
fn group_of_steps<'e>(scope: &Scope, steps: &'e [Step]) -> Option<&'e Text>
    ensures { option_copied result ≡ find (is_group_name (scope_of scope.now)) (names_in_links (links_of (map link_of steps.now))) }
{
    for i in 0..steps.len() {
        let step = &steps[i];
        if let Some(name) = group_name(scope, &step.operand) {
            return Some(name);
        }
    }
    None
}

/// The items of a group; NULL has none.
#[tactic(auto, using(crate::proofs::ItemLemmas::items_again))]
pub fn items_in(group: &Value) -> &[Value]
    ensures { map datum_of result.now ≡ group_items (datum_of group.now) }
{
    match group {
        Value::List(items) => items.as_slice(),
        _ => &[],
    }
}
