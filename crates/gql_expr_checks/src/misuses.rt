//! Whether something in an expression is misused: an aggregate where none may stand, or a group outside an aggregate.

ghost use Rattle.std.specs.Prelude.{◌≡◌, map, find, is_some, not, ◌&&◌};
ghost use Rattle.gql_ast.specs.Tree.{trees_of, links_of};
ghost use Rattle.gql_ast.specs.Meaning.{tree_of, link_of};
ghost use Rattle.gql_expr_checks.specs.ExprMisuses.{misused, misused_any, misused_side, is_group_column, is_bare_group, bars_rows};
ghost use Rattle.gql_ast.specs.Scope.{names_in};
ghost use Rattle.gql_values3.specs.Texts.{same_text};
ghost use Rattle.gql_expr_checks.specs.Machinery.Places.{place_of, columns_at, argument_misused, aggregate_misused};

use crate::columns::KnownColumns;
use crate::names::{Sought, first_name, is_group_column};
use gql_ast::{Expr, Step};
use gql_values3::Text;

/// Where an expression stands.
#[derive(Drop)]
pub enum Place<'a> {
    /// Among the items of RETURN, where aggregates over rows may stand.
    Item,
    /// Anywhere else outside aggregates.
    Elsewhere,
    /// In an aggregate, which may be over a group.
    Within(Option<&'a Text>),
}

/// Whether something in the expression is misused.
#[cycle(misuses)]
#[tactic(auto, unfolding(crate::specs::ExprMisuses::misused))]
pub fn is_misused(scope: &KnownColumns, place: &Place, expr: &Expr) -> bool
    ensures { result ≡ misused (columns_at scope.now place.now) (place_of place.now) (tree_of expr.now) }
{
    match expr {
        Expr::Constant(_) | Expr::Unknown | Expr::Number(_) | Expr::Parameter(_) => false,
        Expr::Name(_) => false,
        Expr::Property(name, _) => is_group_column_at(scope, place, name),
        Expr::CountAll => bars_rows(place),
        Expr::Aggregate(_, _, part) => aggregate_is_misused(scope, place, part.expr()),
        Expr::Paren(part) | Expr::Call(_, part) | Expr::Signed(_, part) | Expr::Not(part) => {
            is_misused(scope, place, part.expr())
        }
        Expr::Is(part, _, _) | Expr::IsLabeled(part, _, _) => {
            is_bare_group(scope, place, part.expr()) || is_misused(scope, place, part.expr())
        }
        Expr::IsEnd(part, _, _, edge) => {
            is_bare_group(scope, place, part.expr())
                || is_group_column_at(scope, place, edge)
                || is_misused(scope, place, part.expr())
        }
        Expr::List(parts) => any_is_misused(scope, place, parts.as_slice()),
        Expr::Mod(a, b) | Expr::Compare(_, a, b) => {
            is_misused(scope, place, a.expr()) || is_misused(scope, place, b.expr())
        }
        Expr::Coalesce(first, rest) => {
            is_misused(scope, place, first.expr()) || any_is_misused(scope, place, rest.as_slice())
        }
        Expr::Product(first, steps)
        | Expr::Sum(first, steps)
        | Expr::And(first, steps)
        | Expr::Or(first, steps) => {
            is_misused(scope, place, first.expr())
                || side_is_misused(scope, place, steps.as_slice())
        }
    }
}

/// Whether no aggregate over rows may stand there.
fn bars_rows(place: &Place) -> bool
    ensures { result ≡ bars_rows (place_of place.now) }
{
    !matches!(place, Place::Item)
}

/// Whether the name stands for a group there.
fn is_group_column_at(scope: &KnownColumns, place: &Place, name: &Text) -> bool
    ensures { result ≡ is_group_column (columns_at scope.now place.now) name.now }
{
    match place {
        Place::Within(Some(item)) if name.as_str() == item.as_str() => false,
        _ => is_group_column(scope, name),
    }
}

/// Whether the expression is a group by its name alone, also in parentheses.
fn is_bare_group(scope: &KnownColumns, place: &Place, expr: &Expr) -> bool
    ensures { result ≡ is_bare_group (columns_at scope.now place.now) (tree_of expr.now) }
{
    match expr {
        Expr::Name(name) => is_group_column_at(scope, place, name),
        Expr::Paren(part) => is_bare_group(scope, place, part.expr()),
        _ => false,
    }
}

/// Whether an aggregate of the argument is misused.
#[cycle(misuses)]
#[tactic(auto, unfolding(crate::specs::ExprMisuses::misused))]
fn aggregate_is_misused(scope: &KnownColumns, place: &Place, argument: &Expr) -> bool
    ensures { result ≡ aggregate_misused (columns_at scope.now place.now) (place_of place.now) (tree_of argument.now) }
{
    match place {
        Place::Within(_) => true,
        _ => argument_is_misused(scope, bars_rows(place), argument),
    }
}

/// Whether an aggregate of the argument, outside other aggregates, is misused.
#[cycle(misuses)]
fn argument_is_misused(scope: &KnownColumns, bars_rows: bool, argument: &Expr) -> bool
    ensures { result ≡ argument_misused scope.now bars_rows (tree_of argument.now) }
{
    match first_name(scope, &Sought::Group, argument) {
        None => bars_rows || is_misused(scope, &Place::Within(None), argument),
        Some(group) => {
            names_other_group(scope, group, argument)
                || is_misused(scope, &Place::Within(Some(group)), argument)
        }
    }
}

/// Whether the expression names a group other than this one.
fn names_other_group(scope: &KnownColumns, group: &Text, expr: &Expr) -> bool
    ensures { result ≡ is_some (find (λ x. is_group_column scope.now x && not (same_text group.now x)) (names_in (tree_of expr.now))) }
{
    match first_name(scope, &Sought::OtherGroup(group), expr) {
        Some(_) => true,
        None => false,
    }
}

#[cycle(misuses)]
#[tactic(auto, unfolding(crate::specs::ExprMisuses::misused))]
fn any_is_misused(scope: &KnownColumns, place: &Place, parts: &[Expr]) -> bool
    ensures { result ≡ misused_any (columns_at scope.now place.now) (place_of place.now) (trees_of (map tree_of parts.now)) }
{
    for i in 0..parts.len() {
        let part = &parts[i];
        if is_misused(scope, place, part) {
            return true;
        }
    }
    false
}

#[cycle(misuses)]
#[tactic(auto, unfolding(crate::specs::ExprMisuses::misused))]
fn side_is_misused(scope: &KnownColumns, place: &Place, steps: &[Step]) -> bool
    ensures { result ≡ misused_side (columns_at scope.now place.now) (place_of place.now) (links_of (map link_of steps.now)) }
{
    for i in 0..steps.len() {
        let step = &steps[i];
        if is_misused(scope, place, &step.operand) {
            return true;
        }
    }
    false
}
