//! The first name of an expression that is of some sort.

ghost use Rattle.std.specs.Prelude.{◌≡◌, [], ◌∷◌, map, find};
ghost use Rattle.std.specs.Option.{option_copied};
ghost use Rattle.gql_ast.specs.Tree.{trees_of, links_of};
ghost use Rattle.gql_ast.specs.Meaning.{tree_of, link_of};
ghost use Rattle.gql_expr_checks.specs.ExprMisuses.{is_group_column};
ghost use Rattle.gql_ast.specs.Scope.{names_in, names_in_trees, names_in_links};
ghost use Rattle.gql_expr_checks.specs.Machinery.Sought.{is_sought};

use crate::columns::KnownColumns;
use gql_ast::{Expr, Step};
use gql_values3::{ColumnKind, Text};

/// Which name is sought.
#[derive(Drop)]
pub enum Sought<'a> {
    /// Any.
    Any,
    /// One that is no column.
    Unknown,
    /// A group.
    Group,
    /// A group other than this one.
    OtherGroup(&'a Text),
}

/// The first name of the expression that is of the sort.
#[cycle(names)]
#[tactic(auto, using(crate::proofs::PartLemmas::found_in_two))]
pub fn first_name<'e>(scope: &KnownColumns, sought: &Sought, expr: &'e Expr) -> Option<&'e Text>
    ensures { option_copied result ≡ find (is_sought scope.now sought.now) (names_in (tree_of expr.now)) }
{
    match expr {
        Expr::Constant(_) | Expr::Unknown | Expr::Number(_) | Expr::Parameter(_) => None,
        Expr::CountAll => None,
        Expr::Name(name) | Expr::Property(name, _) => if_sought(scope, sought, name),
        Expr::Paren(part) | Expr::Aggregate(_, _, part) | Expr::Call(_, part) => {
            first_name(scope, sought, part.expr())
        }
        Expr::Signed(_, part) | Expr::Is(part, _, _) | Expr::IsLabeled(part, _, _) => {
            first_name(scope, sought, part.expr())
        }
        Expr::Not(part) => first_name(scope, sought, part.expr()),
        Expr::List(parts) => first_of_parts(scope, sought, parts.as_slice()),
        Expr::Mod(a, b) | Expr::Compare(_, a, b) => match first_name(scope, sought, a.expr()) {
            Some(name) => Some(name),
            None => first_name(scope, sought, b.expr()),
        },
        Expr::IsEnd(part, _, _, edge) => match first_name(scope, sought, part.expr()) {
            Some(name) => Some(name),
            None => if_sought(scope, sought, edge),
        },
        Expr::Coalesce(first, rest) => match first_name(scope, sought, first.expr()) {
            Some(name) => Some(name),
            None => first_of_parts(scope, sought, rest.as_slice()),
        },
        Expr::Product(first, steps)
        | Expr::Sum(first, steps)
        | Expr::And(first, steps)
        | Expr::Or(first, steps) => match first_name(scope, sought, first.expr()) {
            Some(name) => Some(name),
            None => first_of_steps(scope, sought, steps.as_slice()),
        },
    }
}

fn if_sought<'e>(scope: &KnownColumns, sought: &Sought, name: &'e Text) -> Option<&'e Text>
    ensures { option_copied result ≡ find (is_sought scope.now sought.now) (name.now ∷ []) }
{
    if is_sought(scope, sought, name) {
        Some(name)
    } else {
        None
    }
}

/// Whether the name is of the sort.
fn is_sought(scope: &KnownColumns, sought: &Sought, name: &Text) -> bool
    ensures { result ≡ is_sought scope.now sought.now name.now }
{
    match sought {
        Sought::Any => true,
        Sought::Unknown => !scope.contains(name),
        Sought::Group => is_group_column(scope, name),
        Sought::OtherGroup(group) => is_group_column(scope, name)
            && group.as_str() != name.as_str(),
    }
}

/// Whether the name is a column of lists of elements.
pub fn is_group_column(scope: &KnownColumns, name: &Text) -> bool
    ensures { result ≡ is_group_column scope.now name.now }
{
    matches!(scope.kind(name), ColumnKind::Nodes | ColumnKind::Edges)
}

#[cycle(names)]
fn first_of_parts<'e>(scope: &KnownColumns, sought: &Sought, parts: &'e [Expr]) -> Option<&'e Text>
    ensures { option_copied result ≡ find (is_sought scope.now sought.now) (names_in_trees (trees_of (map tree_of parts.now))) }
{
    for i in 0..parts.len() {
        let part = &parts[i];
        if let Some(name) = first_name(scope, sought, part) {
            return Some(name);
        }
    }
    None
}

#[cycle(names)]
fn first_of_steps<'e>(scope: &KnownColumns, sought: &Sought, steps: &'e [Step]) -> Option<&'e Text>
    ensures { option_copied result ≡ find (is_sought scope.now sought.now) (names_in_links (links_of (map link_of steps.now))) }
{
    for i in 0..steps.len() {
        let step = &steps[i];
        if let Some(name) = first_name(scope, sought, &step.operand) {
            return Some(name);
        }
    }
    None
}
