//! The first wide number in the clauses of a query.

ghost use Rattle.std.specs.Prelude.{◌≡◌, find};
ghost use Rattle.std.specs.List.{flat_map};
ghost use Rattle.std.specs.Option.{option_copied};
ghost use Rattle.gql_ast.specs.NumberLiterals.{is_wide, within, numbers_in_clause, numbers_in_column, numbers_in_columns, numbers_in_let, numbers_in_order, numbers_in_return};

use super::changes::in_change;
use super::expressions::in_expr;
use super::pages::{in_order, in_page, in_range};
use super::patterns::in_graph_pattern;
use gql_ast::{Clause, LetItem, Return, ReturnItem, ReturnItems, SortItems};
use gql_values3::Text;

/// The first number of the clauses of a query that is too large.
#[tactic(auto, using(crate::proofs::FindLemmas::in_item))]
pub fn in_clauses(clauses: &[Clause]) -> Option<&Text>
    ensures { option_copied result ≡ find is_wide (flat_map numbers_in_clause clauses.now) }
{
    for clause in clauses {
        if let Some(digits) = in_clause(clause) {
            return Some(digits);
        }
    }
    None
}

fn in_clause(clause: &Clause) -> Option<&Text>
    ensures { option_copied result ≡ find is_wide (numbers_in_clause clause.now) }
{
    match clause {
        Clause::Match(found) => in_graph_pattern(&found.pattern),
        Clause::Let(items) => in_lets(items.as_slice()),
        Clause::Filter(condition) => in_expr(condition),
        Clause::For(items) => in_expr(&items.list),
        Clause::Page(page) => in_page(page),
        Clause::Change(change) => in_change(change),
        Clause::Return(given) => in_return(given),
    }
}

#[tactic(auto, using(crate::proofs::FindLemmas::in_item))]
fn in_lets(items: &[LetItem]) -> Option<&Text>
    ensures { option_copied result ≡ find is_wide (flat_map numbers_in_let items.now) }
{
    for item in items {
        if let Some(digits) = in_expr(&item.value) {
            return Some(digits);
        }
    }
    None
}

#[tactic(auto, using(crate::proofs::FindLemmas::in_both))]
fn in_return(given: &Return) -> Option<&Text>
    ensures { option_copied result ≡ find is_wide (numbers_in_return given.now) }
{
    if let Some(digits) = in_items(&given.items) {
        return Some(digits);
    }
    match in_order_of(&given.order) {
        Some(digits) => Some(digits),
        None => in_range(&given.skip, &given.limit),
    }
}

fn in_items(items: &ReturnItems) -> Option<&Text>
    ensures { option_copied result ≡ find is_wide (numbers_in_columns items.now) }
{
    match items {
        ReturnItems::All => None,
        ReturnItems::Listed(items) => in_columns(items.as_slice()),
    }
}

#[tactic(auto, using(crate::proofs::FindLemmas::in_item))]
fn in_columns(items: &[ReturnItem]) -> Option<&Text>
    ensures { option_copied result ≡ find is_wide (flat_map numbers_in_column items.now) }
{
    for item in items {
        if let Some(digits) = in_expr(&item.value) {
            return Some(digits);
        }
    }
    None
}

fn in_order_of(order: &Option<SortItems>) -> Option<&Text>
    ensures { option_copied result ≡ find is_wide (within numbers_in_order order.now) }
{
    match order {
        Some(items) => in_order(items.as_slice()),
        None => None,
    }
}
