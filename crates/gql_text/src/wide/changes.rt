//! The first wide number in a clause that changes data.

ghost use Rattle.std.specs.Prelude.{◌≡◌, find};
ghost use Rattle.std.specs.List.{flat_map};
ghost use Rattle.std.specs.Option.{option_copied};
ghost use Rattle.gql_ast.specs.NumberLiterals.{is_wide, numbers_in_change, numbers_in_fill, numbers_in_insert, numbers_in_set, numbers_in_step};

use super::expressions::in_expr;
use super::patterns::in_map;
use gql_ast::{ChangeClause, Fill, InsertPath, InsertStep, SetItem};
use gql_values3::Text;

/// The first number of a change that is too large.
pub fn in_change(change: &ChangeClause) -> Option<&Text>
    ensures { option_copied result ≡ find is_wide (numbers_in_change change.now) }
{
    match change {
        ChangeClause::Insert(paths) => in_inserts(paths.as_slice()),
        ChangeClause::Set(items) => in_sets(items.as_slice()),
        ChangeClause::Remove(_) | ChangeClause::Delete(_, _) => None,
    }
}

#[tactic(auto, using(crate::proofs::FindLemmas::in_item))]
fn in_inserts(paths: &[InsertPath]) -> Option<&Text>
    ensures { option_copied result ≡ find is_wide (flat_map numbers_in_insert paths.now) }
{
    for path in paths {
        if let Some(digits) = in_insert(path) {
            return Some(digits);
        }
    }
    None
}

#[tactic(auto, using(crate::proofs::FindLemmas::in_both))]
fn in_insert(path: &InsertPath) -> Option<&Text>
    ensures { option_copied result ≡ find is_wide (numbers_in_insert path.now) }
{
    match in_fill(&path.start) {
        Some(digits) => Some(digits),
        None => in_insert_steps(path.steps.as_slice()),
    }
}

#[tactic(auto, using(crate::proofs::FindLemmas::in_item))]
fn in_insert_steps(steps: &[InsertStep]) -> Option<&Text>
    ensures { option_copied result ≡ find is_wide (flat_map numbers_in_step steps.now) }
{
    for step in steps {
        if let Some(digits) = in_insert_step(step) {
            return Some(digits);
        }
    }
    None
}

#[tactic(auto, using(crate::proofs::FindLemmas::in_both))]
fn in_insert_step(step: &InsertStep) -> Option<&Text>
    ensures { option_copied result ≡ find is_wide (numbers_in_step step.now) }
{
    match in_fill(&step.edge) {
        Some(digits) => Some(digits),
        None => in_fill(&step.node),
    }
}

fn in_fill(fill: &Fill) -> Option<&Text>
    ensures { option_copied result ≡ find is_wide (numbers_in_fill fill.now) }
{
    match &fill.map {
        Some(items) => in_map(items.as_slice()),
        None => None,
    }
}

#[tactic(auto, using(crate::proofs::FindLemmas::in_item))]
fn in_sets(items: &[SetItem]) -> Option<&Text>
    ensures { option_copied result ≡ find is_wide (flat_map numbers_in_set items.now) }
{
    for item in items {
        if let Some(digits) = in_set(item) {
            return Some(digits);
        }
    }
    None
}

fn in_set(item: &SetItem) -> Option<&Text>
    ensures { option_copied result ≡ find is_wide (numbers_in_set item.now) }
{
    match item {
        SetItem::Property(_, _, value) => in_expr(value),
        SetItem::Label(_, _) => None,
    }
}
