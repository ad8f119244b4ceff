//! E09 in SET, REMOVE and DELETE: a target that is no element.

ghost use Rattle.std.specs.Prelude.{◌≡◌};
ghost use Rattle.std.specs.List.{flat_map};
ghost use Rattle.gql_expr_checks.specs.Refusals.{refusal_of_first};
ghost use Rattle.gql_expr_checks.specs.Gives.{Gives};
ghost use Rattle.gql_scope.specs.WrongKinds.{is_element, wrong_target, set_target, remove_target};
ghost use Rattle.gql_scope.specs.Machinery.Codes.{targets_in_change};

use gql_ast::{ChangeClause, Refusal, RemoveItem, SetItem};
use gql_expr_checks::{KnownColumns, ScopeFault};
use gql_values3::{ColumnKind, Text};
use std::alloc::Global;

/// Whether a column holds elements; a group doesn't.
fn is_element(kind: ColumnKind) -> bool
    ensures { result ≡ is_element kind }
{
    matches!(kind, ColumnKind::Node | ColumnKind::Edge)
}

/// Checks that a target, where it is a column, is an element.
fn check_target(alloc: Global, scope: &KnownColumns, name: &Text) -> Result<(), ScopeFault>
    ensures { Gives result (refusal_of_first Refusal.Kind (wrong_target scope.now name.now)) }
{
    if scope.contains(name) && !is_element(scope.kind(name)) {
        return Err(ScopeFault::Defect(Refusal::Kind(name.try_copy(alloc)?)));
    }
    Ok(())
}

/// Checks the target of an item of SET.
fn check_set_item(alloc: Global, scope: &KnownColumns, item: &SetItem) -> Result<(), ScopeFault>
    ensures { Gives result (refusal_of_first Refusal.Kind (wrong_target scope.now (set_target item.now))) }
{
    match item {
        SetItem::Property(name, _, _) | SetItem::Label(name, _) => check_target(alloc, scope, name),
    }
}

/// Checks the targets of SET.
#[tactic(auto, using(gql_expr_checks::proofs::RefusalLemmas::first_of_in_two))]
fn check_set(alloc: Global, scope: &KnownColumns, items: &[SetItem]) -> Result<(), ScopeFault>
    ensures { Gives result (refusal_of_first Refusal.Kind (flat_map (λ i. wrong_target scope.now (set_target i)) items.now)) }
{
    for item in items {
        check_set_item(alloc, scope, item)?;
    }
    Ok(())
}

/// Checks the target of an item of REMOVE.
fn check_remove_item(
    alloc: Global,
    scope: &KnownColumns,
    item: &RemoveItem,
) -> Result<(), ScopeFault>
    ensures { Gives result (refusal_of_first Refusal.Kind (wrong_target scope.now (remove_target item.now))) }
{
    match item {
        RemoveItem::Property(name, _) | RemoveItem::Label(name, _) => {
            check_target(alloc, scope, name)
        }
    }
}

/// Checks the targets of REMOVE.
#[tactic(auto, using(gql_expr_checks::proofs::RefusalLemmas::first_of_in_two))]
fn check_remove(alloc: Global, scope: &KnownColumns, items: &[RemoveItem]) -> Result<(), ScopeFault>
    ensures { Gives result (refusal_of_first Refusal.Kind (flat_map (λ i. wrong_target scope.now (remove_target i)) items.now)) }
{
    for item in items {
        check_remove_item(alloc, scope, item)?;
    }
    Ok(())
}

/// Checks the targets of DELETE.
#[tactic(auto, using(gql_expr_checks::proofs::RefusalLemmas::first_of_in_two))]
fn check_delete(alloc: Global, scope: &KnownColumns, names: &[Text]) -> Result<(), ScopeFault>
    ensures { Gives result (refusal_of_first Refusal.Kind (flat_map (wrong_target scope.now) names.now)) }
{
    for name in names {
        check_target(alloc, scope, name)?;
    }
    Ok(())
}

/// Checks the targets of a clause that changes data; INSERT has none.
pub fn check_change(
    alloc: Global,
    scope: &KnownColumns,
    change: &ChangeClause,
) -> Result<(), ScopeFault>
    ensures { Gives result (refusal_of_first Refusal.Kind (targets_in_change scope.now change.now)) }
{
    match change {
        ChangeClause::Insert(_) => Ok(()),
        ChangeClause::Set(items) => check_set(alloc, scope, items.as_slice()),
        ChangeClause::Remove(items) => check_remove(alloc, scope, items.as_slice()),
        ChangeClause::Delete(_, names) => check_delete(alloc, scope, names.as_slice()),
    }
}
