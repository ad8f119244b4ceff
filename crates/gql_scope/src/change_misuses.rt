//! E15 in a clause that changes data: something is misused in a map of INSERT or in a value of SET.

ghost use Rattle.std.specs.Prelude.{◌≡◌, ◌||◌};
ghost use Rattle.std.specs.List.{list_any};
ghost use Rattle.gql_ast.specs.InsertColumns.{insert_spots};
ghost use Rattle.gql_scope.specs.Misuses.{misused_map, misused_set, misused_change};
ghost use Rattle.gql_expr_checks.specs.Refusals.{misuse_if};
ghost use Rattle.gql_expr_checks.specs.Gives.{Gives};

use crate::insert_maps::{MapQuestion, check_maps};
use gql_ast::{ChangeClause, InsertPath, SetItem};
use gql_expr_checks::{KnownColumns, ScopeFault, check_misuse};
use std::alloc::Global;

/// Checks the maps of INSERT.
fn check_insert(alloc: Global, scope: &KnownColumns, paths: &[InsertPath]) -> Result<(), ScopeFault>
    ensures { Gives result (misuse_if (list_any (λ s. misused_map scope.now s.1.map) (insert_spots paths.now))) }
{
    check_maps(alloc, &MapQuestion::Misuse(scope), paths)
}

/// Checks the value of an item of SET.
fn check_set_item(scope: &KnownColumns, item: &SetItem) -> Result<(), ScopeFault>
    ensures { Gives result (misuse_if (misused_set scope.now item.now)) }
{
    match item {
        SetItem::Property(_, _, value) => check_misuse(scope, value),
        SetItem::Label(_, _) => Ok(()),
    }
}

/// Checks the values of SET.
#[tactic(auto, using(gql_expr_checks::proofs::RefusalLemmas::misuse_in_two))]
fn check_set(scope: &KnownColumns, items: &[SetItem]) -> Result<(), ScopeFault>
    ensures { Gives result (misuse_if (list_any (misused_set scope.now) items.now)) }
{
    for item in items {
        check_set_item(scope, item)?;
    }
    Ok(())
}

/// Checks the expressions of a clause that changes data.
pub fn check_change(
    alloc: Global,
    scope: &KnownColumns,
    change: &ChangeClause,
) -> Result<(), ScopeFault>
    ensures { Gives result (misuse_if (misused_change scope.now change.now)) }
{
    match change {
        ChangeClause::Insert(paths) => check_insert(alloc, scope, paths.as_slice()),
        ChangeClause::Set(items) => check_set(scope, items.as_slice()),
        ChangeClause::Remove(_) | ChangeClause::Delete(_, _) => Ok(()),
    }
}
