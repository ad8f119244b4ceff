//! E08 in a clause that changes data: a target that is no column, or an unknown name in a value. The names of an INSERT are gone
//! over by `insert_spots`.

ghost use Rattle.std.specs.Prelude.{◌≡◌, ◌++◌, OnOk, IsFalse};
ghost use Rattle.std.specs.List.{flat_map};
ghost use Rattle.std.specs.Option.{option_or};
ghost use Rattle.gql_ast.specs.InsertColumns.{change_columns};
ghost use Rattle.gql_expr_checks.specs.Refusals.{refusal_of_first};
ghost use Rattle.gql_expr_checks.specs.ExprNames.{unknown_in_expr};
ghost use Rattle.gql_expr_checks.specs.Gives.{Gives};
ghost use Rattle.gql_scope.specs.UnknownNames.{missing, unknown_in_set, unknown_in_remove, unknown_in_change};
ghost use Rattle.gql_scope.specs.Machinery.Codes.{endpoints_in_change};

use crate::insert_spots::pass_insert;
use gql_ast::{ChangeClause, Expr, Refusal, RemoveItem, SetItem};
use gql_expr_checks::{KnownColumns, ScopeFault, check_names};
use gql_values3::Text;
use std::alloc::Global;

/// Checks that a target is a column.
fn check_target(alloc: Global, scope: &KnownColumns, name: &Text) -> Result<(), ScopeFault>
    ensures { Gives result (refusal_of_first Refusal.Variable (missing scope.now name.now)) }
{
    if scope.contains(name) {
        return Ok(());
    }
    Err(ScopeFault::Defect(Refusal::Variable(name.try_copy(alloc)?)))
}

/// Checks that a target is a column, and then the names of the value that it gets.
#[tactic(auto, using(gql_expr_checks::proofs::RefusalLemmas::first_of_in_two))]
fn check_assignment(
    alloc: Global,
    scope: &KnownColumns,
    name: &Text,
    value: &Expr,
) -> Result<(), ScopeFault>
    ensures { Gives result (refusal_of_first Refusal.Variable (missing scope.now name.now ++ unknown_in_expr scope.now value.now)) }
{
    check_target(alloc, scope, name)?;
    check_names(alloc, scope, value)
}

/// Checks the names of an item of SET.
fn check_set_item(alloc: Global, scope: &KnownColumns, item: &SetItem) -> Result<(), ScopeFault>
    ensures { Gives result (refusal_of_first Refusal.Variable (unknown_in_set scope.now item.now)) }
{
    match item {
        SetItem::Property(name, _, value) => check_assignment(alloc, scope, name, value),
        SetItem::Label(name, _) => check_target(alloc, scope, name),
    }
}

/// Checks the names of SET.
#[tactic(auto, using(gql_expr_checks::proofs::RefusalLemmas::first_of_in_two))]
fn check_set(alloc: Global, scope: &KnownColumns, items: &[SetItem]) -> Result<(), ScopeFault>
    ensures { Gives result (refusal_of_first Refusal.Variable (flat_map (unknown_in_set scope.now) items.now)) }
{
    for item in items {
        check_set_item(alloc, scope, item)?;
    }
    Ok(())
}

/// Checks the name of an item of REMOVE.
fn check_remove_item(
    alloc: Global,
    scope: &KnownColumns,
    item: &RemoveItem,
) -> Result<(), ScopeFault>
    ensures { Gives result (refusal_of_first Refusal.Variable (unknown_in_remove scope.now item.now)) }
{
    match item {
        RemoveItem::Property(name, _) | RemoveItem::Label(name, _) => {
            check_target(alloc, scope, name)
        }
    }
}

/// Checks the names of REMOVE.
#[tactic(auto, using(gql_expr_checks::proofs::RefusalLemmas::first_of_in_two))]
fn check_remove(alloc: Global, scope: &KnownColumns, items: &[RemoveItem]) -> Result<(), ScopeFault>
    ensures { Gives result (refusal_of_first Refusal.Variable (flat_map (unknown_in_remove scope.now) items.now)) }
{
    for item in items {
        check_remove_item(alloc, scope, item)?;
    }
    Ok(())
}

/// Checks the names of DELETE.
#[tactic(auto, using(gql_expr_checks::proofs::RefusalLemmas::first_of_in_two))]
fn check_delete(alloc: Global, scope: &KnownColumns, names: &[Text]) -> Result<(), ScopeFault>
    ensures { Gives result (refusal_of_first Refusal.Variable (flat_map (missing scope.now) names.now)) }
{
    for name in names {
        check_target(alloc, scope, name)?;
    }
    Ok(())
}

/// Checks the names of a clause that changes data. Of an INSERT it notes the kinds (E09) in the same walk, and adds its columns,
/// unless it is the last clause.
#[tactic(auto, using(crate::proofs::CodeLemmas::or_none))]
pub fn pass_change(
    alloc: Global,
    scope: &mut KnownColumns,
    kinds: &mut Option<Refusal>,
    change: &ChangeClause,
    is_last: bool,
) -> Result<(), ScopeFault>
    ensures names { Gives result (refusal_of_first Refusal.Variable (unknown_in_change scope.old change.now)) }
    ensures kinds { OnOk result (kinds.new ≡ option_or kinds.old (refusal_of_first Refusal.Kind (endpoints_in_change scope.old change.now))) }
    ensures columns { OnOk result (IsFalse is_last → scope.new ≡ change_columns scope.old change.now) }
{
    match change {
        ChangeClause::Insert(paths) => pass_insert(alloc, scope, kinds, paths.as_slice(), is_last),
        ChangeClause::Set(items) => check_set(alloc, scope, items.as_slice()),
        ChangeClause::Remove(items) => check_remove(alloc, scope, items.as_slice()),
        ChangeClause::Delete(_, names) => check_delete(alloc, scope, names.as_slice()),
    }
}
