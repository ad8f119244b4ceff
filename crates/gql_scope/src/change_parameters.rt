//! E23 in a clause that changes data: a parameter of a map of INSERT or of a value of SET isn't set.

ghost use Rattle.std.specs.Prelude.{◌≡◌};
ghost use Rattle.std.specs.List.{flat_map};
ghost use Rattle.gql_ast.specs.InsertColumns.{insert_spots};
ghost use Rattle.gql_expr_checks.specs.Refusals.{refusal_of_first};
ghost use Rattle.gql_expr_checks.specs.ExprParameters.{unset};
ghost use Rattle.gql_scope.specs.UnsetParameters.{parameters_of_map, parameters_of_set, parameters_of_change};
ghost use Rattle.gql_ast.specs.declared.refusal.Refusal.TheVariants as refusal;
ghost use Rattle.gql_expr_checks.specs.Gives.{Gives};

use crate::insert_maps::{MapQuestion, check_maps};
use gql_ast::{ChangeClause, InsertPath, SetItem};
use gql_expr_checks::{ScopeFault, check_parameters};
use gql_values3::Params;
use std::alloc::Global;

/// Checks the maps of INSERT.
fn check_insert(alloc: Global, params: &Params, paths: &[InsertPath]) -> Result<(), ScopeFault>
    ensures { Gives result (refusal_of_first refusal.Parameter (unset params.now (flat_map (λ s. parameters_of_map s.1.map) (insert_spots paths.now)))) }
{
    check_maps(alloc, &MapQuestion::Parameter(params), paths)
}

/// Checks the value of an item of SET.
fn check_set_item(alloc: Global, params: &Params, item: &SetItem) -> Result<(), ScopeFault>
    ensures { Gives result (refusal_of_first refusal.Parameter (unset params.now (parameters_of_set item.now))) }
{
    match item {
        SetItem::Property(_, _, value) => check_parameters(alloc, params, value),
        SetItem::Label(_, _) => Ok(()),
    }
}

/// Checks the values of SET.
fn check_set(alloc: Global, params: &Params, items: &[SetItem]) -> Result<(), ScopeFault>
    ensures { Gives result (refusal_of_first refusal.Parameter (unset params.now (flat_map parameters_of_set items.now))) }
{
    for item in items {
        check_set_item(alloc, params, item)?;
    }
    Ok(())
}

/// Checks the parameters of a clause that changes data.
pub fn check_change(alloc: Global, params: &Params, change: &ChangeClause) -> Result<(), ScopeFault>
    ensures { Gives result (refusal_of_first refusal.Parameter (unset params.now (parameters_of_change change.now))) }
{
    match change {
        ChangeClause::Insert(paths) => check_insert(alloc, params, paths.as_slice()),
        ChangeClause::Set(items) => check_set(alloc, params, items.as_slice()),
        ChangeClause::Remove(_) | ChangeClause::Delete(_, _) => Ok(()),
    }
}
