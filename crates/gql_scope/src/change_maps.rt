//! E16 in a clause that changes data: a map of INSERT names a property twice.

ghost use Rattle.std.specs.Prelude.{◌≡◌};
ghost use Rattle.std.specs.List.{flat_map};
ghost use Rattle.gql_scope.specs.ColumnFaults.{faults_in_map, faults_in_change};
ghost use Rattle.gql_ast.specs.InsertColumns.{insert_spots};
ghost use Rattle.gql_expr_checks.specs.Refusals.{refusal_of_first};
ghost use Rattle.gql_ast.specs.declared.refusal.Refusal.TheVariants as refusal;
ghost use Rattle.gql_expr_checks.specs.Gives.{Gives};

use crate::insert_maps::{MapQuestion, check_maps};
use gql_ast::{ChangeClause, InsertPath};
use gql_expr_checks::ScopeFault;
use std::alloc::Global;

/// Checks the maps of INSERT.
#[tactic(auto, using(crate::proofs::MapLemmas::fault_is_first))]
fn check_insert(alloc: Global, paths: &[InsertPath]) -> Result<(), ScopeFault>
    ensures { Gives result (refusal_of_first refusal.Column (flat_map (λ s. faults_in_map s.1.map) (insert_spots paths.now))) }
{
    check_maps(alloc, &MapQuestion::Repeated, paths)
}

/// Checks the maps of a clause that changes data.
pub fn check_change(alloc: Global, change: &ChangeClause) -> Result<(), ScopeFault>
    ensures { Gives result (refusal_of_first refusal.Column (faults_in_change change.now)) }
{
    match change {
        ChangeClause::Insert(paths) => check_insert(alloc, paths.as_slice()),
        _ => Ok(()),
    }
}
