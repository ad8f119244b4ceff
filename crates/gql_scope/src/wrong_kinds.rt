//! E09: a name that is a column of another kind; `change_kinds` has the clauses that change data, but for INSERT, of which
//! `spot_names` asks it.

ghost use Rattle.gql_norm.specs.NormalData.{pattern_data};
ghost use Rattle.gql_norm.specs.WrongKinds.{wrong_in_match};
ghost use Rattle.gql_expr_checks.specs.Refusals.{refusal_of_first};
ghost use Rattle.gql_scope.specs.Machinery.Codes.{targets_in_clause, kinds_apart};
ghost use Rattle.gql_expr_checks.specs.Gives.{Gives};

use crate::behind::column_list;
use crate::change_kinds::check_change;
use crate::normal_clause::NormalClause;
use gql_ast::{Clause, Refusal};
use gql_degrees::wrong_kind;
use gql_expr_checks::{KnownColumns, ScopeFault};
use gql_norm::NormalPattern;
use std::alloc::Global;

/// Checks the variables of a pattern.
#[tactic(auto, using(gql_expr_checks::proofs::RefusalLemmas::first_of_first))]
fn check_match(
    alloc: Global,
    scope: &KnownColumns,
    pattern: &NormalPattern,
) -> Result<(), ScopeFault>
    ensures { Gives result (refusal_of_first Refusal.Kind (wrong_in_match scope.now (pattern_data pattern.now))) }
{
    let columns = column_list(alloc, scope)?;
    match wrong_kind(alloc, &columns, pattern)? {
        None => Ok(()),
        Some(name) => Err(ScopeFault::Defect(Refusal::Kind(name))),
    }
}

/// Checks a clause that is no MATCH. Of those that change data `change_kinds` asks all but INSERT.
fn check_other(alloc: Global, scope: &KnownColumns, clause: &Clause) -> Result<(), ScopeFault>
    ensures { Gives result (refusal_of_first Refusal.Kind (targets_in_clause scope.now clause.now)) }
{
    match clause {
        Clause::Change(change) => check_change(alloc, scope, change),
        _ => Ok(()),
    }
}

/// Checks a clause; an INSERT is asked in the walk of its names.
#[tactic(auto, using(crate::proofs::FormLemmas::by_forms))]
#[inline(never)]
pub fn check_clause(
    alloc: Global,
    scope: &KnownColumns,
    clause: &NormalClause,
) -> Result<(), ScopeFault>
    ensures { Gives result (refusal_of_first Refusal.Kind (kinds_apart scope.now clause.now)) }
{
    match clause.pattern() {
        Some(pattern) => check_match(alloc, scope, pattern),
        None => check_other(alloc, scope, clause.clause()),
    }
}
