//! E10 and E11: a pattern joins a name that is a group, or one that is conditional.

ghost use Rattle.std.specs.Prelude.{◌≡◌, IfOk};
ghost use Rattle.gql_norm.specs.NormalData.{pattern_data};
ghost use Rattle.gql_expr_checks.specs.Refusals.{refusal_of_first};
ghost use Rattle.gql_scope.specs.WholePatterns.{at_most_one, joined_conditionals, joined_groups};
ghost use Rattle.gql_scope.specs.Machinery.Joins.{join_refusal, joined_in_pattern, joined_names};
ghost use Rattle.gql_expr_checks.specs.Gives.{Gives};

use crate::behind::column_list;
use crate::normal_clause::NormalClause;
use gql_ast::Refusal;
use gql_degrees::{joined_conditional, joined_group};
use gql_expr_checks::{KnownColumns, ScopeFault};
use gql_norm::NormalPattern;
use gql_values3::{Columns, OutOfMemory, Text};
use std::alloc::Global;

/// Which join is refused.
#[derive(Clone, Copy, Debug, PartialEq, Eq)]
pub enum Join {
    /// That of a group.
    Group,
    /// That of a conditional.
    Conditional,
}

fn refuse(join: Join, name: Text) -> Refusal
    ensures { result ≡ join_refusal join name }
{
    match join {
        Join::Group => Refusal::GroupJoin(name),
        Join::Conditional => Refusal::CondJoin(name),
    }
}

/// The first name of a pattern that is joined so.
fn joined_in_pattern(
    alloc: Global,
    join: Join,
    columns: &Columns,
    pattern: &NormalPattern,
) -> Result<Option<Text>, OutOfMemory>
    ensures { IfOk result (λ name. name ≡ joined_in_pattern join columns.now (pattern_data pattern.now)) }
{
    match join {
        Join::Group => joined_group(alloc, columns, pattern),
        Join::Conditional => joined_conditional(alloc, columns, pattern),
    }
}

/// Checks a pattern.
fn check_match(
    alloc: Global,
    join: Join,
    scope: &KnownColumns,
    pattern: &NormalPattern,
) -> Result<(), ScopeFault>
    ensures { Gives result (refusal_of_first (join_refusal join) (at_most_one (joined_in_pattern join scope.now (pattern_data pattern.now)))) }
{
    let columns = column_list(alloc, scope)?;
    match joined_in_pattern(alloc, join, &columns, pattern)? {
        None => Ok(()),
        Some(name) => Err(ScopeFault::Defect(refuse(join, name))),
    }
}

/// Checks a clause.
#[tactic(auto, using(crate::proofs::FormLemmas::by_forms))]
#[inline(never)]
fn check_clause(
    alloc: Global,
    join: Join,
    scope: &KnownColumns,
    clause: &NormalClause,
) -> Result<(), ScopeFault>
    ensures { Gives result (refusal_of_first (join_refusal join) (joined_names join scope.now clause.now)) }
{
    match clause.pattern() {
        Some(pattern) => check_match(alloc, join, scope, pattern),
        None => Ok(()),
    }
}

/// Checks that a clause joins no group.
pub fn check_group_join(
    alloc: Global,
    scope: &KnownColumns,
    clause: &NormalClause,
) -> Result<(), ScopeFault>
    ensures { Gives result (refusal_of_first Refusal.GroupJoin (joined_groups scope.now clause.now)) }
{
    check_clause(alloc, Join::Group, scope, clause)
}

/// Checks that a clause joins nothing that is conditional.
pub fn check_conditional_join(
    alloc: Global,
    scope: &KnownColumns,
    clause: &NormalClause,
) -> Result<(), ScopeFault>
    ensures { Gives result (refusal_of_first Refusal.CondJoin (joined_conditionals scope.now clause.now)) }
{
    check_clause(alloc, Join::Conditional, scope, clause)
}
