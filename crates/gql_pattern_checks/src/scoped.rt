//! A question that is asked of an expression under what it may name.

ghost use Rattle.std.specs.Prelude.{map, option_map};
ghost use Rattle.gql_ast.specs.Meaning.{tree_of};
ghost use Rattle.gql_expr_checks.specs.Gives.{Gives};
ghost use Rattle.gql_norm.specs.NormalData.{predicate_data};
ghost use Rattle.gql_norm.specs.PredicateSpot.{tree_in, trees_in};
ghost use Rattle.gql_pattern_checks.specs.Machinery.ScopeWalk.{refused_of, refused_under};
ghost use Rattle.gql_pattern_checks.specs.Machinery.Scopes.{known_columns};

use crate::scope::Names;
use crate::seen::seen_columns;
use gql_ast::Expr;
use gql_expr_checks::{KnownColumns, ScopeFault, check_misuse, check_names};
use gql_norm::Predicate;
use std::alloc::Global;

/// What is asked of each expression.
#[derive(Clone, Copy, Debug, PartialEq, Eq)]
pub enum ScopeQuestion {
    /// Whether all of its names may be named.
    Names,
    /// Whether nothing is misused.
    Misuses,
}

/// What stays the same throughout a pattern.
#[derive(Drop)]
pub struct Walk<'a> {
    pub alloc: Global,
    pub question: ScopeQuestion,
    pub columns: &'a KnownColumns,
}

/// Asks of an expression.
pub fn ask(walk: &Walk, names: &Names, expr: &Expr) -> Result<(), ScopeFault>
    ensures { Gives result (refused_under walk.now.question (known_columns walk.now.columns.now names.now) (tree_of expr.now)) }
{
    let seen = seen_columns(walk.alloc, walk.columns, names, expr)?;
    match walk.question {
        ScopeQuestion::Names => check_names(walk.alloc, &seen, expr),
        ScopeQuestion::Misuses => check_misuse(&seen, expr),
    }
}

/// Asks of a condition that may be there.
#[tactic(auto, using(crate::proofs::RowLemmas::refused_one))]
pub fn ask_condition(walk: &Walk, names: &Names, condition: &Option<Expr>) -> Result<(), ScopeFault>
    ensures { Gives result (refused_of walk.now.question walk.now.columns.now names.now (trees_in (option_map tree_of condition.now))) }
{
    match condition {
        None => Ok(()),
        Some(condition) => ask(walk, names, condition),
    }
}

/// Asks of predicates in order.
pub fn ask_predicates(
    walk: &Walk,
    names: &Names,
    predicates: &[Predicate],
) -> Result<(), ScopeFault>
    ensures { Gives result (refused_of walk.now.question walk.now.columns.now names.now (map tree_in (map predicate_data predicates.now))) }
{
    for predicate in predicates {
        ask_predicate(walk, names, predicate)?;
    }
    Ok(())
}

fn ask_predicate(walk: &Walk, names: &Names, predicate: &Predicate) -> Result<(), ScopeFault>
    ensures { Gives result (refused_under walk.now.question (known_columns walk.now.columns.now names.now) (tree_in (predicate_data predicate.now))) }
{
    match predicate {
        Predicate::PropertyIs(_, expr) | Predicate::Holds(expr) => ask(walk, names, expr),
    }
}
