//! E12 to E14: what lets a pattern have endlessly many matches. None of these asks for columns.

ghost use Rattle.std.specs.Prelude.{◌≡◌};
ghost use Rattle.gql_expr_checks.specs.Gives.{Gives};
ghost use Rattle.gql_expr_checks.specs.Refusals.{refusal_of_first};
ghost use Rattle.gql_norm.specs.NormalData.{pattern_data};
ghost use Rattle.gql_norm.specs.PatternRefusal.{refused_if};
ghost use Rattle.gql_norm.specs.Termination.{empty_loop, unbounded, group_references};
ghost use Rattle.gql_scope.specs.WholePatterns.{of_pattern, open_references};

use crate::normal_clause::NormalClause;
use gql_ast::Refusal;
use gql_expr_checks::ScopeFault;
use gql_norm::NormalPattern;
use gql_term::{empty_loop, group_ref, unbounded};
use std::alloc::Global;

/// Checks that no quantifier repeats a part that may pass no edge.
pub fn check_empty_loop(clause: &NormalClause) -> Result<(), ScopeFault>
    ensures { Gives result (refused_if Refusal.EmptyLoop (of_pattern empty_loop clause.now)) }
{
    if has_empty_loop(clause) {
        return Err(ScopeFault::Defect(Refusal::EmptyLoop));
    }
    Ok(())
}

#[tactic(auto, using(crate::proofs::FormLemmas::by_forms))]
fn has_empty_loop(clause: &NormalClause) -> bool
    ensures { result ≡ of_pattern empty_loop clause.now }
{
    match clause.pattern() {
        Some(pattern) => empty_loop(pattern),
        None => false,
    }
}

/// Checks that nothing is repeated without a bound, unless it is protected or selected.
pub fn check_open_end(clause: &NormalClause) -> Result<(), ScopeFault>
    ensures { Gives result (refused_if Refusal.Unbounded (of_pattern unbounded clause.now)) }
{
    if has_open_end(clause) {
        return Err(ScopeFault::Defect(Refusal::Unbounded));
    }
    Ok(())
}

#[tactic(auto, using(crate::proofs::FormLemmas::by_forms))]
fn has_open_end(clause: &NormalClause) -> bool
    ensures { result ≡ of_pattern unbounded clause.now }
{
    match clause.pattern() {
        Some(pattern) => unbounded(pattern),
        None => false,
    }
}

/// Checks that no reference crosses a quantifier without a bound.
#[tactic(auto, using(crate::proofs::FormLemmas::by_forms))]
#[inline(never)]
pub fn check_references(alloc: Global, clause: &NormalClause) -> Result<(), ScopeFault>
    ensures { Gives result (refusal_of_first Refusal.GroupRef (open_references clause.now)) }
{
    match clause.pattern() {
        Some(pattern) => check_match(alloc, pattern),
        None => Ok(()),
    }
}

#[tactic(auto, using(gql_expr_checks::proofs::RefusalLemmas::first_of_first))]
fn check_match(alloc: Global, pattern: &NormalPattern) -> Result<(), ScopeFault>
    ensures { Gives result (refusal_of_first Refusal.GroupRef (group_references (pattern_data pattern.now))) }
{
    match group_ref(pattern) {
        None => Ok(()),
        Some(name) => Err(ScopeFault::Defect(Refusal::GroupRef(name.try_copy(alloc)?))),
    }
}
