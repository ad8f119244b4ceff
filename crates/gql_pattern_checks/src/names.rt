//! E08 of a pattern: an expression names what it may not name, or a path name stands for something already.

ghost use Rattle.gql_expr_checks.specs.Gives.{Gives};
ghost use Rattle.gql_expr_checks.specs.Refusals.{refusal_of_first};
ghost use Rattle.gql_norm.specs.NormalData.{pattern_data};
ghost use Rattle.gql_norm.specs.UnknownNames.{unknown_in_match};

use crate::scoped::{ScopeQuestion, Walk};
use crate::scoped_paths::check_pattern;
use gql_ast::Refusal;
use gql_expr_checks::{KnownColumns, ScopeFault};
use gql_norm::NormalPattern;
use std::alloc::Global;

/// Checks the names of a pattern: fails the first in the text that may not be named there, or that is a path name and stands for
/// something already. Incoming columns are in scope everywhere; a variable is, from its element on, in its path pattern, but not in
/// another side of a union; the final WHERE sees all.
pub fn check_pattern_names(
    alloc: Global,
    columns: &KnownColumns,
    pattern: &NormalPattern,
) -> Result<(), ScopeFault>
    ensures { Gives result (refusal_of_first Refusal.Variable (unknown_in_match columns.now (pattern_data pattern.now))) }
{
    let walk = Walk {
        alloc,
        question: ScopeQuestion::Names,
        columns,
    };
    check_pattern(&walk, pattern)
}
