//! E15 of a pattern: a group that is used as an element, or an aggregate where none may stand.

ghost use Rattle.gql_expr_checks.specs.Gives.{Gives};
ghost use Rattle.gql_expr_checks.specs.Refusals.{misuse_if};
ghost use Rattle.gql_norm.specs.NormalData.{pattern_data};
ghost use Rattle.gql_norm.specs.OtherDefects.{misused_in_match};

use crate::scoped::{ScopeQuestion, Walk};
use crate::scoped_paths::check_pattern;
use gql_expr_checks::{KnownColumns, ScopeFault};
use gql_norm::NormalPattern;
use std::alloc::Global;

/// Checks that nothing in a pattern is misused. A variable is a group where its element stands under a quantifier that is closed;
/// within the quantifier it is one element.
pub fn check_pattern_misuse(
    alloc: Global,
    columns: &KnownColumns,
    pattern: &NormalPattern,
) -> Result<(), ScopeFault>
    ensures { Gives result (misuse_if (misused_in_match columns.now (pattern_data pattern.now))) }
{
    let walk = Walk {
        alloc,
        question: ScopeQuestion::Misuses,
        columns,
    };
    check_pattern(&walk, pattern)
}
