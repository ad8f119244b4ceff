//! E23: a parameter that isn't set.

ghost use Rattle.std.specs.List.{flat_map};
ghost use Rattle.std.specs.Prelude.{map};
ghost use Rattle.gql_expr_checks.specs.ExprParameters.{parameters_in, unset};
ghost use Rattle.gql_expr_checks.specs.Gives.{Gives};
ghost use Rattle.gql_expr_checks.specs.Refusals.{refusal_of_first};
ghost use Rattle.gql_norm.specs.NormalData.{pattern_data, predicate_data};
ghost use Rattle.gql_norm.specs.OtherDefects.{unset_parameters};
ghost use Rattle.gql_norm.specs.PredicateSpot.{tree_in};
ghost use Rattle.gql_pattern_checks.specs.Machinery.Questions.{unset_in_element, unset_in_condition};

use crate::walk::{Question, ask_if_there, ask_paths};
use gql_ast::{Expr, Refusal};
use gql_expr_checks::{ScopeFault, check_parameters};
use gql_norm::{ElementPattern, NormalPattern, Predicate};
use gql_values3::Params;
use std::alloc::Global;

/// Checks that each parameter of a pattern is set: fails the first in the text that is not.
pub fn check_pattern_parameters(
    alloc: Global,
    params: &Params,
    pattern: &NormalPattern,
) -> Result<(), ScopeFault>
    ensures { Gives result (refusal_of_first Refusal.Parameter (unset_parameters params.now (pattern_data pattern.now))) }
{
    let question = AreSet { params };
    ask_paths(&question, alloc, pattern.paths.as_slice())?;
    ask_if_there(&question, alloc, &pattern.condition)
}

/// Whether each parameter is set.
#[derive(Drop)]
pub struct AreSet<'a> {
    pub params: &'a Params,
}

impl<'a> Question for AreSet<'a> {
    ghost of_element = { λ q w. unset_in_element q.params.now w };

    ghost of_condition = { λ q e. unset_in_condition q.params.now e };

    fn ask_element(&self, alloc: Global, element: &ElementPattern) -> Result<(), ScopeFault> {
        check_predicates(alloc, self.params, element.predicates.as_slice())
    }

    fn ask_condition(&self, alloc: Global, condition: &Expr) -> Result<(), ScopeFault> {
        check_parameters(alloc, self.params, condition)
    }
}

fn check_predicates(
    alloc: Global,
    params: &Params,
    predicates: &[Predicate],
) -> Result<(), ScopeFault>
    ensures { Gives result (refusal_of_first Refusal.Parameter (unset params.now (flat_map parameters_in (map tree_in (map predicate_data predicates.now))))) }
{
    for predicate in predicates {
        check_predicate(alloc, params, predicate)?;
    }
    Ok(())
}

fn check_predicate(alloc: Global, params: &Params, predicate: &Predicate) -> Result<(), ScopeFault>
    ensures { Gives result (refusal_of_first Refusal.Parameter (unset params.now (parameters_in (tree_in (predicate_data predicate.now))))) }
{
    match predicate {
        Predicate::PropertyIs(_, value) => check_parameters(alloc, params, value),
        Predicate::Holds(condition) => check_parameters(alloc, params, condition),
    }
}
