//! A walk over the maps of an INSERT in the order of the text.

ghost use Rattle.std.specs.Prelude.{◌≡◌};
ghost use Rattle.std.specs.List.{flat_map};
ghost use Rattle.gql_ast.specs.InsertColumns.{step_spots, path_spots, insert_spots};
ghost use Rattle.gql_expr_checks.specs.Gives.{Gives};
ghost use Rattle.gql_scope.specs.declared.insert_maps.MapQuestion.TheVariants.{Repeated};
ghost use Rattle.gql_scope.specs.Machinery.Questions.{map_refusal, first_in_maps};

use crate::misused_clauses::check_map as check_misuse;
use crate::unset_parameters::check_map as check_parameters;
use gql_ast::{InsertPath, InsertStep, Map, MapItem};
use gql_expr_checks::{KnownColumns, ScopeFault, check_properties};
use gql_values3::Params;
use std::alloc::Global;

/// What is asked of each map.
#[derive(Drop)]
pub enum MapQuestion<'a> {
    /// Whether something is misused in its values, under these columns.
    Misuse(&'a KnownColumns),
    /// Whether it names a property twice.
    Repeated,
    /// Whether a parameter of its values isn't set.
    Parameter(&'a Params),
}

/// Gives the question about a map's items.
fn ask(alloc: Global, question: &MapQuestion, items: &[MapItem]) -> Result<(), ScopeFault>
    ensures { Gives result (map_refusal question.now (Some items.now)) }
{
    match question {
        MapQuestion::Misuse(scope) => check_misuse(scope, items),
        MapQuestion::Repeated => check_repeated(alloc, items),
        MapQuestion::Parameter(params) => check_parameters(alloc, params, items),
    }
}

/// Whether a map names a property twice. One of fewer than two items doesn't, and takes no memory.
#[tactic(auto, using(crate::proofs::FewItems::none_twice))]
fn check_repeated(alloc: Global, items: &[MapItem]) -> Result<(), ScopeFault>
    ensures { Gives result (map_refusal Repeated (Some items.now)) }
{
    if items.len() < 2 {
        return Ok(());
    }
    check_properties(alloc, items)
}

/// Checks a map that may be there.
fn check_map(alloc: Global, question: &MapQuestion, map: &Option<Map>) -> Result<(), ScopeFault>
    ensures { Gives result (map_refusal question.now map.now) }
{
    match map {
        None => Ok(()),
        Some(items) => ask(alloc, question, items.as_slice()),
    }
}

/// Checks the map of an edge, and then that of the node to which it leads.
fn check_step(alloc: Global, question: &MapQuestion, step: &InsertStep) -> Result<(), ScopeFault>
    ensures { Gives result (first_in_maps question.now (step_spots step.now)) }
{
    check_map(alloc, question, &step.edge.map)?;
    check_map(alloc, question, &step.node.map)
}

/// Checks the maps of a path's steps.
fn check_steps(
    alloc: Global,
    question: &MapQuestion,
    steps: &[InsertStep],
) -> Result<(), ScopeFault>
    ensures { Gives result (first_in_maps question.now (flat_map step_spots steps.now)) }
{
    for step in steps {
        check_step(alloc, question, step)?;
    }
    Ok(())
}

/// Checks the maps of a path.
fn check_path(alloc: Global, question: &MapQuestion, path: &InsertPath) -> Result<(), ScopeFault>
    ensures { Gives result (first_in_maps question.now (path_spots path.now)) }
{
    check_map(alloc, question, &path.start.map)?;
    check_steps(alloc, question, path.steps.as_slice())
}

/// Checks the maps of an INSERT.
pub fn check_maps(
    alloc: Global,
    question: &MapQuestion,
    paths: &[InsertPath],
) -> Result<(), ScopeFault>
    ensures { Gives result (first_in_maps question.now (insert_spots paths.now)) }
{
    for path in paths {
        check_path(alloc, question, path)?;
    }
    Ok(())
}
