//! The results of a group's aggregates.

ghost use Rattle.std.specs.Prelude.{map};
ghost use Rattle.gql_ast.specs.Faults.{each};
ghost use Rattle.gql_eval.specs.Gives.{Gives};
ghost use Rattle.gql_table.specs.Machinery.Running.{finished};
ghost use Rattle.gql_table.specs.Machinery.StandingMeaning.{standing_of};

use crate::running::{Running, finish};
use gql_eval::EvalError;
use gql_values3::Row;
use std::alloc::Global;

/// What comes of each aggregate.
pub fn group_results(alloc: Global, states: &[Running]) -> Result<Row, EvalError>
    ensures { Gives (λ r. r) result (each finished (map standing_of states.now)) }
{
    let mut done = Row::new(alloc);
    for i in 0..states.len() {
        done.push(finish(alloc, &states[i])?)?;
    }
    Ok(done)
}
