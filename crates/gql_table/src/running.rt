//! What the aggregates of a group have come to, in place of all arguments.

ghost use Rattle.std.specs.Prelude.{◌≡◌, Some, map, IfOk, OnOk};
ghost use Rattle.gql_values3.specs.Meaning.{datum_of};
ghost use Rattle.gql_ast.specs.Aggregates.{considered, aggregated};
ghost use Rattle.gql_eval.specs.Gives.{Gives};
ghost use Rattle.gql_table.specs.Machinery.AggregateMeaning.{aggregate_meant};
ghost use Rattle.gql_table.specs.Machinery.Running.{at_start, is_lower, is_higher, lower_of, higher_of, best_of, onward, past, finished, row_past};
ghost use Rattle.gql_table.specs.Machinery.StandingMeaning.{datum_in, standing_of};

use crate::row_aggregates::AggregateRef;
use crate::sorting::value_at;
use crate::sums::{SumSoFar, count_of_one_more, sum_of_both, sum_value};
use gql_ast::{Aggregate, SetQuantifier};
use gql_eval::{EvalError, aggregate_of, count_value};
use gql_values3::{List, OutOfMemory, Value, total_cmp};
use std::alloc::Global;

/// What an aggregate has come to. Its meaning is `standing_of`.
#[derive(Drop)]
pub enum Running {
    /// COUNT: how many values there were.
    Count(usize),
    Sum(SumSoFar),
    /// MIN: the least value, once there is one.
    Least(Option<Value>),
    /// MAX: the greatest value, once there is one.
    Greatest(Option<Value>),
    /// An aggregate that needs the whole list of values.
    Listed(Aggregate, SetQuantifier, List),
}

/// The aggregate over no values.
pub fn begin(alloc: Global, aggregate: AggregateRef) -> Running
    ensures { standing_of result ≡ at_start (aggregate_meant aggregate.entry) }
{
    match aggregate.quantifier {
        SetQuantifier::Distinct => {
            Running::Listed(aggregate.makes, SetQuantifier::Distinct, List::new(alloc))
        }
        SetQuantifier::All => match aggregate.makes {
            Aggregate::Count => Running::Count(0),
            Aggregate::Sum => Running::Sum(SumSoFar::Nothing),
            Aggregate::Min => Running::Least(None),
            Aggregate::Max => Running::Greatest(None),
            Aggregate::CollectList => {
                Running::Listed(Aggregate::CollectList, SetQuantifier::All, List::new(alloc))
            }
        },
    }
}

/// The aggregates go on, each by its argument in a row.
pub fn go_on_by_row(
    alloc: Global,
    states: &mut Vec<Running>,
    row: &[Value],
) -> Result<(), OutOfMemory>
    ensures { OnOk result (map standing_of states.new.items ≡ row_past (map standing_of states.old.items) (map datum_of row.now)) }
{
    let none = Value::Null;
    for i in 0..states.len() {
        go_on(alloc, &mut states[i], value_at(row, i, &none))?;
    }
    Ok(())
}

/// The aggregate goes on by one value. NULL counts in none.
fn go_on(alloc: Global, running: &mut Running, value: &Value) -> Result<(), OutOfMemory>
    ensures { OnOk result (standing_of running.new ≡ past (standing_of running.old) (datum_of value.now)) }
{
    if value.is_null() {
        return Ok(());
    }
    go_on_by_value(alloc, running, value)
}

fn go_on_by_value(alloc: Global, running: &mut Running, value: &Value) -> Result<(), OutOfMemory>
    ensures { OnOk result (standing_of running.new ≡ onward (standing_of running.old) (datum_of value.now)) }
{
    match running {
        Running::Count(count) => {
            *running = Running::Count(count_of_one_more(*count)?);
            Ok(())
        }
        Running::Sum(sum) => {
            *running = Running::Sum(sum_of_both(*sum, value)?);
            Ok(())
        }
        Running::Least(best) => take_least(alloc, best, value),
        Running::Greatest(best) => take_greatest(alloc, best, value),
        Running::Listed(_, _, values) => {
            values.push(value.try_copy(alloc)?)?;
            Ok(())
        }
    }
}

#[tactic(auto, using(crate::proofs::RunningLemmas::lower_taken, crate::proofs::RunningLemmas::lower_left))]
fn take_least(alloc: Global, best: &mut Option<Value>, value: &Value) -> Result<(), OutOfMemory>
    ensures { OnOk result (datum_in best.new ≡ Some (lower_of (datum_in best.old) (datum_of value.now))) }
{
    if is_least(best, value) {
        *best = Some(value.try_copy(alloc)?);
    }
    Ok(())
}

#[tactic(auto, using(crate::proofs::RunningLemmas::higher_taken, crate::proofs::RunningLemmas::higher_left))]
fn take_greatest(alloc: Global, best: &mut Option<Value>, value: &Value) -> Result<(), OutOfMemory>
    ensures { OnOk result (datum_in best.new ≡ Some (higher_of (datum_in best.old) (datum_of value.now))) }
{
    if is_greatest(best, value) {
        *best = Some(value.try_copy(alloc)?);
    }
    Ok(())
}

/// Whether the value is less than the least so far.
fn is_least(best: &Option<Value>, value: &Value) -> bool
    ensures { result ≡ is_lower (datum_in best.now) (datum_of value.now) }
{
    match best {
        None => true,
        Some(best) => total_cmp(value, best).is_lt(),
    }
}

/// Whether the value is greater than the greatest so far.
fn is_greatest(best: &Option<Value>, value: &Value) -> bool
    ensures { result ≡ is_higher (datum_in best.now) (datum_of value.now) }
{
    match best {
        None => true,
        Some(best) => total_cmp(value, best).is_gt(),
    }
}

/// What comes of the aggregate.
pub fn finish(alloc: Global, running: &Running) -> Result<Value, EvalError>
    ensures { Gives datum_of result (finished (standing_of running.now)) }
{
    match running {
        Running::Count(count) => Ok(count_value(*count)?),
        Running::Sum(sum) => Ok(sum_value(*sum)?),
        Running::Least(best) => Ok(best_value(alloc, best)?),
        Running::Greatest(best) => Ok(best_value(alloc, best)?),
        Running::Listed(makes, quantifier, values) => {
            listed_value(alloc, *makes, *quantifier, values.as_slice())
        }
    }
}

fn best_value(alloc: Global, best: &Option<Value>) -> Result<Value, OutOfMemory>
    ensures { IfOk result (λ value. datum_of value ≡ best_of (datum_in best.now)) }
{
    match best {
        None => Ok(Value::Null),
        Some(best) => best.try_copy(alloc),
    }
}

fn listed_value(
    alloc: Global,
    makes: Aggregate,
    quantifier: SetQuantifier,
    values: &[Value],
) -> Result<Value, EvalError>
    ensures { Gives datum_of result (aggregated makes (considered quantifier (map datum_of values.now))) }
{
    let references = references(alloc, values)?;
    aggregate_of(alloc, makes, quantifier, references.as_slice())
}

fn references<'a>(alloc: Global, values: &'a [Value]) -> Result<Vec<&'a Value>, OutOfMemory>
    ensures { IfOk result (λ all. map (λ v. datum_of v.now) all.items ≡ map datum_of values.now) }
{
    let mut all = Vec::new(alloc);
    for i in 0..values.len() {
        all.push(&values[i])?;
    }
    Ok(all)
}
