//! Aggregates of values.

ghost use Rattle.std.specs.Prelude.{◌≡◌, ◌∷◌, map, filter, not, IfOk, List as ListOf};
ghost use Rattle.gql_values3.specs.Meaning.{datum_of};
ghost use Rattle.gql_values3.specs.Datum.{is_null};
ghost use Rattle.gql_ast.specs.Aggregates.{considered, distinct, aggregated, addend, summed, least, greatest};
ghost use Rattle.gql_values3.specs.Datum.{Datum};
ghost use Rattle.gql_eval.specs.Extremes.{IsLeast, IsGreatest};
ghost use Rattle.gql_eval.specs.Machinery.Furthest.{further, furthest_of, extreme_of};
ghost use Rattle.gql_eval.specs.Machinery.Kept.{kept};
ghost use Rattle.gql_eval.specs.Machinery.WholeSum.{total_of};
ghost use Rattle.gql_eval.specs.Gives.{Gives, GivesExactly};

use crate::arithmetic::count_value;
use crate::distinct::distinct_values;
use crate::error::EvalError;
use crate::making::list_value;
use gql_ast::{Aggregate, DataFault, SetQuantifier};
use gql_values3::{List, OutOfMemory, Value, total_cmp};
use std::alloc::Global;

/// The aggregate of these values. NULL is skipped, and DISTINCT drops equal values first, by n log n comparisons. No
/// value is copied but the answer's.
#[tactic(auto, using(crate::proofs::AggregateLemmas::considered_kept))]
pub fn aggregate(
    alloc: Global,
    word: Aggregate,
    quantifier: SetQuantifier,
    values: &[Value],
) -> Result<Value, EvalError>
    ensures { Gives datum_of result (aggregated word (considered quantifier (map datum_of values.now))) }
{
    let present = present_values(alloc, values)?;
    aggregate_present(alloc, word, quantifier, present.as_slice())
}

/// The same of values that stand elsewhere.
#[tactic(auto, using(crate::proofs::AggregateLemmas::considered_kept))]
pub fn aggregate_of(
    alloc: Global,
    word: Aggregate,
    quantifier: SetQuantifier,
    values: &[&Value],
) -> Result<Value, EvalError>
    ensures { Gives datum_of result (aggregated word (considered quantifier (map (λ v. datum_of v.now) values.now))) }
{
    let present = present_among(alloc, values)?;
    aggregate_present(alloc, word, quantifier, present.as_slice())
}

/// A law of the definition, for all data: MIN is one of them, and none is less in the total order; MAX is one of them,
/// and none is greater.
pub fn extremes_of_values()
    ensures least { (d : Datum) (ds : ListOf Datum) → IsLeast (least (d ∷ ds)) (d ∷ ds) }
    ensures greatest { (d : Datum) (ds : ListOf Datum) → IsGreatest (greatest (d ∷ ds)) (d ∷ ds) }
{}

/// The aggregate of values of which none is NULL.
fn aggregate_present(
    alloc: Global,
    word: Aggregate,
    quantifier: SetQuantifier,
    present: &[&Value],
) -> Result<Value, EvalError>
    ensures { Gives datum_of result (aggregated word (kept quantifier (map (λ v. datum_of v.now) present.now))) }
{
    match quantifier {
        SetQuantifier::All => aggregate_left(alloc, word, present),
        SetQuantifier::Distinct => {
            let left = distinct_values(alloc, present)?;
            aggregate_left(alloc, word, left.as_slice())
        }
    }
}

/// The aggregate of the values that are left.
fn aggregate_left(alloc: Global, word: Aggregate, values: &[&Value]) -> Result<Value, EvalError>
    ensures { Gives datum_of result (aggregated word (map (λ v. datum_of v.now) values.now)) }
{
    match word {
        Aggregate::Count => Ok(count_value(values.len())?),
        Aggregate::Sum => Ok(sum(values)?),
        Aggregate::Min => Ok(extreme_value(alloc, Extreme::Least, values)?),
        Aggregate::Max => Ok(extreme_value(alloc, Extreme::Greatest, values)?),
        Aggregate::CollectList => Ok(list_value(copies(alloc, values)?)?),
    }
}

/// The values that are not NULL.
fn present_values<'a>(alloc: Global, values: &'a [Value]) -> Result<Vec<&'a Value>, OutOfMemory>
    ensures { IfOk result (λ left. map (λ v. datum_of v.now) left.items ≡ filter (λ d. not (is_null d)) (map datum_of values.now)) }
{
    let mut left = Vec::new(alloc);
    for i in 0..values.len() {
        let value = &values[i];
        if !value.is_null() {
            left.push(value)?;
        }
    }
    Ok(left)
}

fn present_among<'a>(alloc: Global, values: &[&'a Value]) -> Result<Vec<&'a Value>, OutOfMemory>
    ensures { IfOk result (λ left. map (λ v. datum_of v.now) left.items ≡ filter (λ d. not (is_null d)) (map (λ v. datum_of v.now) values.now)) }
{
    let mut left = Vec::new(alloc);
    for i in 0..values.len() {
        let value = values[i];
        if !value.is_null() {
            left.push(value)?;
        }
    }
    Ok(left)
}

/// SUM. What counts is whether the whole sum fits, so it is taken in 128 bits.
#[tactic(auto, using(crate::proofs::AggregateLemmas::summed_whole))]
fn sum(values: &[&Value]) -> Result<Value, DataFault>
    ensures { GivesExactly datum_of result (summed (map (λ v. datum_of v.now) values.now)) }
{
    match values {
        [] => Ok(Value::Null),
        [_, ..] => {
            let whole = whole_sum(values)?;
            match i64::try_from(whole) {
                Ok(number) => Ok(Value::Int(number)),
                Err(_) => Err(DataFault::Overflow),
            }
        }
    }
}

/// The sum of one value at least, without a limit.
fn whole_sum(values: &[&Value]) -> Result<i128, DataFault>
    ensures { GivesExactly (λ z. z) result (total_of (map (λ v. datum_of v.now) values.now)) }
{
    let mut whole: i128 = 0;
    for i in 0..values.len() {
        let value = values[i];
        whole += i128::from(addend_of(value)?);
    }
    Ok(whole)
}

fn addend_of(value: &Value) -> Result<i64, DataFault>
    ensures { GivesExactly (λ z. z) result (addend (datum_of value.now)) }
{
    match value {
        Value::Int(number) => Ok(*number),
        _ => Err(DataFault::WrongKind),
    }
}

/// Which end of the total order is asked for.
#[derive(Clone, Copy)]
enum Extreme {
    Least,
    Greatest,
}

/// The value at that end, or NULL of nothing.
fn extreme_value(alloc: Global, extreme: Extreme, values: &[&Value]) -> Result<Value, OutOfMemory>
    ensures { IfOk result (λ value. datum_of value ≡ extreme_of extreme (map (λ v. datum_of v.now) values.now)) }
{
    match values {
        [] => Ok(Value::Null),
        [first, rest @ ..] => furthest_among(extreme, *first, rest).try_copy(alloc),
    }
}

/// The first of those that are furthest towards that end.
fn furthest_among<'a>(extreme: Extreme, first: &'a Value, rest: &[&'a Value]) -> &'a Value
    ensures { datum_of result.now ≡ furthest_of extreme (datum_of first.now) (map (λ v. datum_of v.now) rest.now) }
{
    let mut best = first;
    for i in 0..rest.len() {
        best = further_value(extreme, best, rest[i]);
    }
    best
}

/// The further of two; the first where they are equal.
fn further_value<'a>(extreme: Extreme, a: &'a Value, b: &'a Value) -> &'a Value
    ensures { datum_of result.now ≡ further extreme (datum_of a.now) (datum_of b.now) }
{
    let order = total_cmp(b, a);
    match extreme {
        Extreme::Least => { if order.is_lt() { b } else { a } }
        Extreme::Greatest => { if order.is_gt() { b } else { a } }
    }
}

fn copies(alloc: Global, values: &[&Value]) -> Result<List, OutOfMemory>
    ensures { IfOk result (λ items. items ≡ map (λ v. datum_of v.now) values.now) }
{
    let mut items = List::new(alloc);
    for i in 0..values.len() {
        let value = values[i];
        items.push(value.try_copy(alloc)?)?;
    }
    Ok(items)
}
