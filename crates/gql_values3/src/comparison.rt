//! The signs of comparison, and the truth of a comparison of two values.

ghost use Rattle.std.specs.Prelude.{◌≡◌, map, length, Bool, MatchResult, Some, None};
ghost use Rattle.std.specs.Option.{option_map_or};
ghost use Rattle.std.specs.declared.cmp.Ordering.{Ordering};
ghost use Rattle.std.specs.Result.{result_ok};
ghost use Rattle.gql_values3.specs.Datum.{data_of};
ghost use Rattle.gql_values3.specs.Meaning.{datum_of};
ghost use Rattle.gql_values3.specs.Truth.{truth_of};
ghost use Rattle.gql_values3.specs.Comparison.{compared, equality, items_equality, ordered};

use crate::order::{kind, total_cmp};
use crate::truth::{Truth, and3, not3, truth_from};
use crate::value::Value;
use std::cmp::Ordering;

/// The signs of comparison: `=`, `<>`, `<`, `>`, `<=`, `>=`.
#[derive(Clone, Copy, Debug, PartialEq, Eq)]
pub enum Comparison {
    Eq,
    Ne,
    Lt,
    Gt,
    Le,
    Ge,
}

/// The two values are of kinds that the comparison does not take.
#[derive(Clone, Copy, Debug, PartialEq, Eq)]
pub struct NotComparable;

/// The truth of a comparison; refused exactly where the two are not comparable. It takes no memory.
pub fn compare3(op: Comparison, a: &Value, b: &Value) -> Result<Truth, NotComparable>
    ensures { result_ok result ≡ compared op (datum_of a.now) (datum_of b.now) }
{
    match op {
        Comparison::Eq => equal3(a, b),
        Comparison::Ne => match equal3(a, b) {
            Ok(truth) => Ok(not3(truth)),
            Err(fault) => Err(fault),
        },
        Comparison::Lt => match ordering(a, b)? {
            None => Ok(Truth::Unknown),
            Some(order) => Ok(truth_from(order.is_lt())),
        },
        Comparison::Gt => match ordering(a, b)? {
            None => Ok(Truth::Unknown),
            Some(order) => Ok(truth_from(order.is_gt())),
        },
        Comparison::Le => match ordering(a, b)? {
            None => Ok(Truth::Unknown),
            Some(order) => Ok(truth_from(order.is_le())),
        },
        Comparison::Ge => match ordering(a, b)? {
            None => Ok(Truth::Unknown),
            Some(order) => Ok(truth_from(order.is_ge())),
        },
    }
}

/// The order of two values of one kind that has one, or none where a side is null.
fn ordering(a: &Value, b: &Value) -> Result<Option<Ordering>, NotComparable>
    ensures { MatchResult result
        (λ order. (test : Ordering → Bool) → ordered test (datum_of a.now) (datum_of b.now) ≡ Some (option_map_or (λ o. truth_of (test o)) order Truth.Unknown))
        (λ _. (test : Ordering → Bool) → ordered test (datum_of a.now) (datum_of b.now) ≡ None) }
{
    match (a, b) {
        (Value::Null, _) | (_, Value::Null) => Ok(None),
        (Value::Bool(_), Value::Bool(_))
        | (Value::Int(_), Value::Int(_))
        | (Value::Text(_), Value::Text(_)) => Ok(Some(total_cmp(a, b))),
        _ => Err(NotComparable),
    }
}

/// `=`, whose negation `<>` is.
#[cycle(equal)]
fn equal3(a: &Value, b: &Value) -> Result<Truth, NotComparable>
    ensures { result_ok result ≡ equality (datum_of a.now) (datum_of b.now) }
{
    match (a, b) {
        (Value::Null, _) | (_, Value::Null) => Ok(Truth::Unknown),
        (Value::List(a), Value::List(b)) => {
            if a.len() != b.len() {
                return Ok(Truth::False);
            }
            items_equal3(a.as_slice(), b.as_slice())
        }
        _ => {
            if kind(a) != kind(b) {
                return Err(NotComparable);
            }
            Ok(truth_from(total_cmp(a, b).is_eq()))
        }
    }
}

/// The conjunction over the pairs of two lists of one length.
#[cycle(equal)]
fn items_equal3(a: &[Value], b: &[Value]) -> Result<Truth, NotComparable>
    requires { length a.now ≡ length b.now }
    ensures { result_ok result ≡ items_equality (data_of (map datum_of a.now)) (data_of (map datum_of b.now)) }
{
    let mut all = Truth::True;
    for i in 0..a.len() {
        all = and3(all, equal3(&a[i], &b[i])?);
    }
    Ok(all)
}
