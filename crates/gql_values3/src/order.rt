//! The total order of all values, by which rows are sorted and equal ones are found.

ghost use Rattle.std.specs.Prelude.{◌≡◌, map};
ghost use Rattle.std.specs.Cmp.{IsTotalOrder};
ghost use Rattle.std.specs.declared.cmp.Ordering.TheVariants.{Equal};
ghost use Rattle.std.specs.Cmp.Lexicographic.{slice_cmp};
ghost use Rattle.gql_values3.specs.Datum.{Datum};
ghost use Rattle.gql_values3.specs.ValueOrder.{datum_cmp, rank};
ghost use Rattle.gql_values3.specs.Meaning.{datum_of};

use crate::value::Value;
use std::cmp::Ordering;

/// The total order of all values: by kinds first (booleans, integers, texts, lists, nodes, edges, paths, NULL), and
/// then by contents. Two values are the same exactly where it answers Equal. It takes no memory.
#[cycle(total)]
pub fn total_cmp(a: &Value, b: &Value) -> Ordering
    ensures { result ≡ datum_cmp (datum_of a.now) (datum_of b.now) }
{
    match (a, b) {
        (Value::Bool(a), Value::Bool(b)) => a.cmp(b),
        (Value::Int(a), Value::Int(b)) => a.cmp(b),
        (Value::Text(a), Value::Text(b)) => a.cmp(b),
        (Value::List(a), Value::List(b)) => items_cmp(a.as_slice(), b.as_slice()),
        (Value::Node(a), Value::Node(b)) => a.cmp(b),
        (Value::Edge(a), Value::Edge(b)) => a.cmp(b),
        (Value::Path(a), Value::Path(b)) => a.cmp(b),
        (Value::Null, Value::Null) => Ordering::Equal,
        _ => kind(a).cmp(&kind(b)),
    }
}

/// Lists of values, item by item in the total order; a list that is a beginning of another is less. It takes no memory.
#[cycle(total)]
pub fn items_cmp(a: &[Value], b: &[Value]) -> Ordering
    ensures { result ≡ slice_cmp datum_cmp (map datum_of a.now) (map datum_of b.now) }
{
    for i in 0..a.len().min(b.len()) {
        let order = total_cmp(&a[i], &b[i]);
        if order != Ordering::Equal {
            return order;
        }
    }
    a.len().cmp(&b.len())
}

/// The place of the value's kind among the kinds.
pub fn kind(value: &Value) -> u8
    ensures { result ≡ rank (datum_of value.now) }
{
    match value {
        Value::Bool(_) => 0,
        Value::Int(_) => 1,
        Value::Text(_) => 2,
        Value::List(_) => 3,
        Value::Node(_) => 4,
        Value::Edge(_) => 5,
        Value::Path(_) => 6,
        Value::Null => 7,
    }
}

/// A law of the definition, for every two data: the order is total, and what it does not tell apart is the same.
pub fn total_order()
    ensures total { IsTotalOrder datum_cmp }
    ensures exact { (a : Datum) (b : Datum) → datum_cmp a b ≡ Equal → a ≡ b }
{}
