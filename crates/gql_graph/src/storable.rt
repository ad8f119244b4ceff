//! Which values may stand in a property, and which property maps an element may have.

ghost use Rattle.std.specs.Prelude.{◌≡◌, map};
ghost use Rattle.std.specs.List.{list_all};
ghost use Rattle.gql_values3.specs.Datum.{data_of};
ghost use Rattle.gql_values3.specs.Meaning.{datum_of};
ghost use Rattle.gql_values3.specs.PropertyGraph.{is_storable, are_storable, is_property, are_properties};
ghost use Rattle.gql_values3.specs.Integers.{is_int64};

use gql_values3::{Properties, Text, Value, keys_ascend};

/// Whether these are the properties of an element: names in order, and each value one that may be kept.
pub fn properties_fit(properties: &Properties) -> bool
    ensures { result ≡ are_properties properties.now }
{
    let items = properties.as_slice();
    keys_ascend(items) && values_fit(items)
}

fn values_fit(properties: &[(Text, Value)]) -> bool
    ensures { result ≡ list_all (λ p. is_property (datum_of p.1)) properties.now }
{
    properties.iter().all(|p| is_property(&p.1))
}

/// Whether the value may be that of a property.
pub fn is_property(value: &Value) -> bool
    ensures { result ≡ is_property (datum_of value.now) }
{
    match value {
        Value::Null => false,
        _ => is_storable(value, 64),
    }
}

#[cycle(storable)]
fn is_storable(value: &Value, depth: u8) -> bool
    ensures { result ≡ is_storable (datum_of value.now) depth }
{
    match value {
        Value::Null | Value::Bool(_) | Value::Text(_) => true,
        Value::Int(number) => is_number(*number),
        Value::List(list) => depth > 0 && are_storable(list.as_slice(), depth - 1),
        Value::Node(_) | Value::Edge(_) | Value::Path(_) => false,
    }
}

#[cycle(storable)]
fn are_storable(values: &[Value], depth: u8) -> bool
    ensures { result ≡ are_storable (data_of (map datum_of values.now)) depth }
{
    for value in values {
        if !is_storable(value, depth) {
            return false;
        }
    }
    true
}

// Every i64 is an integer of 64 bits; the proof reads this off its type.
fn is_number(number: i64) -> bool
    ensures { result ≡ is_int64 number }
{
    let _number = number;
    true
}
