//! The kinds of values that a graph type may ask of a property.

ghost use Rattle.std.specs.Prelude.{◌≡◌};
ghost use Rattle.std.specs.List.{list_all};
ghost use Rattle.gql_values3.specs.Meaning.{datum_of};
ghost use Rattle.gql_type.specs.PropertyKinds.{is_scalar, is_item, is_of_kind};

use gql_values3::{PropKind, Scalar, Value};

/// Whether the value is of the kind.
pub fn is_of_kind(kind: PropKind, value: &Value) -> bool
    ensures { result ≡ is_of_kind kind (datum_of value.now) }
{
    match (kind, value) {
        (PropKind::One(scalar), value) => is_scalar(scalar, value),
        (PropKind::Many { item, required }, Value::List(list)) => are_items(
            item,
            required,
            list.as_slice(),
        ),
        (PropKind::Many { .. }, _) => false,
    }
}

fn are_items(scalar: Scalar, required: bool, items: &[Value]) -> bool
    ensures { result ≡ list_all (λ item. is_item scalar required (datum_of item)) items.now }
{
    items.iter().all(|item| is_item(scalar, required, item))
}

fn is_item(scalar: Scalar, required: bool, value: &Value) -> bool
    ensures { result ≡ is_item scalar required (datum_of value.now) }
{
    match value {
        Value::Null => !required,
        value => is_scalar(scalar, value),
    }
}

fn is_scalar(scalar: Scalar, value: &Value) -> bool
    ensures { result ≡ is_scalar scalar (datum_of value.now) }
{
    match (scalar, value) {
        (Scalar::Bool, Value::Bool(_)) => true,
        (Scalar::Int, Value::Int(_)) => true,
        (Scalar::Text, Value::Text(_)) => true,
        (_, _) => false,
    }
}
