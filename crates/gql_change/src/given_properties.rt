//! The properties that a row gives a new element.

ghost use Rattle.std.specs.Prelude.{◌≡◌, [], IfOk};
ghost use Rattle.gql_values3.specs.Meaning.{datum_of};
ghost use Rattle.gql_ast.specs.Faults.{each};
ghost use Rattle.gql_eval.specs.Gives.{Gives};
ghost use Rattle.gql_change.specs.Machinery.InRow.{property_in};
ghost use Rattle.gql_change.specs.Machinery.Roles.{pair_of};
ghost use Rattle.gql_change.specs.Storing.{stored};

use crate::prepared_property::{PreparedProperty, value_in};
use crate::storing::is_storable;
use gql_ast::DataFault;
use gql_eval::EvalError;
use gql_values3::{OutOfMemory, Properties, Row, Sequence, Text, Value, View};
use std::alloc::Global;

/// The properties with their values in a row, in the order of the text; NULL is among them.
pub fn given_properties<V: View>(
    alloc: Global,
    view: &V,
    row: &Row,
    properties: &[PreparedProperty],
) -> Result<Properties, EvalError>
    ensures { Gives (λ ps. ps) result (each (λ p. property_in p (V.graph view.now) row.now) properties.now) }
{
    let mut given = none_given(alloc, properties.len())?;
    for i in 0..properties.len() {
        let pair = property_in(alloc, view, row, &properties[i])?;
        given.push(pair)?;
    }
    Ok(Properties::from_vec(given.into_vec()))
}

/// None, with room for so many.
fn none_given(alloc: Global, count: usize) -> Result<Sequence<(Text, Value)>, OutOfMemory>
    ensures { IfOk result (λ given. given ≡ []) }
{
    Ok(Sequence::from_vec(Vec::with_capacity(alloc, count)?))
}

fn property_in<V: View>(
    alloc: Global,
    view: &V,
    row: &Row,
    property: &PreparedProperty,
) -> Result<(Text, Value), EvalError>
    ensures { Gives pair_of result (property_in property.now (V.graph view.now) row.now) }
{
    let value = stored(value_in(alloc, view, row, property)?)?;
    Ok((property.name.try_copy(alloc)?, value))
}

/// The value, if an element may keep it, or it is NULL.
fn stored(value: Value) -> Result<Value, EvalError>
    ensures { Gives datum_of result (stored (datum_of value)) }
{
    if is_storable(&value) {
        Ok(value)
    } else {
        Err(EvalError::Fault(DataFault::WrongKind))
    }
}
