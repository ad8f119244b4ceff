//! The labels and properties of an element, copied from the graph.

ghost use Rattle.std.specs.Prelude.{◌≡◌, map, IfOk, IsTrue};
ghost use Rattle.gql_values3.specs.Meaning.{datum_of};
ghost use Rattle.gql_values3.specs.PropertyGraph.{is_graph};
ghost use Rattle.gql_values3.specs.Lookup.{labels_of, properties_of, property_of};
ghost use Rattle.gql_values3.specs.Datum.{or_null};

use gql_values3::{Elem, OutOfMemory, Text, Value, View};
use std::alloc::Global;

/// The labels, in order. An element that isn't there has none.
pub fn copy_labels<V: View>(alloc: Global, view: &V, elem: Elem) -> Result<Vec<Text>, OutOfMemory>
    ensures { IfOk result (λ labels. labels.items ≡ labels_of (V.graph view.now) elem) }
{
    let mut labels: Vec<Text> = Vec::new(alloc);
    while let Some(label) = view.label_at(elem, labels.len() as u64) {
        labels.push(label.try_copy(alloc)?)?;
    }
    Ok(labels)
}

/// The names and values of the properties, in order. An element that isn't there has none.
pub fn copy_properties<V: View>(
    alloc: Global,
    view: &V,
    elem: Elem,
) -> Result<Vec<(Text, Value)>, OutOfMemory>
    requires { IsTrue (is_graph (V.graph view.now)) }
    ensures { IfOk result (λ ps. map (λ p. (p.0, datum_of p.1)) ps.items ≡ properties_of (V.graph view.now) elem) }
{
    let mut properties: Vec<(Text, Value)> = Vec::new(alloc);
    while let Some(name) = view.name_at(elem, properties.len() as u64) {
        let value = copy_value(alloc, view, elem, name)?;
        properties.push((name.try_copy(alloc)?, value))?;
    }
    Ok(properties)
}

/// The value of a property; one that isn't there is NULL.
fn copy_value<V: View>(
    alloc: Global,
    view: &V,
    elem: Elem,
    name: &Text,
) -> Result<Value, OutOfMemory>
    ensures { IfOk result (λ value. datum_of value ≡ or_null (property_of (V.graph view.now) elem name.now)) }
{
    match view.property(elem, name.as_str()) {
        Some(value) => value.try_copy(alloc),
        None => Ok(Value::Null),
    }
}
