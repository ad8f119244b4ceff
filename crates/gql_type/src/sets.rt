//! Labels and properties of a type's text, put in order by bytes.

ghost use Rattle.std.specs.Prelude.{◌≡◌, map, IfOk};
ghost use Rattle.gql_eval.specs.StableSort.{stably_sorted};
ghost use Rattle.gql_type.specs.BodyMeaning.{label_set, labels_meant, property_type, name_before, properties_meant};

use gql_ast::TypeProperty;
use gql_graph::{PropType, PropTypes};
use gql_values3::{Names, OutOfMemory, Sequence, Text};
use std::alloc::Global;

/// The labels in order, each once.
pub fn labels_meant(alloc: Global, labels: &Option<Names>) -> Result<Names, OutOfMemory>
    ensures { IfOk result (λ set. set ≡ labels_meant labels.now) }
{
    match labels {
        None => Ok(Names::new(alloc)),
        Some(labels) => label_set(alloc, labels.as_slice()),
    }
}

fn label_set(alloc: Global, labels: &[Text]) -> Result<Names, OutOfMemory>
    ensures { IfOk result (λ set. set ≡ label_set labels.now) }
{
    let mut set = copied_names(alloc, labels)?;
    set.sort_by(|a, b| a.cmp(b))?;
    set.dedup_by(|a, b| a.as_str() == b.as_str());
    Ok(Names::from_vec(set))
}

fn copied_names(alloc: Global, names: &[Text]) -> Result<Vec<Text>, OutOfMemory>
    ensures { IfOk result (λ copies. copies.items ≡ names.now) }
{
    let mut copies = Vec::with_capacity(alloc, names.len())?;
    for name in names {
        copies.push(name.try_copy(alloc)?)?;
    }
    Ok(copies)
}

/// The properties in order by name.
pub fn properties_meant(
    alloc: Global,
    properties: &Option<Sequence<TypeProperty>>,
) -> Result<PropTypes, OutOfMemory>
    ensures { IfOk result (λ kinds. kinds ≡ properties_meant properties.now) }
{
    match properties {
        None => Ok(PropTypes::new(alloc)),
        Some(properties) => in_order(alloc, properties.as_slice()),
    }
}

fn in_order(alloc: Global, properties: &[TypeProperty]) -> Result<PropTypes, OutOfMemory>
    ensures { IfOk result (λ kinds. kinds ≡ stably_sorted name_before (map property_type properties.now)) }
{
    let mut kinds = property_types(alloc, properties)?;
    kinds.sort_by(|a, b| a.name.cmp(&b.name))?;
    Ok(PropTypes::from_vec(kinds))
}

fn property_types(alloc: Global, properties: &[TypeProperty]) -> Result<Vec<PropType>, OutOfMemory>
    ensures { IfOk result (λ kinds. kinds.items ≡ map property_type properties.now) }
{
    let mut kinds = Vec::with_capacity(alloc, properties.len())?;
    for property in properties {
        kinds.push(property_type(alloc, property)?)?;
    }
    Ok(kinds)
}

fn property_type(alloc: Global, property: &TypeProperty) -> Result<PropType, OutOfMemory>
    ensures { IfOk result (λ kind. kind ≡ property_type property.now) }
{
    Ok(PropType {
        name: property.name.try_copy(alloc)?,
        kind: property.kind,
        required: property.required,
    })
}
