//! What a new element keeps.

ghost use Rattle.std.specs.Prelude.{◌≡◌, IfOk};
ghost use Rattle.gql_change.specs.Insertion.{labels_given};
ghost use Rattle.gql_change.specs.Storing.{label_set, property_set};

use crate::storing::{put_label, with_property};
use gql_values3::{Names, OutOfMemory, Properties, Text};
use std::alloc::Global;

/// The labels in order, each once.
pub fn label_set(alloc: Global, labels: &Option<Names>) -> Result<Names, OutOfMemory>
    ensures { IfOk result (λ set. set ≡ label_set (labels_given labels.now)) }
{
    match labels {
        None => Ok(Names::new(alloc)),
        Some(labels) => set_of(alloc, labels.as_slice()),
    }
}

fn set_of(alloc: Global, labels: &[Text]) -> Result<Names, OutOfMemory>
    ensures { IfOk result (λ set. set ≡ label_set labels.now) }
{
    let mut set = Vec::with_capacity(alloc, labels.len())?;
    for i in (0..labels.len()).rev() {
        put_label(&mut set, labels[i].try_copy(alloc)?)?;
    }
    Ok(Names::from_vec(set))
}

/// The properties in order by name. NULL makes none.
pub fn property_set(alloc: Global, given: Properties) -> Result<Properties, OutOfMemory>
    ensures { IfOk result (λ set. set ≡ property_set given) }
{
    let mut left = given.into_vec();
    let mut set = Vec::with_capacity(alloc, left.len())?;
    while let Some((name, value)) = left.pop() {
        with_property(&mut set, name, value)?;
    }
    Ok(Properties::from_vec(set))
}
