//! What elements keep: properties and labels in order, each name once.

ghost use Rattle.std.specs.Prelude.{◌≡◌, map, length, OnOk};
ghost use Rattle.gql_values3.specs.Meaning.{datum_of};
ghost use Rattle.gql_values3.specs.PropertyGraph.{is_storable};
ghost use Rattle.gql_change.specs.Machinery.Places.{place_in_order, IsWithin};
ghost use Rattle.gql_change.specs.Storing.{put_property, without_property, with_property, put_label, without_label};

use gql_graph::is_property;
use gql_values3::{OutOfMemory, Text, Value};
use std::cmp::Ordering;

/// Whether the value may be stored: no element and no path, alone or inside a list.
pub fn is_storable(value: &Value) -> bool
    ensures { result ≡ is_storable (datum_of value.now) 64 }
{
    value.is_null() || is_property(value)
}

/// Puts the property among the others in order, in the place of one of its name.
pub fn put_property(
    properties: &mut Vec<(Text, Value)>,
    name: Text,
    value: Value,
) -> Result<(), OutOfMemory>
    ensures { OnOk result (map (λ p. (p.0, datum_of p.1)) properties.new.items ≡ put_property name (datum_of value) (map (λ p. (p.0, datum_of p.1)) properties.old.items)) }
{
    match property_place(properties.as_slice(), &name) {
        Ok(place) => {
            properties[place] = (name, value);
            Ok(())
        }
        Err(place) => {
            properties.insert(place, (name, value))?;
            Ok(())
        }
    }
}

/// Takes the property of this name away, if it is there.
pub fn take_property(properties: &mut Vec<(Text, Value)>, name: &str)
    ensures { map (λ p. (p.0, datum_of p.1)) properties.new.items ≡ without_property name.now (map (λ p. (p.0, datum_of p.1)) properties.old.items) }
{
    properties.retain(|pair| name != pair.0.as_str());
}

/// Puts the property among the others; NULL takes it away.
pub fn with_property(
    properties: &mut Vec<(Text, Value)>,
    name: Text,
    value: Value,
) -> Result<(), OutOfMemory>
    ensures { OnOk result (map (λ p. (p.0, datum_of p.1)) properties.new.items ≡ with_property name (datum_of value) (map (λ p. (p.0, datum_of p.1)) properties.old.items)) }
{
    match value {
        Value::Null => {
            take_property(properties, name.as_str());
            Ok(())
        }
        value => put_property(properties, name, value),
    }
}

/// Puts the label among the others in order, unless it is there.
pub fn put_label(labels: &mut Vec<Text>, label: Text) -> Result<(), OutOfMemory>
    ensures { OnOk result (labels.new.items ≡ put_label label labels.old.items) }
{
    match label_place(labels.as_slice(), &label) {
        Ok(_) => Ok(()),
        Err(place) => {
            labels.insert(place, label)?;
            Ok(())
        }
    }
}

/// Takes the label away, if it is there.
pub fn take_label(labels: &mut Vec<Text>, label: &str)
    ensures { labels.new.items ≡ without_label label.now labels.old.items }
{
    labels.retain(|other| label != other.as_str());
}

/// Where the name stands among the properties, or the place before which it belongs.
fn property_place(properties: &[(Text, Value)], name: &Text) -> Result<usize, usize>
    ensures place { result ≡ place_in_order name.now (map (λ p. p.0) properties.now) }
    ensures within { IsWithin result (length properties.now) }
{
    for i in 0..properties.len() {
        match name.cmp(&properties[i].0) {
            Ordering::Less => return Err(i),
            Ordering::Equal => return Ok(i),
            Ordering::Greater => {}
        }
    }
    Err(properties.len())
}

/// Where the label stands among the others, or the place before which it belongs.
fn label_place(labels: &[Text], label: &Text) -> Result<usize, usize>
    ensures place { result ≡ place_in_order label.now labels.now }
    ensures within { IsWithin result (length labels.now) }
{
    for i in 0..labels.len() {
        match label.cmp(&labels[i]) {
            Ordering::Less => return Err(i),
            Ordering::Equal => return Ok(i),
            Ordering::Greater => {}
        }
    }
    Err(labels.len())
}
