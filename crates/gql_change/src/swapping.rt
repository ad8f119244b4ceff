//! The change that gives an element what it has behind some acts.

ghost use Rattle.std.specs.Prelude.{◌≡◌, ◌++◌, ◌∷◌, [], map, OnOk, IsTrue, option_to_list};
ghost use Rattle.gql_values3.specs.Meaning.{datum_of};
ghost use Rattle.gql_values3.specs.PropertyGraph.{is_graph};
ghost use Rattle.gql_change.specs.AssignedGraph.{labels_after, properties_after};
ghost use Rattle.gql_change.specs.Machinery.Swaps.{swap_with, swaps};

use crate::assignment::Act;
use crate::copying::{copy_labels, copy_properties};
use crate::storing::{put_label, take_label, with_property};
use gql_graph::{Change, Changes};
use gql_values3::{
    EdgeRecord, Elem, Names, NodeRecord, OutOfMemory, Properties, Text, Value, View,
};
use std::alloc::Global;

/// Adds the change that puts the acts on the element, in their order. An edge that isn't there has no change.
pub fn push_swap<V: View>(
    alloc: Global,
    view: &V,
    target: Elem,
    acts: Vec<Act>,
    changes: &mut Changes,
) -> Result<(), OutOfMemory>
    requires { IsTrue (is_graph (V.graph view.now)) }
    ensures { OnOk result (changes.new ≡ changes.old ++ swaps (V.graph view.now) target acts.items) }
{
    let mut labels = copy_labels(alloc, view, target)?;
    let mut properties = copy_properties(alloc, view, target)?;
    act_each(&mut labels, &mut properties, acts)?;
    match swap(view, target, labels, properties) {
        Some(change) => changes.push(change),
        None => Ok(()),
    }
}

/// The change that gives the element these labels and properties.
fn swap<V: View>(
    view: &V,
    target: Elem,
    labels: Vec<Text>,
    properties: Vec<(Text, Value)>,
) -> Option<Change>
    ensures { option_to_list result ≡ swap_with (V.graph view.now) target labels.items (map (λ p. (p.0, datum_of p.1)) properties.items) }
{
    let labels = Names::from_vec(labels);
    let properties = Properties::from_vec(properties);
    match target {
        Elem::Node(number) => Some(Change::SwapNode(NodeRecord {
            number,
            labels,
            properties,
        })),
        Elem::Edge(number) => {
            let ends = view.ends(number)?;
            Some(Change::SwapEdge(EdgeRecord {
                number,
                ends,
                labels,
                properties,
            }))
        }
    }
}

/// Puts the acts on the labels and properties of one element, in order.
fn act_each(
    labels: &mut Vec<Text>,
    properties: &mut Vec<(Text, Value)>,
    acts: Vec<Act>,
) -> Result<(), OutOfMemory>
    ensures labels { OnOk result (labels.new.items ≡ labels_after acts.items labels.old.items) }
    ensures properties { OnOk result (map (λ p. (p.0, datum_of p.1)) properties.new.items ≡ properties_after acts.items (map (λ p. (p.0, datum_of p.1)) properties.old.items)) }
{
    for act in acts {
        act_on(labels, properties, act)?;
    }
    Ok(())
}

fn act_on(
    labels: &mut Vec<Text>,
    properties: &mut Vec<(Text, Value)>,
    act: Act,
) -> Result<(), OutOfMemory>
    ensures labels { OnOk result (labels.new.items ≡ labels_after (act ∷ []) labels.old.items) }
    ensures properties { OnOk result (map (λ p. (p.0, datum_of p.1)) properties.new.items ≡ properties_after (act ∷ []) (map (λ p. (p.0, datum_of p.1)) properties.old.items)) }
{
    match act {
        Act::Property(name, value) => with_property(properties, name, value),
        Act::Label(label) => put_label(labels, label),
        Act::NoLabel(label) => {
            take_label(labels, label.as_str());
            Ok(())
        }
    }
}
