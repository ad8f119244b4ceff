//! The labels and properties of an element, beside those of a type. Both are in order, so one walk over them is enough.

ghost use Rattle.std.specs.Prelude.{◌≡◌, map};
ghost use Rattle.gql_values3.specs.Meaning.{datum_of};
ghost use Rattle.gql_type.specs.Machinery.InOrder.{same_names, are_matched, matches_content, matches_node_type};

use crate::kinds::is_of_kind;
use gql_graph::{NodeType, PropType};
use gql_values3::{Names, NodeRecord, Properties, Text, Value};

/// Whether the node has what the node type asks for.
pub fn fits_node_type(node: &NodeRecord, kind: &NodeType) -> bool
    ensures { result ≡ matches_node_type node.now kind.now }
{
    has_content(
        &kind.labels,
        kind.body.as_slice(),
        &node.labels,
        &node.properties,
    )
}

/// Whether the labels are exactly the type's, and the properties are those that the type allows and asks for.
pub fn has_content(
    labels: &Names,
    body: &[PropType],
    own_labels: &Names,
    properties: &Properties,
) -> bool
    ensures { result ≡ matches_content labels.now body.now own_labels.now properties.now }
{
    same_names(own_labels.as_slice(), labels.as_slice()) && are_matched(body, properties.as_slice())
}

fn same_names(names: &[Text], others: &[Text]) -> bool
    ensures { result ≡ same_names names.now others.now }
{
    if names.len() != others.len() {
        return false;
    }
    for i in 0..names.len() {
        if names[i].as_str() != others[i].as_str() {
            return false;
        }
    }
    true
}

fn are_matched(body: &[PropType], properties: &[(Text, Value)]) -> bool
    ensures { result ≡ are_matched body.now (map (λ p. (p.0, datum_of p.1)) properties.now) }
{
    let mut rest = properties;
    for kind in body {
        match rest.split_first() {
            Some((property, behind)) if kind.name.as_str() == property.0.as_str() => {
                if !is_of_kind(kind.kind, &property.1) {
                    return false;
                }
                rest = behind;
            }
            _ => {
                if kind.required {
                    return false;
                }
            }
        }
    }
    rest.is_empty()
}
