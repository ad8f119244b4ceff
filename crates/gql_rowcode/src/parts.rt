//! What stands in keys and values.

ghost use Rattle.gql_fields.specs.Machinery.Reading.{GivesFree, Gives};
ghost use Rattle.gql_rowcode.specs.Machinery.FormReading.{type_name_at, ends_at, ends_between, content_at, name_key_at, element_key_at, graph_value_at, node_value_at, edge_value_at};
ghost use Rattle.std.specs.Prelude.{◌≡◌};

use gql_fields::{Misread, flag_of, label_set_of, properties_of, str_at, text_of, u32_at};
use gql_values3::{Ends, Names, NodeId, Properties, Text};
use std::alloc::Global;

/// The name that is all of a key behind its first byte.
#[tactic(auto, unfolding(crate::specs::Machinery::FormReading::name_key_at))]
pub fn name_key_of(key: &[u8]) -> Result<&str, Misread>
    ensures { GivesFree (λ x. x.now) result (name_key_at key.now) }
{
    let (name, rest) = str_at(key)?;
    if !rest.is_empty() {
        return Err(Misread::NoForm);
    }
    Ok(name)
}

/// The name of a graph and the number of an element that are all of a key behind its first byte.
#[tactic(auto, unfolding(crate::specs::Machinery::FormReading::element_key_at))]
pub fn element_key_of(key: &[u8]) -> Result<(&str, u32), Misread>
    ensures { GivesFree (λ x. (x.0.now, x.1)) result (element_key_at key.now) }
{
    let (name, rest) = str_at(key)?;
    let (number, rest) = u32_at(rest)?;
    if !rest.is_empty() {
        return Err(Misread::NoForm);
    }
    Ok((name, number))
}

/// The name of a graph's type, where it has one, and the numbers of its next node and its next edge.
#[tactic(auto, unfolding(crate::specs::Machinery::FormReading::graph_value_at))]
pub fn graph_value_of(alloc: Global, value: &[u8]) -> Result<((Option<Text>, u32), u32), Misread>
    ensures { Gives (λ x. x) result (graph_value_at value.now) }
{
    let (kind, rest) = type_name_of(alloc, value)?;
    let (next_node, rest) = u32_at(rest)?;
    let (next_edge, rest) = u32_at(rest)?;
    if !rest.is_empty() {
        return Err(Misread::NoForm);
    }
    Ok(((kind, next_node), next_edge))
}

#[tactic(auto, unfolding(crate::specs::Machinery::FormReading::type_name_at))]
fn type_name_of(alloc: Global, bytes: &[u8]) -> Result<(Option<Text>, &[u8]), Misread>
    ensures { Gives (λ x. (x.0, x.1.now)) result (type_name_at bytes.now) }
{
    let (has_type, rest) = flag_of(bytes)?;
    if has_type {
        let (name, rest) = text_of(alloc, rest)?;
        Ok((Some(name), rest))
    } else {
        Ok((None, rest))
    }
}

/// The labels and the properties of a node.
#[tactic(auto, unfolding(crate::specs::Machinery::FormReading::node_value_at))]
pub fn node_value_of(alloc: Global, value: &[u8]) -> Result<(Names, Properties), Misread>
    ensures { Gives (λ x. x) result (node_value_at value.now) }
{
    let (content, rest) = content_of(alloc, value)?;
    if !rest.is_empty() {
        return Err(Misread::NoForm);
    }
    Ok(content)
}

/// The ends of an edge, its labels and its properties.
#[tactic(auto, unfolding(crate::specs::Machinery::FormReading::edge_value_at))]
pub fn edge_value_of(alloc: Global, value: &[u8]) -> Result<(Ends, (Names, Properties)), Misread>
    ensures { Gives (λ x. x) result (edge_value_at value.now) }
{
    let (ends, rest) = ends_of(value)?;
    let (content, rest) = content_of(alloc, rest)?;
    if !rest.is_empty() {
        return Err(Misread::NoForm);
    }
    Ok((ends, content))
}

#[tactic(auto, unfolding(crate::specs::Machinery::FormReading::content_at))]
fn content_of(alloc: Global, bytes: &[u8]) -> Result<((Names, Properties), &[u8]), Misread>
    ensures { Gives (λ x. (x.0, x.1.now)) result (content_at bytes.now) }
{
    let (labels, rest) = label_set_of(alloc, bytes)?;
    let (properties, rest) = properties_of(alloc, rest)?;
    Ok(((labels, properties), rest))
}

#[tactic(auto, unfolding(crate::specs::Machinery::FormReading::ends_at))]
fn ends_of(bytes: &[u8]) -> Result<(Ends, &[u8]), Misread>
    ensures { GivesFree (λ x. (x.0, x.1.now)) result (ends_at bytes.now) }
{
    let (undirected, rest) = flag_of(bytes)?;
    let (first, rest) = u32_at(rest)?;
    let (second, rest) = u32_at(rest)?;
    Ok((ends_between(undirected, first, second), rest))
}

fn ends_between(undirected: bool, first: u32, second: u32) -> Ends
    ensures { result ≡ ends_between undirected first second }
{
    if undirected {
        Ends::Undirected {
            low: NodeId(first),
            high: NodeId(second),
        }
    } else {
        Ends::Directed {
            source: NodeId(first),
            target: NodeId(second),
        }
    }
}
