//! The records of nodes and edges.

ghost use Rattle.std.specs.Prelude.{◌≡◌, ◌∷◌, ◌++◌, ◌<◌, ◌^◌, IfOk, OnOk, IsTrue};
ghost use Rattle.std.specs.Int.{w32, to_be_bytes};
ghost use Rattle.gql_values3.specs.Texts.{texts_ascend};
ghost use Rattle.gql_values3.specs.PropertyGraph.{are_properties};
ghost use Rattle.gql_fields.specs.Spelling.{content_spelled};
ghost use Rattle.gql_fields.specs.Kept.{IsKeptContent};
ghost use Rattle.gql_rowcode.specs.Records.{node, edge, ends_spelled, AreKeptEnds, Says};

use crate::writing_keys::{edge_key, node_key, with_room};
use gql_fields::{put_labels, put_properties, put_u32};
use gql_ports::Record;
use gql_values3::{Bytes, EdgeRecord, Ends, Names, NodeRecord, OutOfMemory, Properties};
use std::alloc::Global;

/// The record of a node of the graph of this name.
pub fn node_record(alloc: Global, name: &str, element: &NodeRecord) -> Result<Record, OutOfMemory>
    requires labels { IsTrue (texts_ascend element.now.labels) }
    requires properties { IsTrue (are_properties element.now.properties) }
    ensures { IfOk result (Says (node name.now element.now)) }
{
    let key = node_key(alloc, name, element.number)?;
    let room = content_room(&element.labels, &element.properties);
    let mut value = with_room(alloc, room)?;
    put_content(&mut value, &element.labels, &element.properties)?;
    Ok(Record { key, value })
}

/// The record of an edge of the graph of this name.
pub fn edge_record(alloc: Global, name: &str, element: &EdgeRecord) -> Result<Record, OutOfMemory>
    requires labels { IsTrue (texts_ascend element.now.labels) }
    requires properties { IsTrue (are_properties element.now.properties) }
    ensures { IfOk result (Says (edge name.now element.now)) }
{
    let key = edge_key(alloc, name, element.number)?;
    let room = content_room(&element.labels, &element.properties);
    let mut value = with_room(alloc, room.saturating_add(9))?;
    put_ends(&mut value, element.ends)?;
    put_content(&mut value, &element.labels, &element.properties)?;
    Ok(Record { key, value })
}

/// Room for the labels and the properties of most elements: behind each length a text of eight bytes, and a number. Where it
/// is not enough the bytes grow.
fn content_room(labels: &Names, properties: &Properties) -> usize {
    let labels = labels.len().saturating_mul(16);
    let properties = properties.len().saturating_mul(26);
    labels.saturating_add(properties).saturating_add(16)
}

fn put_content(out: &mut Bytes, labels: &Names, properties: &Properties) -> Result<(), OutOfMemory>
    requires labels { IsTrue (texts_ascend labels.now) }
    requires properties { IsTrue (are_properties properties.now) }
    ensures written { OnOk result (out.new ≡ out.old ++ content_spelled labels.now properties.now) }
    ensures kept { OnOk result (IsKeptContent labels.now properties.now) }
{
    put_labels(out, labels.as_slice())?;
    put_properties(out, properties)
}

fn put_ends(out: &mut Bytes, ends: Ends) -> Result<(), OutOfMemory>
    ensures written { OnOk result (out.new ≡ out.old ++ ends_spelled ends) }
    ensures kept { OnOk result (AreKeptEnds ends) }
{
    match ends {
        Ends::Directed { source, target } => put_pair(out, 0, source.0, target.0),
        Ends::Undirected { low, high } => put_pair(out, 1, low.0, high.0),
    }
}

fn put_pair(out: &mut Bytes, tag: u8, first: u32, second: u32) -> Result<(), OutOfMemory>
    ensures written { OnOk result (out.new ≡ out.old ++ tag ∷ (to_be_bytes w32 first ++ to_be_bytes w32 second)) }
    ensures kept { OnOk result ((first < 2 ^ 32) × (second < 2 ^ 32)) }
{
    out.push(tag)?;
    put_u32(out, first)?;
    put_u32(out, second)
}
