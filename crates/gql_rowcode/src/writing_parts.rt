//! The records of a catalog's parts: its version, its graph types, and its graphs without their elements.

ghost use Rattle.std.specs.Prelude.{◌≡◌, [], ◌∷◌, ◌++◌, IfOk, OnOk, IsTrue};
ghost use Rattle.gql_type.specs.GraphTypes.{is_graph_type};
ghost use Rattle.gql_rowcode.specs.Records.{version, graph_type, graph, type_name_spelled, IsKeptName, Says};

use crate::writing_keys::name_key;
use gql_fields::{put_text, put_u32};
use gql_graph::{GraphType, Held};
use gql_ports::Record;
use gql_typecode::put_graph_type;
use gql_values3::{Bytes, OutOfMemory, Text};
use std::alloc::Global;

/// The first record of a store.
pub fn version_record(alloc: Global) -> Result<Record, OutOfMemory>
    ensures { IfOk result (Says version) }
{
    Ok(Record {
        key: one_byte(alloc, 0)?,
        value: one_byte(alloc, 1)?,
    })
}

fn one_byte(alloc: Global, byte: u8) -> Result<Bytes, OutOfMemory>
    ensures { IfOk result (λ bytes. bytes ≡ byte ∷ []) }
{
    let mut bytes = Bytes::new(alloc);
    bytes.push(byte)?;
    Ok(bytes)
}

/// The record of a graph type of this name.
pub fn type_record(alloc: Global, name: &str, kind: &GraphType) -> Result<Record, OutOfMemory>
    requires { IsTrue (is_graph_type kind.now) }
    ensures { IfOk result (Says (graph_type name.now kind.now)) }
{
    let key = name_key(alloc, 1, name)?;
    let mut value = Bytes::new(alloc);
    put_graph_type(&mut value, kind)?;
    Ok(Record { key, value })
}

/// The record of a graph of this name: its type, and the numbers that come next.
pub fn graph_record(alloc: Global, name: &str, held: &Held) -> Result<Record, OutOfMemory>
    ensures { IfOk result (Says (graph name.now held.now.kind held.now.graph.graph.next_node held.now.graph.graph.next_edge)) }
{
    let key = name_key(alloc, 2, name)?;
    let mut value = Bytes::new(alloc);
    put_type_name(&mut value, &held.kind)?;
    put_u32(&mut value, held.graph.next_node())?;
    put_u32(&mut value, held.graph.next_edge())?;
    Ok(Record { key, value })
}

fn put_type_name(out: &mut Bytes, name: &Option<Text>) -> Result<(), OutOfMemory>
    ensures written { OnOk result (out.new ≡ out.old ++ type_name_spelled name.now) }
    ensures kept { OnOk result (IsKeptName name.now) }
{
    match name {
        None => out.push(0),
        Some(name) => {
            out.push(1)?;
            put_text(out, name.as_str())
        }
    }
}
