//! Keys of records.

ghost use Rattle.std.specs.Prelude.{◌≡◌, [], ◌∷◌, ◌++◌, ◌<◌, ◌^◌, IfOk, OnOk};
ghost use Rattle.std.specs.Int.{w32, to_be_bytes};
ghost use Rattle.gql_fields.specs.Spelling.{spelled};
ghost use Rattle.gql_fields.specs.Kept.{IsText};
ghost use Rattle.gql_rowcode.specs.Records.{node_key, edge_key};

use gql_fields::{put_text, put_u32};
use gql_values3::{Bytes, EdgeId, NodeId, OutOfMemory};
use std::alloc::Global;

/// The key of what has a name: a byte that tells its kind, and the name.
pub fn name_key(alloc: Global, kind: u8, name: &str) -> Result<Bytes, OutOfMemory>
    ensures written { IfOk result (λ key. key ≡ kind ∷ spelled name.now) }
    ensures kept { OnOk result (IsText name.now) }
{
    // The byte, the length and the name, and the number that an element's key ends in.
    let mut key = with_room(alloc, name.len().saturating_add(13))?;
    key.push(kind)?;
    put_text(&mut key, name)?;
    Ok(key)
}

/// No bytes, with room for so many.
pub fn with_room(alloc: Global, count: usize) -> Result<Bytes, OutOfMemory>
    ensures { IfOk result (λ bytes. bytes ≡ []) }
{
    Ok(Bytes::from_vec(Vec::with_capacity(alloc, count)?))
}

/// The key of the record of a node of the graph of this name.
pub fn node_key(alloc: Global, name: &str, node: NodeId) -> Result<Bytes, OutOfMemory>
    ensures written { IfOk result (λ key. key ≡ node_key name.now node.0) }
    ensures kept { OnOk result (IsText name.now × (node.0 < 2 ^ 32)) }
{
    element_key(alloc, 3, name, node.0)
}

/// The key of the record of an edge of the graph of this name.
pub fn edge_key(alloc: Global, name: &str, edge: EdgeId) -> Result<Bytes, OutOfMemory>
    ensures written { IfOk result (λ key. key ≡ edge_key name.now edge.0) }
    ensures kept { OnOk result (IsText name.now × (edge.0 < 2 ^ 32)) }
{
    element_key(alloc, 4, name, edge.0)
}

/// The key of an element: a byte that tells its kind, the name of its graph, and its number.
fn element_key(alloc: Global, kind: u8, name: &str, number: u32) -> Result<Bytes, OutOfMemory>
    ensures written { IfOk result (λ key. key ≡ kind ∷ (spelled name.now ++ to_be_bytes w32 number)) }
    ensures kept { OnOk result (IsText name.now × (number < 2 ^ 32)) }
{
    let mut key = name_key(alloc, kind, name)?;
    put_u32(&mut key, number)?;
    Ok(key)
}
