//! A whole graph type, read and written: its node types, then its edge types.

ghost use Rattle.std.specs.Prelude.{◌≡◌, ◌++◌, IfOk, OnOk, MatchResult};
ghost use Rattle.gql_graph.specs.declared.graph_type.GraphType.{GraphType as TypeData};
ghost use Rattle.gql_fields.specs.Machinery.Reading.{Gives};
ghost use Rattle.gql_typecode.specs.TypeSpelling.{graph_type_spelled};
ghost use Rattle.gql_typecode.specs.KeptTypes.{IsKeptType};
ghost use Rattle.gql_typecode.specs.TypeOrder.{IsTypeInOrder};
ghost use Rattle.gql_typecode.specs.Machinery.TypeReading.{graph_type_at, whole_type_at};

use crate::counted::{counted_of, put_counted};
use gql_fields::Misread;
use gql_graph::{EdgeType, GraphType, NodeType};
use gql_values3::{Bytes, OutOfMemory};
use std::alloc::Global;

/// The graph type that all of the bytes spell. Takes time in proportion to the bytes.
///
/// # Errors
///
/// That they spell none, or want of memory.
pub fn graph_type_of_bytes(alloc: Global, bytes: &[u8]) -> Result<GraphType, Misread>
    ensures told { Gives (λ t. t) result (whole_type_at bytes.now) }
    // what is read was spelled by these bytes
    ensures spelled { IfOk result (λ t. IsKeptType t × (bytes.now ≡ graph_type_spelled t)) }
    // what was spelled is read, unless there is no memory
    ensures complete { (t : TypeData) → IsKeptType t → bytes.now ≡ graph_type_spelled t → MatchResult result (λ u. u ≡ t) (λ e. e ≡ Misread.OutOfMemory) }
{
    whole_type_of(alloc, bytes)
}

#[tactic(auto, unfolding(crate::specs::Machinery::TypeReading::whole_type_at))]
fn whole_type_of(alloc: Global, bytes: &[u8]) -> Result<GraphType, Misread>
    ensures { Gives (λ t. t) result (whole_type_at bytes.now) }
{
    let (found, rest) = graph_type_of(alloc, bytes)?;
    if !rest.is_empty() {
        return Err(Misread::NoForm);
    }
    Ok(found)
}

#[tactic(auto, unfolding(crate::specs::Machinery::TypeReading::graph_type_at))]
fn graph_type_of(alloc: Global, bytes: &[u8]) -> Result<(GraphType, &[u8]), Misread>
    ensures { Gives (λ x. (x.0, x.1.now)) result (graph_type_at bytes.now) }
{
    let (nodes, rest) = counted_of::<NodeType>(alloc, bytes)?;
    let (edges, rest) = counted_of::<EdgeType>(alloc, rest)?;
    Ok((GraphType { nodes, edges }, rest))
}

/// Adds the spelling of a graph type, which can be kept. Takes time in proportion to its bytes.
pub fn put_graph_type(out: &mut Bytes, kind: &GraphType) -> Result<(), OutOfMemory>
    requires { IsTypeInOrder kind.now }
    ensures written { OnOk result (out.new ≡ out.old ++ graph_type_spelled kind.now) }
    ensures kept { OnOk result (IsKeptType kind.now) }
{
    put_counted(out, &kind.nodes)?;
    put_counted(out, &kind.edges)
}
