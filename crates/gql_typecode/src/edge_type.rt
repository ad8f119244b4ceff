//! An edge type, read and written.

ghost use Rattle.std.specs.Prelude.{◌≡◌, ◌<◌, ◌^◌, ◌∷◌, ◌++◌, not, OnOk};
ghost use Rattle.std.specs.Int.{w64, to_be_bytes};
ghost use Rattle.gql_fields.specs.Spelling.{flag_spelled};
ghost use Rattle.gql_typecode.specs.TypeSpelling.{edge_type_spelled};
ghost use Rattle.gql_typecode.specs.KeptTypes.{IsKeptEdgeType};
ghost use Rattle.gql_typecode.specs.TypeOrder.{IsEdgeTypeInOrder};

use crate::body::{body_of, put_body};
use crate::counted::Counted;
use crate::type_ends::{TypeEnds, ends_of};
use gql_fields::{Misread, label_set_of, put_flag, put_labels, put_u64};
use gql_graph::EdgeType;
use gql_values3::{Bytes, OutOfMemory};
use std::alloc::Global;

impl Counted for EdgeType {
    ghost use Rattle.gql_typecode.specs.TypeSpelling.{edge_type_spelled};
    ghost use Rattle.gql_typecode.specs.KeptTypes.{IsKeptEdgeType};
    ghost use Rattle.gql_typecode.specs.TypeOrder.{IsEdgeTypeInOrder};
    ghost use Rattle.gql_typecode.specs.Machinery.TypeReading.{edge_type_at};

    ghost at = { edge_type_at };

    ghost spelled = { edge_type_spelled };

    ghost in_order = { IsEdgeTypeInOrder };

    ghost kept = { IsKeptEdgeType };

    #[tactic(auto, unfolding(crate::specs::Machinery::TypeReading::edge_type_at))]
    fn read(alloc: Global, bytes: &[u8]) -> Result<(EdgeType, &[u8]), Misread> {
        let (ends, rest) = ends_of(bytes)?;
        let (labels, rest) = label_set_of(alloc, rest)?;
        let (body, rest) = body_of(alloc, rest)?;
        let TypeEnds {
            directed,
            first,
            second,
        } = ends;
        let found = EdgeType {
            directed,
            first,
            second,
            labels,
            body,
        };
        Ok((found, rest))
    }

    fn put(&self, out: &mut Bytes) -> Result<(), OutOfMemory> {
        put_edge_type(out, self)
    }
}

fn put_edge_type(out: &mut Bytes, one: &EdgeType) -> Result<(), OutOfMemory>
    requires { IsEdgeTypeInOrder one.now }
    ensures written { OnOk result (out.new ≡ out.old ++ edge_type_spelled one.now) }
    ensures kept { OnOk result (IsKeptEdgeType one.now) }
{
    put_ends(out, one)?;
    put_labels(out, one.labels.as_slice())?;
    put_body(out, &one.body)
}

fn put_ends(out: &mut Bytes, one: &EdgeType) -> Result<(), OutOfMemory>
    ensures written { OnOk result (out.new ≡ out.old ++ flag_spelled (not one.now.directed) ∷ (to_be_bytes w64 one.now.first ++ to_be_bytes w64 one.now.second)) }
    ensures kept { OnOk result ((one.now.first < 2 ^ 64) × (one.now.second < 2 ^ 64)) }
{
    put_flag(out, !one.directed)?;
    put_u64(out, one.first)?;
    put_u64(out, one.second)
}
