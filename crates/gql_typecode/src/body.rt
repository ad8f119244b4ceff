//! The properties of a node type or an edge type, read and written.

ghost use Rattle.std.specs.Prelude.{◌≡◌, ◌++◌, map, IsTrue, OnOk};
ghost use Rattle.gql_values3.specs.Texts.{texts_ascend};
ghost use Rattle.gql_fields.specs.Machinery.Reading.{Gives};
ghost use Rattle.gql_typecode.specs.TypeSpelling.{body_spelled};
ghost use Rattle.gql_typecode.specs.KeptTypes.{IsKeptBody};
ghost use Rattle.gql_typecode.specs.Machinery.TypeReading.{body_at};

use crate::counted::{counted_of, put_counted};
use gql_fields::Misread;
use gql_graph::{PropType, PropTypes};
use gql_values3::{Bytes, OutOfMemory, keys_ascend};
use std::alloc::Global;

/// The properties of a type at the front, behind their count, and the bytes after them.
#[tactic(auto, unfolding(crate::specs::Machinery::TypeReading::body_at))]
pub fn body_of(alloc: Global, bytes: &[u8]) -> Result<(PropTypes, &[u8]), Misread>
    ensures { Gives (λ x. (x.0, x.1.now)) result (body_at bytes.now) }
{
    let (body, rest) = counted_of::<PropType>(alloc, bytes)?;
    if !keys_ascend(body.as_slice()) {
        return Err(Misread::NoForm);
    }
    Ok((body, rest))
}

/// Adds the properties of a type behind their count.
pub fn put_body(out: &mut Bytes, body: &PropTypes) -> Result<(), OutOfMemory>
    requires { IsTrue (texts_ascend (map (λ t. t.name) body.now)) }
    ensures written { OnOk result (out.new ≡ out.old ++ body_spelled body.now) }
    ensures kept { OnOk result (IsKeptBody body.now) }
{
    put_counted(out, body)
}
