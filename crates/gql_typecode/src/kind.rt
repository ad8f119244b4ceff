//! The kind of a property, read and written: a scalar, or a list of one kind of scalar.

ghost use Rattle.std.specs.Prelude.{◌≡◌, ◌++◌, OnOk};
ghost use Rattle.gql_fields.specs.Machinery.Reading.{GivesFree};
ghost use Rattle.gql_typecode.specs.TypeSpelling.{scalar_spelled, kind_spelled};
ghost use Rattle.gql_typecode.specs.Machinery.TypeReading.{scalar_told, kind_at, items_kind_at};

use crate::byte::byte_of;
use gql_fields::{Misread, flag_of, put_flag};
use gql_values3::{Bytes, OutOfMemory, PropKind, Scalar};

// The first byte of a list's kind, where a scalar has its own.
const LIST: u8 = 4;

/// The kind of a property at the front, and the bytes after it.
#[tactic(auto, unfolding(crate::specs::Machinery::TypeReading::kind_at))]
pub fn kind_of(bytes: &[u8]) -> Result<(PropKind, &[u8]), Misread>
    ensures { GivesFree (λ x. (x.0, x.1.now)) result (kind_at bytes.now) }
{
    let (byte, rest) = byte_of(bytes)?;
    if byte == LIST {
        return items_kind_of(rest);
    }
    let item = scalar_of(byte)?;
    Ok((PropKind::One(item), rest))
}

#[tactic(auto, unfolding(crate::specs::Machinery::TypeReading::items_kind_at))]
fn items_kind_of(bytes: &[u8]) -> Result<(PropKind, &[u8]), Misread>
    ensures { GivesFree (λ x. (x.0, x.1.now)) result (items_kind_at bytes.now) }
{
    let (byte, rest) = byte_of(bytes)?;
    let item = scalar_of(byte)?;
    let (required, rest) = flag_of(rest)?;
    Ok((PropKind::Many { item, required }, rest))
}

fn scalar_of(byte: u8) -> Result<Scalar, Misread>
    ensures { GivesFree (λ x. x) result (scalar_told byte) }
{
    match byte {
        1 => Ok(Scalar::Bool),
        2 => Ok(Scalar::Int),
        3 => Ok(Scalar::Text),
        _ => Err(Misread::NoForm),
    }
}

/// Adds the kind of a property.
pub fn put_kind(out: &mut Bytes, kind: PropKind) -> Result<(), OutOfMemory>
    ensures { OnOk result (out.new ≡ out.old ++ kind_spelled kind) }
{
    match kind {
        PropKind::One(item) => out.push(scalar_byte(item)),
        PropKind::Many { item, required } => {
            out.push(LIST)?;
            out.push(scalar_byte(item))?;
            put_flag(out, required)
        }
    }
}

fn scalar_byte(scalar: Scalar) -> u8
    ensures { result ≡ scalar_spelled scalar }
{
    match scalar {
        Scalar::Bool => 1,
        Scalar::Int => 2,
        Scalar::Text => 3,
    }
}
