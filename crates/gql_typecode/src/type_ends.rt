//! The ends of an edge type, read: its direction and the places of two node types.

ghost use Rattle.std.specs.Prelude.{◌≡◌};
ghost use Rattle.gql_fields.specs.Machinery.Reading.{GivesFree};
ghost use Rattle.gql_typecode.specs.Machinery.TypeReading.{ends_at};

use gql_fields::{Misread, flag_of, u64_at};

/// Between which node types the edges of a type lie, by their places.
#[derive(Clone, Copy, Debug, PartialEq, Eq)]
pub struct TypeEnds {
    pub directed: bool,
    pub first: u64,
    pub second: u64,
}

/// The ends of an edge type at the front, and the bytes after them.
#[tactic(auto, unfolding(crate::specs::Machinery::TypeReading::ends_at))]
pub fn ends_of(bytes: &[u8]) -> Result<(TypeEnds, &[u8]), Misread>
    ensures { GivesFree (λ x. (x.0, x.1.now)) result (ends_at bytes.now) }
{
    let (undirected, rest) = flag_of(bytes)?;
    let (first, rest) = u64_at(rest)?;
    let (second, rest) = u64_at(rest)?;
    let ends = TypeEnds {
        directed: !undirected,
        first,
        second,
    };
    Ok((ends, rest))
}
