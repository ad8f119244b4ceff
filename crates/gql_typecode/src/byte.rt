//! One byte, read.

ghost use Rattle.std.specs.Prelude.{◌≡◌};
ghost use Rattle.gql_fields.specs.Machinery.Reading.{GivesFree};
ghost use Rattle.gql_typecode.specs.Machinery.TypeReading.{byte_at};

use gql_fields::Misread;

/// The first byte, and the bytes after it.
#[tactic(auto, unfolding(crate::specs::Machinery::TypeReading::byte_at))]
pub fn byte_of(bytes: &[u8]) -> Result<(u8, &[u8]), Misread>
    ensures { GivesFree (λ x. (x.0, x.1.now)) result (byte_at bytes.now) }
{
    match bytes {
        [first, rest @ ..] => Ok((*first, rest)),
        [] => Err(Misread::NoForm),
    }
}
