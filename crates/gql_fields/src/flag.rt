//! Yes or no in one byte, read and written.

ghost use Rattle.std.specs.Prelude.{◌≡◌, [], ◌∷◌, ◌++◌, OnOk};
ghost use Rattle.gql_fields.specs.Spelling.{flag_spelled};
ghost use Rattle.gql_fields.specs.Machinery.Reading.{GivesFree, flag_at};

use crate::misread::Misread;
use gql_values3::{Bytes, OutOfMemory};

/// Yes or no, as the first byte tells, and the bytes after it.
pub fn flag_of(bytes: &[u8]) -> Result<(bool, &[u8]), Misread>
    ensures { GivesFree (λ x. (x.0, x.1.now)) result (flag_at bytes.now) }
{
    let [flag, rest @ ..] = bytes else {
        return Err(Misread::NoForm);
    };
    match *flag {
        0 => Ok((false, rest)),
        1 => Ok((true, rest)),
        _ => Err(Misread::NoForm),
    }
}

/// Adds yes or no in one byte.
pub fn put_flag(out: &mut Bytes, flag: bool) -> Result<(), OutOfMemory>
    ensures { OnOk result (out.new ≡ out.old ++ flag_spelled flag ∷ []) }
{
    out.push(if flag { 1 } else { 0 })
}
