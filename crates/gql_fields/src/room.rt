//! Lists that are read, with room for what most elements have.

ghost use Rattle.std.specs.Prelude.{◌≡◌, [], IfOk};

use gql_values3::{OutOfMemory, Sequence};
use std::alloc::Global;

/// No items, with room for so many of them, up to four: a count that is read may be any number.
pub fn with_room<T>(alloc: Global, count: u64) -> Result<Sequence<T>, OutOfMemory>
    ensures { IfOk result (λ items. items ≡ []) }
{
    Ok(Sequence::from_vec(Vec::with_capacity(alloc, count.min(4) as usize)?))
}
