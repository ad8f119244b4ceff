//! Many behind their count, read and written: node types, edge types, and the properties of each.

ghost use Rattle.std.specs.Prelude.{◌≡◌, ◌<◌, ◌^◌, ◌++◌, ℕ, List, Option, length, OnOk};
ghost use Rattle.std.specs.Int.{w64, to_be_bytes};
ghost use Rattle.std.specs.List.{flat_map, AllByRecursion};
ghost use Rattle.gql_fields.specs.Machinery.Reading.{Gives, items_at, counted_at};

use gql_fields::{Misread, put_u64, u64_at};
use gql_values3::{Bytes, OutOfMemory, Sequence};
use std::alloc::Global;

/// What stands behind its count.
pub trait Counted: Drop + Sized {
    /// What bytes spell at their front, and the bytes after it.
    ghost at: { List ℕ → Option (Self × List ℕ) };

    /// Its spelling.
    ghost spelled: { Self → List ℕ };

    /// Its sets are in order.
    ghost in_order: { Self → Type 0 };

    /// A record can keep it.
    ghost kept: { Self → Type 0 };

    /// The one at the front, and the bytes after it.
    fn read(alloc: Global, bytes: &[u8]) -> Result<(Self, &[u8]), Misread>
        ensures { Gives (λ x. (x.0, x.1.now)) result (at bytes.now) };

    /// Adds it.
    fn put(&self, out: &mut Bytes) -> Result<(), OutOfMemory>
        requires { in_order self.now }
        ensures written { OnOk result (out.new ≡ out.old ++ spelled self.now) }
        ensures kept { OnOk result (kept self.now) };
}

/// Those at the front, behind their count, and the bytes after them.
pub fn counted_of<T: Counted>(alloc: Global, bytes: &[u8]) -> Result<(Sequence<T>, &[u8]), Misread>
    ensures { Gives (λ x. (x.0, x.1.now)) result (counted_at T.at bytes.now) }
{
    let (count, rest) = u64_at(bytes)?;
    items_of::<T>(alloc, count, rest)
}

// It ends at the first one that is missing, so that a count which is too high costs nothing.
fn items_of<T: Counted>(
    alloc: Global,
    count: u64,
    bytes: &[u8],
) -> Result<(Sequence<T>, &[u8]), Misread>
    ensures { Gives (λ x. (x.0, x.1.now)) result (items_at T.at count bytes.now) }
{
    let mut found = Sequence::new(alloc);
    let mut rest = bytes;
    for _ in 0..count {
        let (one, after) = T::read(alloc, rest)?;
        found.push(one)?;
        rest = after;
    }
    Ok((found, rest))
}

/// Adds them behind their count.
pub fn put_counted<T: Counted>(out: &mut Bytes, items: &Sequence<T>) -> Result<(), OutOfMemory>
    requires { AllByRecursion T.in_order items.now }
    ensures written { OnOk result (out.new ≡ out.old ++ (to_be_bytes w64 (length items.now) ++ flat_map T.spelled items.now)) }
    ensures kept { OnOk result ((length items.now < 2 ^ 64) × AllByRecursion T.kept items.now) }
{
    put_u64(out, items.len() as u64)?;
    put_items(out, items.as_slice())
}

fn put_items<T: Counted>(out: &mut Bytes, items: &[T]) -> Result<(), OutOfMemory>
    requires { AllByRecursion T.in_order items.now }
    ensures written { OnOk result (out.new ≡ out.old ++ flat_map T.spelled items.now) }
    ensures kept { OnOk result (AllByRecursion T.kept items.now) }
{
    for one in items {
        one.put(out)?;
    }
    Ok(())
}
