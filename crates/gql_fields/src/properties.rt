//! Property maps, read.

ghost use Rattle.std.specs.Prelude.{◌≡◌, map};
ghost use Rattle.gql_values3.specs.Texts.{texts_ascend};
ghost use Rattle.gql_fields.specs.Machinery.Reading.{Gives, property_at, properties_at, items_at, pair_of};

use crate::bytes::{text_of, u64_at};
use crate::misread::Misread;
use crate::room::with_room;
use crate::values::value_of;
use gql_values3::{Properties, Sequence, Text, Value, keys_ascend};
use std::alloc::Global;

/// The property map at the front, behind its count, and the bytes after it.
#[tactic(auto, unfolding(crate::specs::Machinery::Reading::properties_at))]
pub fn properties_of(alloc: Global, bytes: &[u8]) -> Result<(Properties, &[u8]), Misread>
    ensures { Gives (λ x. (x.0, x.1.now)) result (properties_at bytes.now) }
{
    let (count, rest) = u64_at(bytes)?;
    let (pairs, rest) = pairs_of(alloc, count, rest)?;
    if names_ascend(pairs.as_slice()) {
        Ok((Properties::from_vec(pairs.into_vec()), rest))
    } else {
        Err(Misread::NoForm)
    }
}

// It ends at the first property that is missing, so that a count which is too high costs nothing.
fn pairs_of(
    alloc: Global,
    count: u64,
    bytes: &[u8],
) -> Result<(Sequence<(Text, Value)>, &[u8]), Misread>
    ensures { Gives (λ x. (map pair_of x.0, x.1.now)) result (items_at property_at count bytes.now) }
{
    let mut pairs = with_room(alloc, count)?;
    let mut rest = bytes;
    for _ in 0..count {
        let (pair, after) = property_of(alloc, rest)?;
        pairs.push(pair)?;
        rest = after;
    }
    Ok((pairs, rest))
}

#[tactic(auto, unfolding(crate::specs::Machinery::Reading::property_at))]
fn property_of(alloc: Global, bytes: &[u8]) -> Result<((Text, Value), &[u8]), Misread>
    ensures { Gives (λ x. (pair_of x.0, x.1.now)) result (property_at bytes.now) }
{
    let (name, rest) = text_of(alloc, bytes)?;
    let (value, rest) = value_of(alloc, 64, rest)?;
    if value.is_null() {
        return Err(Misread::NoForm);
    }
    Ok(((name, value), rest))
}

fn names_ascend(pairs: &[(Text, Value)]) -> bool
    ensures { result ≡ texts_ascend (map (λ p. p.0) (map pair_of pairs.now)) }
{
    keys_ascend(pairs)
}
