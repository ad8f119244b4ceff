//! Values, read: NULL, booleans, integers, strings, and lists of values.

ghost use Rattle.std.specs.Prelude.{◌≡◌, Some, None};
ghost use Rattle.gql_values3.specs.Meaning.{datum_of};
ghost use Rattle.gql_fields.specs.Machinery.Reading.{GivesFree, Gives, boolean_at, integer_at, string_at, lists_at, value_at, items_at};

use crate::bytes::{text_of, u64_at};
use crate::flag::flag_of;
use crate::misread::Misread;
use gql_values3::{List, Value};
use std::alloc::Global;

/// The value at the front, and the bytes after it. Lists in it are nested at most so deep.
#[cycle(values)]
pub fn value_of(alloc: Global, depth: u32, bytes: &[u8]) -> Result<(Value, &[u8]), Misread>
    ensures { Gives (λ x. (datum_of x.0, x.1.now)) result (value_at depth bytes.now) }
{
    let [kind, rest @ ..] = bytes else {
        return Err(Misread::NoForm);
    };
    match *kind {
        0 => Ok((Value::Null, rest)),
        1 => boolean_of(rest),
        2 => integer_of(rest),
        3 => string_of(alloc, rest),
        4 => list_of(alloc, depth, rest),
        _ => Err(Misread::NoForm),
    }
}

fn boolean_of(bytes: &[u8]) -> Result<(Value, &[u8]), Misread>
    ensures { GivesFree (λ x. (datum_of x.0, x.1.now)) result (boolean_at bytes.now) }
{
    let (truth, rest) = flag_of(bytes)?;
    Ok((Value::Bool(truth), rest))
}

fn integer_of(bytes: &[u8]) -> Result<(Value, &[u8]), Misread>
    ensures { GivesFree (λ x. (datum_of x.0, x.1.now)) result (integer_at bytes.now) }
{
    let (bits, rest) = u64_at(bytes)?;
    Ok((Value::Int(bits.cast_signed()), rest))
}

fn string_of(alloc: Global, bytes: &[u8]) -> Result<(Value, &[u8]), Misread>
    ensures { Gives (λ x. (datum_of x.0, x.1.now)) result (string_at bytes.now) }
{
    let (text, rest) = text_of(alloc, bytes)?;
    Ok((Value::Text(text), rest))
}

#[cycle(values)]
#[tactic(auto, unfolding(crate::specs::Machinery::Reading::lists_at))]
fn list_of(alloc: Global, depth: u32, bytes: &[u8]) -> Result<(Value, &[u8]), Misread>
    ensures { Gives (λ x. (datum_of x.0, x.1.now)) result (lists_at depth bytes.now) }
{
    if depth == 0 {
        return Err(Misread::NoForm);
    }
    let (count, rest) = u64_at(bytes)?;
    let (items, rest) = items_of(alloc, depth - 1, count, rest)?;
    Ok((Value::List(items), rest))
}

// It ends at the first item that is missing, so that a count which is too high costs nothing.
#[cycle(values)]
fn items_of(alloc: Global, depth: u32, count: u64, bytes: &[u8]) -> Result<(List, &[u8]), Misread>
    ensures { Gives (λ x. (x.0, x.1.now)) result (items_at (value_at depth) count bytes.now) }
{
    let mut items = List::new(alloc);
    let mut rest = bytes;
    for _ in 0..count {
        let (item, after) = value_of(alloc, depth, rest)?;
        items.push(item)?;
        rest = after;
    }
    Ok((items, rest))
}
