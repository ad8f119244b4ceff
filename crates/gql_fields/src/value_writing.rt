//! Values, written; nodes, edges and paths, which no property holds, are written as nothing.

ghost use Rattle.std.specs.Prelude.{◌≡◌, ◌++◌, length, OnOk};
ghost use Rattle.std.specs.Int.{w64, to_be_bytes};
ghost use Rattle.std.specs.List.{flat_map, AllByRecursion};
ghost use Rattle.gql_values3.specs.Datum.{boolean, integer, list, data_of, items_of};
ghost use Rattle.gql_values3.specs.Meaning.{datum_of};
ghost use Rattle.gql_fields.specs.Spelling.{value_spelled, values_spelled};
ghost use Rattle.gql_fields.specs.Kept.{IsKeptValue, AreKeptValues};

use crate::flag::put_flag;
use crate::writing::{put_text, put_u64};
use gql_values3::{Bytes, List, OutOfMemory, Value};

/// Adds a value: the byte of its kind, and its content.
#[cycle(put)]
pub fn put_value(out: &mut Bytes, value: &Value) -> Result<(), OutOfMemory>
    ensures written { OnOk result (out.new ≡ out.old ++ value_spelled (datum_of value.now)) }
    ensures kept { OnOk result (IsKeptValue (datum_of value.now)) }
{
    match value {
        Value::Null => out.push(0),
        Value::Bool(truth) => put_boolean(out, *truth),
        Value::Int(number) => put_integer(out, *number),
        Value::Text(text) => {
            out.push(3)?;
            put_text(out, text.as_str())
        }
        Value::List(list) => {
            out.push(4)?;
            put_list(out, list)
        }
        Value::Node(_) | Value::Edge(_) | Value::Path(_) => Ok(()),
    }
}

fn put_boolean(out: &mut Bytes, truth: bool) -> Result<(), OutOfMemory>
    ensures { OnOk result (out.new ≡ out.old ++ value_spelled (boolean truth)) }
{
    out.push(1)?;
    put_flag(out, truth)
}

fn put_integer(out: &mut Bytes, number: i64) -> Result<(), OutOfMemory>
    ensures { OnOk result (out.new ≡ out.old ++ value_spelled (integer number)) }
{
    out.push(2)?;
    out.append(number.to_be_bytes().as_slice())
}

#[cycle(put)]
fn put_list(out: &mut Bytes, items: &List) -> Result<(), OutOfMemory>
    ensures written { OnOk result (out.new ≡ out.old ++ (to_be_bytes w64 (length (items_of (data_of items.now))) ++ values_spelled (data_of items.now))) }
    ensures kept { OnOk result (IsKeptValue (list (data_of items.now))) }
{
    put_u64(out, items.len() as u64)?;
    put_items(out, items.as_slice())
}

#[cycle(put)]
fn put_items(out: &mut Bytes, items: &[Value]) -> Result<(), OutOfMemory>
    ensures written { OnOk result (out.new ≡ out.old ++ flat_map (λ v. value_spelled (datum_of v)) items.now) }
    ensures kept { OnOk result (AllByRecursion (λ v. IsKeptValue (datum_of v)) items.now) }
{
    for i in 0..items.len() {
        put_value(out, &items[i])?;
    }
    Ok(())
}
