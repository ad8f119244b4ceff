//! Property maps, written.

ghost use Rattle.std.specs.Prelude.{◌≡◌, ◌++◌, IsTrue, OnOk};
ghost use Rattle.std.specs.List.{flat_map, AllByRecursion};
ghost use Rattle.gql_values3.specs.PropertyGraph.{are_properties};
ghost use Rattle.gql_fields.specs.Spelling.{property_spelled, properties_spelled};
ghost use Rattle.gql_fields.specs.Kept.{IsKeptProperty, AreKeptProperties};
ghost use Rattle.gql_fields.specs.Machinery.Reading.{pair_of};

use crate::value_writing::put_value;
use crate::writing::{put_text, put_u64};
use gql_values3::{Bytes, OutOfMemory, Properties, Text, Value};

/// Adds a property map behind its count.
pub fn put_properties(out: &mut Bytes, properties: &Properties) -> Result<(), OutOfMemory>
    requires { IsTrue (are_properties properties.now) }
    ensures written { OnOk result (out.new ≡ out.old ++ properties_spelled properties.now) }
    ensures kept { OnOk result (AreKeptProperties properties.now) }
{
    put_u64(out, properties.len() as u64)?;
    put_pairs(out, properties.as_slice())
}

fn put_pairs(out: &mut Bytes, pairs: &[(Text, Value)]) -> Result<(), OutOfMemory>
    ensures written { OnOk result (out.new ≡ out.old ++ flat_map (λ p. property_spelled (pair_of p)) pairs.now) }
    ensures kept { OnOk result (AllByRecursion (λ p. IsKeptProperty (pair_of p)) pairs.now) }
{
    for i in 0..pairs.len() {
        put_property(out, &pairs[i])?;
    }
    Ok(())
}

fn put_property(out: &mut Bytes, pair: &(Text, Value)) -> Result<(), OutOfMemory>
    ensures written { OnOk result (out.new ≡ out.old ++ property_spelled (pair_of pair.now)) }
    ensures kept { OnOk result (IsKeptProperty (pair_of pair.now)) }
{
    put_text(out, pair.0.as_str())?;
    put_value(out, &pair.1)
}
