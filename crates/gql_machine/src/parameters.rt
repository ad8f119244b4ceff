//! The parameters of a session.
ghost use Rattle.std.specs.Prelude.{◌≡◌, IfOk, not, filter};
ghost use Rattle.gql_values3.specs.Meaning.{datum_of};
ghost use Rattle.gql_values3.specs.Texts.{same_text};
ghost use Rattle.gql_machine.specs.SessionState.{set_parameter};

use gql_values3::{OutOfMemory, Params, Text, Value};
use std::alloc::Global;

/// The parameters where this one has that value; an older value of it is gone. No value is copied.
pub fn with_parameter(
    alloc: Global,
    parameters: Params,
    name: &Text,
    value: Value,
) -> Result<Params, OutOfMemory>
    ensures { IfOk result (λ all. all ≡ set_parameter parameters name.now (datum_of value)) }
{
    let mut pairs = parameters.into_vec();
    remove(&mut pairs, name.as_str());
    pairs.push((name.try_copy(alloc)?, value))?;
    Ok(Params::from_vec(pairs))
}

/// Takes out the pairs of that name.
fn remove(pairs: &mut Vec<(Text, Value)>, name: &str)
    ensures { pairs.new.items ≡ filter (λ p. not (same_text name.now p.0)) pairs.old.items }
{
    pairs.retain(|pair| name != pair.0.as_str());
}
