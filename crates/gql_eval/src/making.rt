//! Values that are made, within the limits.

ghost use Rattle.std.specs.Prelude.{◌≡◌, map, nat_le};
ghost use Rattle.gql_values3.specs.Datum.{data_of};
ghost use Rattle.gql_values3.specs.Nesting.{depth, depth_all};
ghost use Rattle.gql_values3.specs.Meaning.{datum_of};
ghost use Rattle.gql_ast.specs.Operators.{made_list};
ghost use Rattle.gql_eval.specs.Gives.{GivesExactly};

use gql_ast::DataFault;
use gql_values3::{List, Value};

/// The most bytes of a string that `||` makes.
pub const MOST_TEXT: usize = 16_777_216;

/// The most items of a list that is made.
pub const MOST_ITEMS: usize = 1_048_576;

/// How deep lists are nested at most.
pub const MOST_DEPTH: u32 = 64;

/// The list as a value, unless it is too long, or else nested too deep.
pub fn list_value(items: List) -> Result<Value, DataFault>
    ensures { GivesExactly datum_of result (made_list items) }
{
    if items.len() > MOST_ITEMS {
        return Err(DataFault::TooLarge);
    }
    if !are_within(items.as_slice(), MOST_DEPTH - 1) {
        return Err(DataFault::TooDeep);
    }
    Ok(Value::List(items))
}

/// Whether lists in the value are nested at most so deep.
#[cycle(within)]
pub fn is_within(value: &Value, limit: u32) -> bool
    ensures { result ≡ nat_le (depth (datum_of value.now)) limit }
{
    match value {
        Value::List(list) => limit > 0 && are_within(list.as_slice(), limit - 1),
        _ => true,
    }
}

/// The same of each of these.
#[cycle(within)]
pub fn are_within(items: &[Value], limit: u32) -> bool
    ensures { result ≡ nat_le (depth_all (map datum_of items.now)) limit }
{
    for i in 0..items.len() {
        if !is_within(&items[i], limit) {
            return false;
        }
    }
    true
}
