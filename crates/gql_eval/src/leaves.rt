//! Expressions that are the same in every row: numbers and parameters.

ghost use Rattle.std.specs.Prelude.{◌≡◌, pos, Ok, IfOk};
ghost use Rattle.std.specs.Str.{all_ascii_digits};
ghost use Rattle.gql_values3.specs.Datum.{integer};
ghost use Rattle.gql_values3.specs.Integers.{value_of_digits};
ghost use Rattle.gql_values3.specs.Meaning.{datum_of};
ghost use Rattle.gql_ast.specs.Evaluation.{parameter_value};
ghost use Rattle.gql_eval.specs.Gives.{Gives};
ghost use Rattle.gql_eval.specs.CowValue.{cow_datum};

use crate::cow::CowValue;
use crate::error::EvalError;
use gql_values3::{OutOfMemory, Params, Text, Value, int_of};

/// The value of a parameter; one that isn't set is NULL.
pub fn parameter<'a>(params: &'a Params, name: &Text) -> CowValue<'a>
    ensures { cow_datum result ≡ parameter_value params.now name.now }
{
    match params.get(name.as_str()) {
        Some(value) => CowValue::Borrowed(value),
        None => CowValue::Owned(Value::Null),
    }
}

/// The number that digits write.
pub fn number_value(digits: &Text) -> Result<Value, EvalError>
    ensures { Gives datum_of result (Ok (integer (pos (value_of_digits digits.now)))) }
{
    Ok(number_within(digits)?)
}

/// The same; one that doesn't fit 64 bits is answered as want of memory.
pub fn number_within(digits: &Text) -> Result<Value, OutOfMemory>
    ensures { IfOk result (λ value. datum_of value ≡ integer (pos (value_of_digits digits.now))) }
{
    let text = digits.as_str();
    if text.is_empty() || !are_digits(text.as_bytes()) {
        return Err(OutOfMemory);
    }
    match int_of(text) {
        Some(number) => Ok(Value::Int(number)),
        None => Err(OutOfMemory),
    }
}

/// Whether all bytes are ASCII digits (`0` to `9`), which is so of none at all.
pub fn are_digits(bytes: &[u8]) -> bool
    ensures { result ≡ all_ascii_digits bytes.now }
{
    for i in 0..bytes.len() {
        if !bytes[i].is_ascii_digit() {
            return false;
        }
    }
    true
}
