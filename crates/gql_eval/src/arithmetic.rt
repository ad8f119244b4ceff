//! Arithmetic on integers of 64 bits.

ghost use Rattle.std.specs.Prelude.{◌≡◌, pos, ◌+ℤ◌, ◌-ℤ◌, ◌*ℤ◌};
ghost use Rattle.gql_values3.specs.Meaning.{datum_of};
ghost use Rattle.gql_ast.specs.Operators.{fitted, divided, remaining, counted};
ghost use Rattle.gql_eval.specs.Gives.{GivesExactly};

use gql_ast::DataFault;
use gql_values3::Value;

pub fn add(a: i64, b: i64) -> Result<Value, DataFault>
    ensures { GivesExactly datum_of result (fitted (a +ℤ b)) }
{
    match a.checked_add(b) {
        Some(number) => Ok(Value::Int(number)),
        None => Err(DataFault::Overflow),
    }
}

pub fn subtract(a: i64, b: i64) -> Result<Value, DataFault>
    ensures { GivesExactly datum_of result (fitted (a -ℤ b)) }
{
    match a.checked_sub(b) {
        Some(number) => Ok(Value::Int(number)),
        None => Err(DataFault::Overflow),
    }
}

pub fn multiply(a: i64, b: i64) -> Result<Value, DataFault>
    ensures { GivesExactly datum_of result (fitted (a *ℤ b)) }
{
    match a.checked_mul(b) {
        Some(number) => Ok(Value::Int(number)),
        None => Err(DataFault::Overflow),
    }
}

/// The quotient, cut towards zero.
pub fn divide(a: i64, b: i64) -> Result<Value, DataFault>
    ensures { GivesExactly datum_of result (divided a b) }
{
    if b == 0 {
        return Err(DataFault::DivideByZero);
    }
    match a.checked_div(b) {
        Some(number) => Ok(Value::Int(number)),
        None => Err(DataFault::Overflow),
    }
}

/// What the quotient leaves, with the sign of `a`.
pub fn remainder(a: i64, b: i64) -> Result<Value, DataFault>
    ensures { GivesExactly datum_of result (remaining a b) }
{
    if b == 0 {
        return Err(DataFault::DivideByZero);
    }
    // The least integer has no quotient by -1 in 64 bits, and yet a remainder.
    if b == -1 {
        return Ok(Value::Int(0));
    }
    Ok(Value::Int(a % b))
}

/// A count as a value.
pub fn count_value(count: usize) -> Result<Value, DataFault>
    ensures { GivesExactly datum_of result (counted count) }
{
    match i64::try_from(count) {
        Ok(number) => Ok(Value::Int(number)),
        Err(_) => Err(DataFault::Overflow),
    }
}
