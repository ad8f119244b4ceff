//! Operators between two values, and signs.

ghost use Rattle.std.specs.Prelude.{◌≡◌, ◌+ℤ◌, ◌-ℤ◌, ◌*ℤ◌, true, nat_le, IfOk};
ghost use Rattle.gql_values3.specs.Nesting.{depth};
ghost use Rattle.gql_values3.specs.Meaning.{datum_of};
ghost use Rattle.gql_ast.specs.Operators.{operated, arithmetic, fitted, divided, remaining, sign_of};
ghost use Rattle.gql_ast.specs.declared.words.Operator.TheVariants.{Concatenate};
ghost use Rattle.gql_eval.specs.Gives.{Gives, GivesExactly};
ghost use Rattle.gql_eval.specs.CowValue.{cow_datum};

use crate::arithmetic::{add, divide, multiply, remainder, subtract};
use crate::cow::CowValue;
use crate::error::EvalError;
use crate::joining::join;
use gql_ast::{DataFault, Operator, Sign};
use gql_values3::Value;
use std::alloc::Global;

/// An operator between two sides of a sum or a product.
/// A left side that is known to be within the limit of nesting isn't looked through again; what `||` gives is.
pub fn operate(
    alloc: Global,
    operator: Operator,
    a: CowValue,
    is_within: bool,
    b: &Value,
) -> Result<Value, EvalError>
    requires within { is_within ≡ true → nat_le (depth (cow_datum a)) 64 ≡ true }
    ensures value { Gives datum_of result (operated operator (cow_datum a.entry) (datum_of b.now)) }
    ensures within { operator ≡ Concatenate → IfOk result (λ value. nat_le (depth (datum_of value)) 64 ≡ true) }
{
    match operator {
        Operator::Add => Ok(sum(a.value(), b)?),
        Operator::Subtract => Ok(difference(a.value(), b)?),
        Operator::Concatenate => join(alloc, a.into_value(alloc)?, is_within, b),
        Operator::Multiply => Ok(product(a.value(), b)?),
        Operator::Divide => Ok(quotient(a.value(), b)?),
        Operator::Or | Operator::Xor | Operator::And => Err(EvalError::Fault(DataFault::WrongKind)),
    }
}

fn sum(a: &Value, b: &Value) -> Result<Value, DataFault>
    ensures { GivesExactly datum_of result (arithmetic (λ x y. fitted (x +ℤ y)) (datum_of a.now) (datum_of b.now)) }
{
    match (a, b) {
        (Value::Null, _) | (_, Value::Null) => Ok(Value::Null),
        (Value::Int(a), Value::Int(b)) => add(*a, *b),
        _ => Err(DataFault::WrongKind),
    }
}

fn difference(a: &Value, b: &Value) -> Result<Value, DataFault>
    ensures { GivesExactly datum_of result (arithmetic (λ x y. fitted (x -ℤ y)) (datum_of a.now) (datum_of b.now)) }
{
    match (a, b) {
        (Value::Null, _) | (_, Value::Null) => Ok(Value::Null),
        (Value::Int(a), Value::Int(b)) => subtract(*a, *b),
        _ => Err(DataFault::WrongKind),
    }
}

fn product(a: &Value, b: &Value) -> Result<Value, DataFault>
    ensures { GivesExactly datum_of result (arithmetic (λ x y. fitted (x *ℤ y)) (datum_of a.now) (datum_of b.now)) }
{
    match (a, b) {
        (Value::Null, _) | (_, Value::Null) => Ok(Value::Null),
        (Value::Int(a), Value::Int(b)) => multiply(*a, *b),
        _ => Err(DataFault::WrongKind),
    }
}

fn quotient(a: &Value, b: &Value) -> Result<Value, DataFault>
    ensures { GivesExactly datum_of result (arithmetic divided (datum_of a.now) (datum_of b.now)) }
{
    match (a, b) {
        (Value::Null, _) | (_, Value::Null) => Ok(Value::Null),
        (Value::Int(a), Value::Int(b)) => divide(*a, *b),
        _ => Err(DataFault::WrongKind),
    }
}

/// MOD.
pub fn modulo(a: &Value, b: &Value) -> Result<Value, DataFault>
    ensures { GivesExactly datum_of result (arithmetic remaining (datum_of a.now) (datum_of b.now)) }
{
    match (a, b) {
        (Value::Null, _) | (_, Value::Null) => Ok(Value::Null),
        (Value::Int(a), Value::Int(b)) => remainder(*a, *b),
        _ => Err(DataFault::WrongKind),
    }
}

/// A sign before a value.
pub fn signed(sign: Sign, value: &Value) -> Result<Value, DataFault>
    ensures { GivesExactly datum_of result (sign_of sign (datum_of value.now)) }
{
    match (sign, value) {
        (_, Value::Null) => Ok(Value::Null),
        (Sign::Plus, Value::Int(number)) => Ok(Value::Int(*number)),
        (Sign::Minus, Value::Int(number)) => subtract(0, *number),
        _ => Err(DataFault::WrongKind),
    }
}
