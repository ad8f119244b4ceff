//! SUM as it runs over values.

ghost use Rattle.std.specs.Prelude.{◌≡◌, suc, ◌+ℤ◌, IfOk};
ghost use Rattle.gql_values3.specs.Meaning.{datum_of};
ghost use Rattle.gql_eval.specs.Gives.{GivesExactly};
ghost use Rattle.gql_table.specs.Machinery.Running.{sum_with, sum_past, summed_up};

use gql_ast::DataFault;
use gql_values3::{OutOfMemory, Value};

/// What SUM has come to. What counts is whether the whole sum fits, so it is taken in 128 bits.
#[derive(Clone, Copy)]
pub enum SumSoFar {
    /// There was no value yet.
    Nothing,
    Whole(i128),
    /// One of the values is no integer.
    WrongKind,
}

/// The sum with one value more, which is not NULL.
pub fn sum_of_both(sum: SumSoFar, value: &Value) -> Result<SumSoFar, OutOfMemory>
    ensures { IfOk result (λ s. s ≡ sum_past sum (datum_of value.now)) }
{
    match value {
        Value::Int(number) => with_integer(sum, *number),
        _ => Ok(SumSoFar::WrongKind),
    }
}

fn with_integer(sum: SumSoFar, number: i64) -> Result<SumSoFar, OutOfMemory>
    ensures { IfOk result (λ s. s ≡ sum_with sum number) }
{
    match sum {
        SumSoFar::Nothing => Ok(SumSoFar::Whole(i128::from(number))),
        SumSoFar::Whole(whole) => Ok(SumSoFar::Whole(whole_with(whole, number)?)),
        SumSoFar::WrongKind => Ok(SumSoFar::WrongKind),
    }
}

/// The sum without a limit. 128 bits hold it of more rows than there is memory for.
fn whole_with(whole: i128, number: i64) -> Result<i128, OutOfMemory>
    ensures { IfOk result (λ z. z ≡ whole +ℤ number) }
{
    match whole.checked_add(i128::from(number)) {
        Some(sum) => Ok(sum),
        None => Err(OutOfMemory),
    }
}

/// What comes of a sum. Of no values it is NULL.
pub fn sum_value(sum: SumSoFar) -> Result<Value, DataFault>
    ensures { GivesExactly datum_of result (summed_up sum) }
{
    match sum {
        SumSoFar::Nothing => Ok(Value::Null),
        SumSoFar::Whole(whole) => match i64::try_from(whole) {
            Ok(number) => Ok(Value::Int(number)),
            Err(_) => Err(DataFault::Overflow),
        },
        SumSoFar::WrongKind => Err(DataFault::WrongKind),
    }
}

/// The count after this one. Where numbers end there is no memory for more rows.
pub fn count_of_one_more(count: usize) -> Result<usize, OutOfMemory>
    ensures { IfOk result (λ next. next ≡ suc count) }
{
    match count.checked_add(1) {
        Some(next) => Ok(next),
        None => Err(OutOfMemory),
    }
}
