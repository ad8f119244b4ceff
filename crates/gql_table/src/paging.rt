//! OFFSET and LIMIT.

ghost use Rattle.std.specs.Prelude.{◌≡◌, drop, take, option_map, Ok, IfOk};
ghost use Rattle.std.specs.Option.{option_copied};
ghost use Rattle.gql_values3.specs.Meaning.{datum_of};
ghost use Rattle.gql_ast.specs.Evaluation.{parameter_value};
ghost use Rattle.gql_eval.specs.Gives.{Gives};
ghost use Rattle.gql_table.specs.Paging.{count_in, count_of, count_if, without_first, no_more_than, cut};

use gql_ast::{DataFault, RowCount};
use gql_eval::{EvalError, number_value};
use gql_values3::{OutOfMemory, Params, Row, Rows, Value};
use std::alloc::Global;

/// The rows without the first ones that OFFSET names, and of these no more than LIMIT names. They are moved. Both
/// counts are looked at first, OFFSET's before LIMIT's.
pub fn cut_table(
    alloc: Global,
    params: &Params,
    skip: Option<&RowCount>,
    limit: Option<&RowCount>,
    rows: Rows,
) -> Result<Rows, EvalError>
    ensures { Gives (λ r. r) result (cut params.now (option_copied skip.entry) (option_copied limit.entry) rows) }
{
    let skip = count_where(params, skip)?;
    let limit = count_where(params, limit)?;
    let rest = rest_of_rows(alloc, skip, rows)?;
    Ok(first_rows(limit, rest))
}

fn rest_of_rows(alloc: Global, skip: Option<usize>, rows: Rows) -> Result<Rows, OutOfMemory>
    ensures { IfOk result (λ rest. rest ≡ without_first skip rows) }
{
    match skip {
        None => Ok(rows),
        Some(count) => {
            let rest: Vec<Row> = rows.into_vec().into_iter().skip(count).collect(alloc)?;
            Ok(Rows::from_vec(rest))
        }
    }
}

fn first_rows(limit: Option<usize>, rows: Rows) -> Rows
    ensures { result ≡ no_more_than limit rows }
{
    match limit {
        None => rows,
        Some(count) => {
            let mut first = rows.into_vec();
            first.truncate(count);
            Rows::from_vec(first)
        }
    }
}

/// The number of rows, where one is written.
fn count_where(params: &Params, count: Option<&RowCount>) -> Result<Option<usize>, EvalError>
    ensures { Gives (λ n. n) result (count_if params.now (option_copied count.entry)) }
{
    match count {
        None => Ok(None),
        Some(count) => Ok(Some(row_count(params, count)?)),
    }
}

/// The number of rows that a literal or a parameter says. A literal beyond 64 bits, which is refused before, is
/// answered as want of memory.
fn row_count(params: &Params, count: &RowCount) -> Result<usize, EvalError>
    ensures { Gives (λ n. n) result (count_of params.now count.now) }
{
    match count {
        RowCount::Number(digits) => {
            let value = number_value(digits)?;
            whole_count(&value)
        }
        RowCount::Parameter(name) => match params.get(name.as_str()) {
            Some(value) => whole_count(value),
            None => Err(EvalError::Fault(DataFault::WrongKind)),
        },
    }
}

/// An integer of at least 0.
fn whole_count(value: &Value) -> Result<usize, EvalError>
    ensures { Gives (λ n. n) result (count_in (datum_of value.now)) }
{
    match value {
        Value::Int(number) => match usize::try_from(*number) {
            Ok(count) => Ok(count),
            Err(_) => Err(EvalError::Fault(DataFault::WrongKind)),
        },
        _ => Err(EvalError::Fault(DataFault::WrongKind)),
    }
}
