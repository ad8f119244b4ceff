//! Rows that have their room from the start, so that no value that a clause adds makes them grow.

ghost use Rattle.std.specs.Prelude.{◌≡◌, ◌≤◌, [], IfOk};

use gql_values3::{OutOfMemory, Row, Rows, Value};
use std::alloc::Global;

/// No values, with room for so many.
pub fn empty_row(alloc: Global, room: usize) -> Result<Row, OutOfMemory>
    ensures { IfOk result (λ row. row ≡ []) }
{
    let values: Vec<Value> = Vec::with_capacity(alloc, room)?;
    Ok(Row::from_vec(values))
}

/// No rows, with room for so many.
pub fn empty_rows(alloc: Global, room: usize) -> Result<Rows, OutOfMemory>
    ensures { IfOk result (λ rows. rows ≡ []) }
{
    let rows: Vec<Row> = Vec::with_capacity(alloc, room)?;
    Ok(Rows::from_vec(rows))
}

/// The row with room for so many values more, and no more than that where it had none.
pub fn with_room(row: Row, count: usize) -> Result<Row, OutOfMemory>
    ensures { IfOk result (λ same. same ≡ row) }
{
    let mut values = row.into_vec();
    values.reserve_exact(count)?;
    Ok(Row::from_vec(values))
}

/// The row without its values, with room for at least so many.
pub fn emptied(row: Row, room: usize) -> Result<Row, OutOfMemory>
    ensures { IfOk result (λ empty. empty ≡ []) }
{
    let mut values = row.into_vec();
    values.clear();
    values.reserve_exact(room)?;
    Ok(Row::from_vec(values))
}

/// A copy of the row that has room for so many values more: those of the clause, and one that a LET or FOR behind it adds.
pub fn copy_with_room(alloc: Global, row: &Row, room: usize) -> Result<Row, OutOfMemory>
    requires { room ≤ 3 }
    ensures { IfOk result (λ copy. copy ≡ row.now) }
{
    let values = row.as_slice();
    let mut copy = empty_row(alloc, values.len() + room)?;
    for i in 0..values.len() {
        copy.push(values[i].try_copy(alloc)?)?;
    }
    Ok(copy)
}
