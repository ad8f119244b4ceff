//! Rows of NULLs, where only the number of values counts.

ghost use Rattle.std.specs.Prelude.{◌≡◌, length, IfOk};

use gql_values3::{OutOfMemory, Row, Value};
use std::alloc::Global;

/// So many NULLs.
pub fn blank_row(alloc: Global, width: usize) -> Result<Row, OutOfMemory>
    ensures { IfOk result (λ row. length row ≡ width) }
{
    let mut row = Row::new(alloc);
    for _i in 0..width {
        row.push(Value::Null)?;
    }
    Ok(row)
}
