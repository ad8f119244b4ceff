//! DISTINCT.

ghost use Rattle.std.specs.Prelude.{◌≡◌, [], IfOk, OnOk};
ghost use Rattle.gql_table.specs.Distinct.{distinct_rows, left_of};
ghost use Rattle.gql_table.specs.Machinery.Places.{place, added, places};

use crate::numbering::group_numbers;
use gql_ast::SetQuantifier;
use gql_values3::{OutOfMemory, Row, Rows};
use std::alloc::Global;

/// All rows, or with DISTINCT the first of equal ones.
pub fn left_rows(alloc: Global, quantifier: SetQuantifier, rows: Rows) -> Result<Rows, OutOfMemory>
    ensures { IfOk result (λ left. left ≡ left_of quantifier rows) }
{
    match quantifier {
        SetQuantifier::All => Ok(rows),
        SetQuantifier::Distinct => distinct_table(alloc, rows),
    }
}

/// The first of equal rows, in their order. They are moved. Takes n log n comparisons.
pub fn distinct_table(alloc: Global, rows: Rows) -> Result<Rows, OutOfMemory>
    ensures { IfOk result (λ left. left ≡ distinct_rows rows) }
{
    let numbers = group_numbers(alloc, rows.as_slice())?;
    first_of_each(alloc, rows, numbers.as_slice())
}

/// The rows whose number is that of a group of which no row came before.
fn first_of_each(alloc: Global, rows: Rows, numbers: &[usize]) -> Result<Rows, OutOfMemory>
    requires { numbers.now ≡ places [] rows }
    ensures { IfOk result (λ left. left ≡ distinct_rows rows) }
{
    let mut left = Rows::new(alloc);
    let mut at = 0;
    for row in rows.into_vec() {
        add_first(&mut left, numbers[at], row)?;
        at += 1;
    }
    Ok(left)
}

/// Adds the row where its number is that of a new group.
fn add_first(left: &mut Rows, number: usize, row: Row) -> Result<(), OutOfMemory>
    requires { number ≡ place left.old row }
    ensures { OnOk result (left.new ≡ added left.old row) }
{
    if number == left.len() {
        left.push(row)?;
    }
    Ok(())
}
