//! The groups of equal rows, numbered by their first rows.

ghost use Rattle.std.specs.Prelude.{◌≡◌, [], map, IfOk, OnOk};
ghost use Rattle.gql_table.specs.Machinery.Places.{place, added, places};
ghost use Rattle.gql_table.specs.Machinery.Ranked.{HasPlaces};

use crate::ranked::Ranked;
use gql_values3::{OutOfMemory, Row};
use std::alloc::Global;
use std::collections::BTreeMap;

/// The number of each row's group: how many rows of other kinds stood first of their kind before its first one.
/// Takes n log n comparisons.
pub fn group_numbers(alloc: Global, rows: &[Row]) -> Result<Vec<usize>, OutOfMemory>
    ensures { IfOk result (λ numbers. numbers.items ≡ places [] rows.now) }
{
    let mut seen: BTreeMap<Ranked, usize> = BTreeMap::new(alloc);
    let mut firsts: Vec<&Row> = Vec::new(alloc);
    let mut numbers = Vec::new(alloc);
    for i in 0..rows.len() {
        let row = &rows[i];
        let number = number_of(&mut seen, &mut firsts, row)?;
        numbers.push(number)?;
    }
    Ok(numbers)
}

/// The number of the row's group. The first row of a group joins those that are seen.
fn number_of<'a>(
    seen: &mut BTreeMap<Ranked<'a>, usize>,
    firsts: &mut Vec<&'a Row>,
    row: &'a Row,
) -> Result<usize, OutOfMemory>
    requires { HasPlaces seen.old (map (λ r. r.now) firsts.old.items) }
    ensures number { IfOk result (λ number. number ≡ place (map (λ r. r.now) firsts.old.items) row.now) }
    ensures firsts { OnOk result (map (λ r. r.now) firsts.new.items ≡ added (map (λ r. r.now) firsts.old.items) row.now) }
    ensures seen { OnOk result (HasPlaces seen.new (map (λ r. r.now) firsts.new.items)) }
{
    match seen.get(&Ranked { row }) {
        Some(number) => Ok(*number),
        None => {
            let number = firsts.len();
            seen.insert(Ranked { row }, number)?;
            firsts.push(row)?;
            Ok(number)
        }
    }
}
