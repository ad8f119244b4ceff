//! The first of equal values.

ghost use Rattle.std.specs.Prelude.{◌≡◌, map, not, cond, true, IfOk, OnOk};
ghost use Rattle.std.specs.List.{list_any};
ghost use Rattle.std.specs.Ordering.{is_eq, on};
ghost use Rattle.std.specs.BTreeSet.{contains};
ghost use Rattle.gql_values3.specs.Meaning.{datum_of};
ghost use Rattle.gql_values3.specs.ValueOrder.{datum_cmp};
ghost use Rattle.gql_ast.specs.Aggregates.{distinct};
ghost use Rattle.gql_eval.specs.declared.ranked.Ranked.{Ranked};
ghost use Rattle.gql_eval.specs.Machinery.Ranked.{ranked_datum};

use crate::ranked::Ranked;
use gql_values3::{OutOfMemory, Value};
use std::alloc::Global;
use std::collections::BTreeSet;

/// The first of equal values, in their order. Takes n log n comparisons.
pub fn distinct_values<'a>(
    alloc: Global,
    values: &[&'a Value],
) -> Result<Vec<&'a Value>, OutOfMemory>
    ensures { IfOk result (λ left. map (λ v. datum_of v.now) left.items ≡ distinct (map (λ v. datum_of v.now) values.now)) }
{
    let mut seen: BTreeSet<Ranked<'a>> = BTreeSet::new(alloc);
    let mut left = Vec::new(alloc);
    for i in 0..values.len() {
        let value = values[i];
        if seen.insert(Ranked { value })? {
            left.push(value)?;
        }
    }
    Ok(left)
}
