//! What is noted of a row, before a grouped RETURN looks at its group: the values of keys, and the arguments of aggregates.

ghost use Rattle.std.specs.Prelude.{[], ◌++◌, map, Ok};
ghost use Rattle.gql_values3.specs.Meaning.{datum_of};
ghost use Rattle.gql_ast.specs.Faults.{each};
ghost use Rattle.gql_eval.specs.Gives.{Gives};
ghost use Rattle.gql_eval.specs.Machinery.Next.{next};
ghost use Rattle.gql_table.specs.Machinery.Preparations.{prepared_value};
ghost use Rattle.gql_table.specs.Machinery.GroupPlan.{kept_behind};

use crate::grouping::Grouping;
use crate::prepared::prepared_cell;
use crate::room::empty_row;
use gql_eval::{EvalError, Prepared};
use gql_values3::{Row, Value, View};

/// The keys of a row, and the arguments. Each value is evaluated once, item by item.
pub fn noted_row<V: View>(grouping: &Grouping<V>, row: &[Value]) -> Result<(Row, Row), EvalError>
    ensures { Gives (λ t. (t.0, t.1)) result (kept_behind (V.graph grouping.now.view.now) ([], []) grouping.now.items.now (map datum_of row.now)) }
{
    let items = grouping.items;
    let mut keys = empty_row(grouping.alloc, items.len())?;
    let mut arguments = empty_row(grouping.alloc, items.len())?;
    for i in 0..items.len() {
        let item = &items[i];
        if item.is_key() {
            add_values(grouping, item.noted(), row, &mut keys)?;
        } else {
            add_values(grouping, item.noted(), row, &mut arguments)?;
        }
    }
    Ok((keys, arguments))
}

/// Adds the values of prepared expressions in a row.
fn add_values<V: View>(
    grouping: &Grouping<V>,
    prepared: &[Prepared],
    row: &[Value],
    values: &mut Row,
) -> Result<(), EvalError>
    ensures { Gives (λ u. values.new) result (next (each (λ p. prepared_value (V.graph grouping.now.view.now) p (map datum_of row.now)) prepared.now) (λ ds. Ok (values.old ++ ds))) }
{
    for i in 0..prepared.len() {
        let value = prepared_cell(grouping.alloc, grouping.view, &prepared[i], row)?;
        values.push(value)?;
    }
    Ok(())
}
