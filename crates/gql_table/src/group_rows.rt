//! The output rows of a grouped RETURN, one for each group.

ghost use Rattle.std.specs.Prelude.{◌≡◌, map, length, drop, IfOk};
ghost use Rattle.std.specs.List.{AllByRecursion};
ghost use Rattle.gql_values3.specs.Meaning.{datum_of};
ghost use Rattle.gql_ast.specs.Faults.{each};
ghost use Rattle.gql_eval.specs.Gives.{Gives};
ghost use Rattle.gql_table.specs.Sorting.{first_key};
ghost use Rattle.gql_table.specs.Machinery.GroupPlan.{values_in_group, result_count};
ghost use Rattle.gql_table.specs.Machinery.Running.{row_of_stood, Wide};
ghost use Rattle.gql_table.specs.Machinery.GroupMeaning.{group_meant};

use crate::group_results::group_results;
use crate::grouping::Grouping;
use crate::new_group::Group;
use crate::prepared::prepared_cell;
use crate::room::empty_row;
use crate::sorting::value_at;
use gql_eval::EvalError;
use gql_values3::{OutOfMemory, Row, Rows, Value, View};
use std::alloc::Global;

/// The row of each group.
pub fn group_rows<V: View>(grouping: &Grouping<V>, groups: &[Group]) -> Result<Rows, EvalError>
    requires wide { AllByRecursion (Wide grouping.now.items.now) (map group_meant groups.now) }
    ensures { Gives (λ r. r) result (each (row_of_stood (V.graph grouping.now.view.now) grouping.now.items.now) (map group_meant groups.now)) }
{
    let mut done = Rows::new(grouping.alloc);
    for i in 0..groups.len() {
        done.push(group_row(grouping, &groups[i])?)?;
    }
    Ok(done)
}

/// All results come before the items around them.
fn group_row<V: View>(grouping: &Grouping<V>, group: &Group) -> Result<Row, EvalError>
    requires wide { Wide grouping.now.items.now (group_meant group.now) }
    ensures { Gives (λ r. r) result (row_of_stood (V.graph grouping.now.view.now) grouping.now.items.now (group_meant group.now)) }
{
    let results = group_results(grouping.alloc, group.states.as_slice())?;
    item_values(grouping, group.key.as_slice(), results.as_slice())
}

/// The values of the items, of a group's key and its results.
fn item_values<V: View>(
    grouping: &Grouping<V>,
    keys: &[Value],
    results: &[Value],
) -> Result<Row, EvalError>
    requires { length results.now ≡ result_count grouping.now.items.now }
    ensures { Gives (λ r. r) result (values_in_group (V.graph grouping.now.view.now) grouping.now.items.now (map datum_of keys.now) (map datum_of results.now)) }
{
    let items = grouping.items;
    let mut values = empty_row(grouping.alloc, items.len())?;
    let mut key = 0;
    let mut from = 0;
    for i in 0..items.len() {
        let item = &items[i];
        if item.is_key() {
            values.push(key_value(grouping.alloc, keys, key)?)?;
            key += 1;
        } else {
            let past = from + item.width();
            let part = &results[from..past];
            values.push(prepared_cell(grouping.alloc, grouping.view, item.whole(), part)?)?;
            from = past;
        }
    }
    Ok(values)
}

fn key_value(alloc: Global, keys: &[Value], place: usize) -> Result<Value, OutOfMemory>
    ensures { IfOk result (λ value. datum_of value ≡ first_key (drop place (map datum_of keys.now))) }
{
    let none = Value::Null;
    value_at(keys, place, &none).try_copy(alloc)
}
