//! Groups of rows of equal keys, as they grow row by row. Of a row nothing stays but what the aggregates of its group
//! keep.

ghost use Rattle.std.specs.Prelude.{◌≡◌, map, IfOk, OnOk};
ghost use Rattle.gql_values3.specs.Meaning.{datum_of};
ghost use Rattle.gql_eval.specs.Gives.{Gives};
ghost use Rattle.gql_table.specs.Machinery.Places.{place};
ghost use Rattle.gql_table.specs.Machinery.Running.{all_at_start, stood_keys, with_stood, joined_stood, first_stood, stood_behind, opened_stood};
ghost use Rattle.gql_table.specs.Machinery.GroupMeaning.{group_meant};
ghost use Rattle.gql_table.specs.Machinery.RowKeys.{HasKeys};

use crate::grouping::Grouping;
use crate::new_group::{Group, new_group};
use crate::notes::noted_row;
use crate::prepared_items::{PreparedItem, any_key};
use crate::row_key::RowKey;
use crate::running::go_on_by_row;
use gql_eval::EvalError;
use gql_values3::{OutOfMemory, Row, Rows, Value, View};
use std::alloc::Global;
use std::collections::HashMap;

/// The groups of the rows, in the order of their first rows. Without keys there is one group, also over no rows. Each
/// key and each argument is evaluated once, row by row and item by item. Takes one look-up by a hash for each row.
pub fn groups_of_rows<V: View>(grouping: &Grouping<V>, rows: Rows) -> Result<Vec<Group>, EvalError>
    ensures { Gives (λ groups. map group_meant groups.items) result (stood_behind (V.graph grouping.now.view.now) (first_stood grouping.now.items.now) grouping.now.items.now rows) }
{
    let alloc = grouping.alloc;
    let items = grouping.items;
    let mut seen: HashMap<RowKey, usize> = HashMap::new(alloc);
    let mut groups: Vec<Group> = Vec::new(alloc);
    open_first(alloc, items, &mut seen, &mut groups)?;
    for row in rows.into_vec() {
        let (key, arguments) = noted_row(grouping, row.as_slice())?;
        join_group(
            alloc,
            items,
            &mut seen,
            &mut groups,
            key,
            arguments.as_slice(),
        )?;
    }
    Ok(groups)
}

/// Begins the one group that there is without keys.
fn open_first(
    alloc: Global,
    items: &[PreparedItem],
    seen: &mut HashMap<RowKey, usize>,
    groups: &mut Vec<Group>,
) -> Result<(), OutOfMemory>
    requires { HasKeys seen.old (stood_keys (map group_meant groups.old.items)) }
    ensures groups { OnOk result (map group_meant groups.new.items ≡ opened_stood items.now (map group_meant groups.old.items)) }
    ensures seen { OnOk result (HasKeys seen.new (stood_keys (map group_meant groups.new.items))) }
{
    if any_key(items) {
        return Ok(());
    }
    group_number(alloc, items, seen, groups, Row::new(alloc))?;
    Ok(())
}

/// A row's arguments join the group of its key. A new group stands behind the others.
fn join_group(
    alloc: Global,
    items: &[PreparedItem],
    seen: &mut HashMap<RowKey, usize>,
    groups: &mut Vec<Group>,
    key: Row,
    arguments: &[Value],
) -> Result<(), OutOfMemory>
    requires { HasKeys seen.old (stood_keys (map group_meant groups.old.items)) }
    ensures groups { OnOk result (map group_meant groups.new.items ≡ joined_stood (all_at_start items.now) (map group_meant groups.old.items) key (map datum_of arguments.now)) }
    ensures seen { OnOk result (HasKeys seen.new (stood_keys (map group_meant groups.new.items))) }
{
    let number = group_number(alloc, items, seen, groups, key)?;
    go_on_by_row(alloc, &mut groups[number].states, arguments)?;
    Ok(())
}

/// The number of the key's group, which is opened where there is none.
fn group_number(
    alloc: Global,
    items: &[PreparedItem],
    seen: &mut HashMap<RowKey, usize>,
    groups: &mut Vec<Group>,
    key: Row,
) -> Result<usize, OutOfMemory>
    requires { HasKeys seen.old (stood_keys (map group_meant groups.old.items)) }
    ensures number { IfOk result (λ number. number ≡ place (stood_keys (map group_meant groups.old.items)) key) }
    ensures groups { OnOk result (map group_meant groups.new.items ≡ with_stood (all_at_start items.now) (map group_meant groups.old.items) key) }
    ensures seen { OnOk result (HasKeys seen.new (stood_keys (map group_meant groups.new.items))) }
{
    let key = RowKey { row: key };
    match seen.get(&key) {
        Some(number) => Ok(*number),
        None => {
            let number = groups.len();
            groups.push(new_group(alloc, items, &key.row)?)?;
            seen.insert(key, number)?;
            Ok(number)
        }
    }
}
