//! A group of rows of equal keys, at its beginning.

ghost use Rattle.std.specs.Prelude.{◌≡◌, ◌++◌, map, IfOk, OnOk};
ghost use Rattle.gql_table.specs.Machinery.AggregateMeaning.{aggregate_meant};
ghost use Rattle.gql_table.specs.Machinery.Running.{at_start, all_at_start};
ghost use Rattle.gql_table.specs.Machinery.GroupMeaning.{group_meant};
ghost use Rattle.gql_table.specs.Machinery.StandingMeaning.{standing_of};

use crate::prepared_items::PreparedItem;
use crate::room::copy_with_room;
use crate::row_aggregates::AggregateRef;
use crate::running::{Running, begin};
use gql_values3::{OutOfMemory, Row};
use std::alloc::Global;

/// The key of some rows, and what the aggregates of all items have come to over them.
#[derive(Drop)]
pub struct Group {
    pub key: Row,
    pub states: Vec<Running>,
}

/// A group of the key without rows.
pub fn new_group(alloc: Global, items: &[PreparedItem], key: &Row) -> Result<Group, OutOfMemory>
    ensures { IfOk result (λ group. group_meant group ≡ (key.now, all_at_start items.now)) }
{
    let states = begin_all(alloc, items)?;
    let key = copy_with_room(alloc, key, 0)?;
    Ok(Group { key, states })
}

/// The aggregates of all items over no rows.
fn begin_all(alloc: Global, items: &[PreparedItem]) -> Result<Vec<Running>, OutOfMemory>
    ensures { IfOk result (λ states. map standing_of states.items ≡ all_at_start items.now) }
{
    let mut states = Vec::new(alloc);
    for i in 0..items.len() {
        let item = &items[i];
        add_begun(alloc, item.aggregates(), &mut states)?;
    }
    Ok(states)
}

fn add_begun(
    alloc: Global,
    aggregates: &[AggregateRef],
    states: &mut Vec<Running>,
) -> Result<(), OutOfMemory>
    ensures { OnOk result (map standing_of states.new.items ≡ map standing_of states.old.items ++ map at_start (map aggregate_meant aggregates.now)) }
{
    for i in 0..aggregates.len() {
        states.push(begin(alloc, aggregates[i]))?;
    }
    Ok(())
}
