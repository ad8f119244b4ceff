//! A node of an INSERT.

ghost use Rattle.std.specs.Prelude.{◌≡◌, IfOk, OnOk};
ghost use Rattle.gql_values3.specs.Datum.{Datum};
ghost use Rattle.gql_values3.specs.Meaning.{datum_of};
ghost use Rattle.gql_change.specs.Insertion.{is_used_up, node_number};
ghost use Rattle.gql_change.specs.Machinery.Makes.{Makes};
ghost use Rattle.gql_change.specs.Machinery.Roles.{datum_at};
ghost use Rattle.gql_change.specs.Machinery.InsertByPlaces.{longer_row, node_made, node_record, insert_node};

use crate::filling::{label_set, property_set};
use crate::insert_state::InsertState;
use crate::making_fault::MakingFault;
use crate::row_spots::Spot;
use gql_ast::{ElemKind, Fill};
use gql_graph::Change;
use gql_values3::{NodeId, NodeRecord, OutOfMemory, Properties, Row, Value};
use std::alloc::Global;

/// The node of the next spot: one that stands already, or a new one.
pub fn make_node(alloc: Global, state: &mut InsertState, fill: &Fill) -> Result<u32, MakingFault>
    ensures { Makes (λ n. (state.new, n)) result (insert_node fill.now state.old) }
{
    match state.spots.next() {
        Spot::Refers(place) => Ok(node_of_row(&state.row, place)),
        Spot::New { named, properties } => new_node(alloc, state, named, fill, properties),
    }
}

fn new_node(
    alloc: Global,
    state: &mut InsertState,
    named: bool,
    fill: &Fill,
    properties: Properties,
) -> Result<u32, MakingFault>
    ensures { Makes (λ n. (state.new, n)) result (node_made named fill.now properties state.old) }
{
    let number = state.next_node;
    if is_used_up(number) {
        return Err(MakingFault::Full(ElemKind::Node));
    }
    let record = node_record(alloc, number, fill, properties)?;
    state.changes.push(Change::NewNode(record))?;
    push_if(&mut state.row, named, Value::Node(NodeId(number)))?;
    state.next_node = number + 1;
    Ok(number)
}

fn node_record(
    alloc: Global,
    number: u32,
    fill: &Fill,
    properties: Properties,
) -> Result<NodeRecord, OutOfMemory>
    ensures { IfOk result (λ r. r ≡ node_record number fill.now properties) }
{
    let labels = label_set(alloc, &fill.labels)?;
    let properties = property_set(alloc, properties)?;
    Ok(NodeRecord {
        number: NodeId(number),
        labels,
        properties,
    })
}

/// No element gets the greatest number.
pub fn is_used_up(number: u32) -> bool
    ensures { result ≡ is_used_up number }
{
    u32::MAX <= number
}

/// Adds the value to the row, if there is a column for it.
pub fn push_if(row: &mut Row, named: bool, value: Value) -> Result<(), OutOfMemory>
    ensures { OnOk result (row.new ≡ longer_row named row.old (datum_of value)) }
{
    if named {
        row.push(value)?;
    }
    Ok(())
}

/// The number of the node that stands at a place of a row.
fn node_of_row(row: &Row, place: usize) -> u32
    ensures { result ≡ node_number (datum_at row.now place) }
{
    let row = row.as_slice();
    if place >= row.len() {
        return 0;
    }
    number_of_node(&row[place])
}

fn number_of_node(value: &Value) -> u32
    ensures { result ≡ node_number (datum_of value.now) }
{
    match value {
        Value::Node(node) => node.0,
        _ => 0,
    }
}
