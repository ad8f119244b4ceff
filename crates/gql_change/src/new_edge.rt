//! An edge of an INSERT, and the node to which it leads.

ghost use Rattle.std.specs.Prelude.{◌≡◌, ◌+◌, IfOk, OnOk};
ghost use Rattle.gql_change.specs.Insertion.{ends_between};
ghost use Rattle.gql_change.specs.Machinery.Makes.{Makes};
ghost use Rattle.gql_change.specs.Machinery.InsertByPlaces.{edge_added, edge_begun, edge_record, first_spot, gives_column, longer_row, properties_given, insert_step};

use crate::filling::{label_set, property_set};
use crate::insert_state::InsertState;
use crate::making_fault::MakingFault;
use crate::new_node::{is_used_up, make_node, push_if};
use crate::row_spots::Spot;
use gql_ast::{Arrow, ElemKind, Fill, InsertStep};
use gql_graph::Change;
use gql_values3::{EdgeId, EdgeRecord, Ends, NodeId, OutOfMemory, Properties, Value};
use std::alloc::Global;

/// The edge and the node of a step behind a node. The edge takes its number first, and joins the changes last.
pub fn make_step(
    alloc: Global,
    state: &mut InsertState,
    step: &InsertStep,
    before: u32,
) -> Result<u32, MakingFault>
    ensures { Makes (λ n. (state.new, n)) result (insert_step step.now (state.old, before)) }
{
    let number = state.next_edge;
    if is_used_up(number) {
        return Err(MakingFault::Full(ElemKind::Edge));
    }
    let properties = begin_edge(alloc, state)?;
    let after = make_node(alloc, state, &step.node)?;
    let ends = ends_between(step.arrow, before, after);
    let record = edge_record(alloc, number, &step.edge, ends, properties)?;
    add_edge(state, record, number + 1)?;
    Ok(after)
}

/// Takes the spot of an edge, whose number goes into the row where it has a column; answers its properties.
fn begin_edge(alloc: Global, state: &mut InsertState) -> Result<Properties, OutOfMemory>
    ensures { IfOk result (λ ps. (ps ≡ properties_given (first_spot state.old.spots)) × (state.new ≡ edge_begun state.old)) }
{
    let (named, properties) = parts_of(alloc, state.spots.next());
    let edge = Value::Edge(EdgeId(state.next_edge));
    push_if(&mut state.row, named, edge)?;
    Ok(properties)
}

fn parts_of(alloc: Global, spot: Spot) -> (bool, Properties)
    ensures named { result.0 ≡ gives_column spot }
    ensures properties { result.1 ≡ properties_given spot }
{
    match spot {
        Spot::Refers(_) => (false, Properties::new(alloc)),
        Spot::New { named, properties } => (named, properties),
    }
}

fn add_edge(state: &mut InsertState, edge: EdgeRecord, next: u32) -> Result<(), OutOfMemory>
    ensures { OnOk result (state.new ≡ edge_added edge next state.old) }
{
    state.changes.push(Change::NewEdge(edge))?;
    state.next_edge = next;
    Ok(())
}

fn edge_record(
    alloc: Global,
    number: u32,
    fill: &Fill,
    ends: Ends,
    properties: Properties,
) -> Result<EdgeRecord, OutOfMemory>
    ensures { IfOk result (λ r. r ≡ edge_record number fill.now ends properties) }
{
    let labels = label_set(alloc, &fill.labels)?;
    let properties = property_set(alloc, properties)?;
    Ok(EdgeRecord {
        number: EdgeId(number),
        ends,
        labels,
        properties,
    })
}

/// The ends of an edge between two nodes in the order of the text.
fn ends_between(arrow: Arrow, before: u32, after: u32) -> Ends
    ensures { result ≡ ends_between arrow before after }
{
    let before = NodeId(before);
    let after = NodeId(after);
    match arrow {
        Arrow::Right => Ends::Directed {
            source: before,
            target: after,
        },
        Arrow::Left => Ends::Directed {
            source: after,
            target: before,
        },
        Arrow::Undirected => {
            if before.0 <= after.0 {
                Ends::Undirected {
                    low: before,
                    high: after,
                }
            } else {
                Ends::Undirected {
                    low: after,
                    high: before,
                }
            }
        }
    }
}
