//! The spots of an INSERT, prepared once for all rows: which nodes are looked at, and expressions with their parameters.

ghost use Rattle.std.specs.Prelude.{◌≡◌, map, IfOk};
ghost use Rattle.gql_change.specs.Machinery.InRow.{named_preparation};
ghost use Rattle.gql_change.specs.Machinery.PreparedSpots.{asked_in, reference, spot_in};
ghost use Rattle.gql_change.specs.Machinery.Roles.{question_of};

use crate::prepared_property::{PreparedProperty, prepare_property};
use crate::role::Role;
use crate::spot_question::SpotQuestion;
use gql_ast::MapItem;
use gql_values3::{Columns, OutOfMemory, Params};
use std::alloc::Global;

/// What is asked of a row for a spot.
#[derive(Drop)]
pub enum PreparedSpot<'a> {
    /// The node of the incoming column of this place, which is looked at.
    Incoming(usize),
    /// The node of this clause that stands at this place, which is sure.
    Refers(usize),
    /// A new element with these properties.
    New {
        named: bool,
        properties: Vec<PreparedProperty<'a>>,
    },
}

/// Prepares the spots for the rows under some columns.
pub fn prepare_spots<'a>(
    alloc: Global,
    columns: &'a Columns,
    params: &'a Params,
    asked: &[SpotQuestion<'a>],
) -> Result<Vec<PreparedSpot<'a>>, OutOfMemory>
    ensures { IfOk result (λ all. map spot_in all.items ≡ map (asked_in columns.now params.now) (map question_of asked.now)) }
{
    let mut all = Vec::with_capacity(alloc, asked.len())?;
    for i in 0..asked.len() {
        all.push(prepare_spot(alloc, columns, params, asked[i])?)?;
    }
    Ok(all)
}

fn prepare_spot<'a>(
    alloc: Global,
    columns: &'a Columns,
    params: &'a Params,
    asked: SpotQuestion<'a>,
) -> Result<PreparedSpot<'a>, OutOfMemory>
    ensures { IfOk result (λ p. spot_in p ≡ asked_in columns.now params.now (question_of asked.entry)) }
{
    match asked.role {
        Role::Refers(place) => Ok(reference(columns, place)),
        Role::New { named } => {
            let properties = prepare_properties(alloc, columns, params, asked.items)?;
            Ok(PreparedSpot::New { named, properties })
        }
    }
}

/// A spot that refers to the node at a place: one of an incoming column, or one of this clause.
fn reference<'a>(columns: &Columns, place: usize) -> PreparedSpot<'a>
    ensures { result ≡ reference columns.now place }
{
    if place < columns.len() {
        PreparedSpot::Incoming(place)
    } else {
        PreparedSpot::Refers(place)
    }
}

/// Prepares the properties of a map.
fn prepare_properties<'a>(
    alloc: Global,
    columns: &'a Columns,
    params: &'a Params,
    items: &'a [MapItem],
) -> Result<Vec<PreparedProperty<'a>>, OutOfMemory>
    ensures { IfOk result (λ all. all.items ≡ map (λ i. named_preparation columns.now params.now i.name i.value) items.now) }
{
    let mut all = Vec::with_capacity(alloc, items.len())?;
    for i in 0..items.len() {
        let item = &items[i];
        all.push(prepare_property(alloc, columns.as_slice(), params, &item.name, &item.value)?)?;
    }
    Ok(all)
}
