//! What each row says of the spots of an INSERT, by the graph before the clause.

ghost use Rattle.std.specs.Prelude.{◌≡◌, []};
ghost use Rattle.gql_values3.specs.Meaning.{datum_of};
ghost use Rattle.gql_ast.specs.ElementTests.{element_in};
ghost use Rattle.gql_ast.specs.Faults.{each};
ghost use Rattle.gql_eval.specs.Gives.{Gives};
ghost use Rattle.gql_eval.specs.Machinery.Next.{next};
ghost use Rattle.gql_change.specs.Insertion.{node_there};
ghost use Rattle.gql_change.specs.Machinery.PreparedSpots.{line_in, spot_in};
ghost use Rattle.gql_change.specs.Machinery.Roles.{datum_at};

use crate::given_properties::given_properties;
use crate::prepared_spot::PreparedSpot;
use crate::row_spots::{Line, Spot};
use gql_ast::DataFault;
use gql_eval::EvalError;
use gql_values3::{Row, Rows, Sequence, Value, View};
use std::alloc::Global;

/// What the rows say, in order, or the first fault.
pub fn lines_of<V: View>(
    alloc: Global,
    view: &V,
    rows: Rows,
    spots: &[PreparedSpot],
) -> Result<Sequence<Line>, EvalError>
    ensures { Gives (λ ls. ls) result (each (line_in spots.now (V.graph view.now)) rows) }
{
    let mut lines = Sequence::new(alloc);
    for row in rows.into_vec() {
        let line = line_of(alloc, view, row, spots)?;
        lines.push(line)?;
    }
    Ok(lines)
}

/// The row, with what it says of each spot.
fn line_of<V: View>(
    alloc: Global,
    view: &V,
    row: Row,
    spots: &[PreparedSpot],
) -> Result<Line, EvalError>
    ensures { Gives (λ l. l) result (line_in spots.now (V.graph view.now) row) }
{
    let spots = spots_of(alloc, view, &row, spots)?;
    Ok(Line { row, spots })
}

fn spots_of<V: View>(
    alloc: Global,
    view: &V,
    row: &Row,
    asked: &[PreparedSpot],
) -> Result<Sequence<Spot>, EvalError>
    ensures { Gives (λ ss. ss) result (each (λ p. spot_in p (V.graph view.now) row.now) asked.now) }
{
    let mut spots = Sequence::new(alloc);
    for i in 0..asked.len() {
        let spot = spot_of(alloc, view, row, &asked[i])?;
        spots.push(spot)?;
    }
    Ok(spots)
}

fn spot_of<V: View>(
    alloc: Global,
    view: &V,
    row: &Row,
    asked: &PreparedSpot,
) -> Result<Spot, EvalError>
    ensures { Gives (λ s. s) result (spot_in asked.now (V.graph view.now) row.now) }
{
    match asked {
        PreparedSpot::Incoming(place) => {
            look_at(view, row, *place)?;
            Ok(Spot::Refers(*place))
        }
        PreparedSpot::Refers(place) => Ok(Spot::Refers(*place)),
        PreparedSpot::New { named, properties } => {
            let properties = given_properties(alloc, view, row, properties.as_slice())?;
            Ok(Spot::New {
                named: *named,
                properties,
            })
        }
    }
}

/// Looks at the node of a column.
fn look_at<V: View>(view: &V, row: &Row, place: usize) -> Result<(), EvalError>
    ensures { Gives (λ _. []) result (next (element_in (V.graph view.now) (datum_at row.now place)) (node_there (V.graph view.now) [] [] [])) }
{
    let row = row.as_slice();
    if place >= row.len() {
        return Err(EvalError::Fault(DataFault::WrongKind));
    }
    node_there(view, &row[place])
}

/// The value must be a node that is in the graph.
fn node_there<V: View>(view: &V, value: &Value) -> Result<(), EvalError>
    ensures { Gives (λ _. []) result (next (element_in (V.graph view.now) (datum_of value.now)) (node_there (V.graph view.now) [] [] [])) }
{
    match value {
        Value::Node(node) => {
            if view.has_node(*node) {
                Ok(())
            } else {
                Err(EvalError::Fault(DataFault::Deleted))
            }
        }
        Value::Edge(edge) => {
            if view.ends(*edge).is_some() {
                Err(EvalError::Fault(DataFault::WrongKind))
            } else {
                Err(EvalError::Fault(DataFault::Deleted))
            }
        }
        _ => Err(EvalError::Fault(DataFault::WrongKind)),
    }
}
