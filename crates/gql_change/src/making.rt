//! The elements of an INSERT, row by row.

ghost use Rattle.gql_change.specs.Machinery.Makes.{Makes};
ghost use Rattle.gql_change.specs.Machinery.InsertByPlaces.{insert_line, insert_lines, insert_path, insert_paths};

use crate::insert_state::InsertState;
use crate::making_fault::MakingFault;
use crate::new_edge::make_step;
use crate::new_node::make_node;
use crate::remaining::Remaining;
use crate::row_spots::Line;
use gql_ast::InsertPath;
use gql_values3::{Row, Rows, Sequence};
use std::alloc::Global;
use std::mem;

/// Makes the elements of all rows; answers the rows with their new cells.
pub fn make_lines(
    alloc: Global,
    state: &mut InsertState,
    paths: &[InsertPath],
    lines: Sequence<Line>,
) -> Result<Rows, MakingFault>
    ensures { Makes (λ rows. (state.new, rows)) result (insert_lines paths.now lines state.old) }
{
    let mut rows = Rows::new(alloc);
    for line in lines.into_vec() {
        let row = make_line(alloc, state, paths, line)?;
        rows.push(row)?;
    }
    Ok(rows)
}

/// Makes the elements of a row; answers the row with its new cells.
fn make_line(
    alloc: Global,
    state: &mut InsertState,
    paths: &[InsertPath],
    line: Line,
) -> Result<Row, MakingFault>
    ensures { Makes (λ row. (state.new, row)) result (insert_line paths.now line state.old) }
{
    let Line { row, spots } = line;
    state.row = row;
    state.spots = Remaining::of(spots);
    make_paths(alloc, state, paths)?;
    Ok(mem::replace(&mut state.row, Row::new(alloc)))
}

fn make_paths(
    alloc: Global,
    state: &mut InsertState,
    paths: &[InsertPath],
) -> Result<(), MakingFault>
    ensures { Makes (λ _. state.new) result (insert_paths paths.now state.old) }
{
    for i in 0..paths.len() {
        make_path(alloc, state, &paths[i])?;
    }
    Ok(())
}

fn make_path(alloc: Global, state: &mut InsertState, path: &InsertPath) -> Result<(), MakingFault>
    ensures { Makes (λ _. state.new) result (insert_path path.now state.old) }
{
    let mut at = make_node(alloc, state, &path.start)?;
    let steps = path.steps.as_slice();
    for i in 0..steps.len() {
        at = make_step(alloc, state, &steps[i], at)?;
    }
    Ok(())
}
