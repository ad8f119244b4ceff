//! Square grids.

use crate::graph_maker::GraphMaker;
use crate::graphs::line_of_nodes;
use gql_values3::OutOfMemory;
use std::alloc::Global;

/// So many rows of so many nodes, numbered row by row, with edges to the right and down, and where it is asked for also both at
/// once. The first corner is labelled `First`, and the one across from it `Last`.
pub fn grid(
    alloc: Global,
    maker: &mut GraphMaker,
    size: u32,
    has_diagonals: bool,
) -> Result<(), OutOfMemory> {
    line_of_nodes(alloc, maker, size.saturating_mul(size))?;
    for row in 1..=size {
        for column in 1..=size {
            edges_from(alloc, maker, Spot { row, column, size }, has_diagonals)?;
        }
    }
    Ok(())
}

/// A row and a column of a grid, both from 1.
#[derive(Clone, Copy)]
struct Spot {
    row: u32,
    column: u32,
    size: u32,
}

fn edges_from(
    alloc: Global,
    maker: &mut GraphMaker,
    spot: Spot,
    has_diagonals: bool,
) -> Result<(), OutOfMemory> {
    let rows_before = spot.row.saturating_sub(1).saturating_mul(spot.size);
    let number = rows_before.saturating_add(spot.column);
    let right = number.saturating_add(1);
    let down = number.saturating_add(spot.size);
    if spot.column < spot.size {
        maker.edge(alloc, number, right)?;
    }
    if spot.row < spot.size {
        maker.edge(alloc, number, down)?;
    }
    if has_diagonals && spot.column < spot.size && spot.row < spot.size {
        maker.edge(alloc, number, down.saturating_add(1))?;
    }
    Ok(())
}
