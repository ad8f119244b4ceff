//! A graph in layers.

use crate::graph_maker::GraphMaker;
use gql_values3::OutOfMemory;
use std::alloc::Global;

/// How many nodes each layer has but the first.
const WIDTH: u32 = 10;

/// How many layers there are behind the first.
const BEHIND: u32 = 4;

/// So many nodes labelled `First`, and behind them four layers of ten nodes, the last of which are labelled `Last`. From each
/// node an edge leads to each node of the next layer, so that 10,000 paths lead from a first node to a last one.
pub fn layers(alloc: Global, maker: &mut GraphMaker, size: u32) -> Result<(), OutOfMemory> {
    for _ in 0..size {
        maker.node(alloc, true, false)?;
    }
    for layer in 1..=BEHIND {
        for _ in 0..WIDTH {
            maker.node(alloc, false, layer == BEHIND)?;
        }
    }
    between(alloc, maker, 0, size, size)?;
    for layer in 1..BEHIND {
        let before = size.saturating_add(WIDTH.saturating_mul(layer.saturating_sub(1)));
        between(alloc, maker, before, WIDTH, before.saturating_add(WIDTH))?;
    }
    Ok(())
}

/// Edges from each of so many nodes behind a number to each of ten nodes behind another number.
fn between(
    alloc: Global,
    maker: &mut GraphMaker,
    before: u32,
    count: u32,
    next: u32,
) -> Result<(), OutOfMemory> {
    for source in 1..=count {
        for target in 1..=WIDTH {
            maker.edge(
                alloc,
                before.saturating_add(source),
                next.saturating_add(target),
            )?;
        }
    }
    Ok(())
}
