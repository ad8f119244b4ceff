//! The graphs that are searched.

use crate::graph_maker::GraphMaker;
use crate::grids::grid;
use crate::layers::layers;
use anyhow::{Result, bail};
use gql_graph::Graph;
use gql_values3::OutOfMemory;
use std::alloc::Global;

/// The graph of that name and size: `ring`, one ring of so many nodes; `rings`, ten of them; `mesh`, so many nodes with three
/// edges each; `layers`, `grid` and `diagonals` as their makers say; `worked`, of three nodes and four edges.
pub fn graph_of(alloc: Global, name: &str, size: u32) -> Result<Graph> {
    if size == 0 || size > 1_000_000 {
        bail!("a size from 1 to 1,000,000 is wanted");
    }
    let mut maker = GraphMaker::new(alloc);
    let made = match name {
        "ring" => rings(alloc, &mut maker, 1, size),
        "rings" => rings(alloc, &mut maker, 10, size),
        "mesh" => mesh(alloc, &mut maker, size),
        "layers" => layers(alloc, &mut maker, size),
        "grid" => grid(alloc, &mut maker, size, false),
        "diagonals" => grid(alloc, &mut maker, size, true),
        "worked" => worked(alloc, &mut maker),
        _ => bail!("no such graph"),
    };
    if made.is_err() {
        bail!("no memory for the graph");
    }
    match maker.graph() {
        Some(graph) => Ok(graph),
        None => bail!("it is no graph"),
    }
}

/// So many nodes, of which the first is labelled `First` and the last one `Last`.
pub fn line_of_nodes(alloc: Global, maker: &mut GraphMaker, count: u32) -> Result<(), OutOfMemory> {
    for number in 1..=count {
        maker.node(alloc, number == 1, number == count)?;
    }
    Ok(())
}

/// Rings of so many edges.
fn rings(alloc: Global, maker: &mut GraphMaker, count: u32, size: u32) -> Result<(), OutOfMemory> {
    line_of_nodes(alloc, maker, count.saturating_mul(size))?;
    for ring in 0..count {
        let before = ring.saturating_mul(size);
        for place in 1..=size {
            let next = if place == size {
                1
            } else {
                place.saturating_add(1)
            };
            maker.edge(
                alloc,
                before.saturating_add(place),
                before.saturating_add(next),
            )?;
        }
    }
    Ok(())
}

/// Three edges from each node to nodes far apart.
fn mesh(alloc: Global, maker: &mut GraphMaker, size: u32) -> Result<(), OutOfMemory> {
    line_of_nodes(alloc, maker, size)?;
    for source in 1..=size {
        for turn in 0..3u32 {
            let far = source
                .wrapping_mul(7919)
                .wrapping_add(turn.wrapping_mul(104_729));
            let target = far.checked_rem(size).unwrap_or(0).saturating_add(1);
            maker.edge(alloc, source, target)?;
        }
    }
    Ok(())
}

/// The nodes 1 to 3, and the edges from 1 to 2, from 2 to 1, from 2 to 3 and from 3 to 1.
fn worked(alloc: Global, maker: &mut GraphMaker) -> Result<(), OutOfMemory> {
    line_of_nodes(alloc, maker, 3)?;
    maker.edge(alloc, 1, 2)?;
    maker.edge(alloc, 2, 1)?;
    maker.edge(alloc, 2, 3)?;
    maker.edge(alloc, 3, 1)
}
