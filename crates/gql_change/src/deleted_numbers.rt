//! The numbers of the nodes and edges that a deletion takes out.

ghost use Rattle.std.specs.Prelude.{◌≡◌, ℕ, ◌++◌, IfOk, OnOk};
ghost use Rattle.std.specs.List.{flat_map};
ghost use Rattle.gql_graph.specs.Edits.{has_edge};
ghost use Rattle.gql_change.specs.Machinery.DeletionSteps.{has_number, node_there, edge_there, touching_numbers, deleted_nodes, deleted_edges};
ghost use Rattle.gql_change.specs.Machinery.Rising.{IsRising};

use gql_ast::Detachment;
use gql_values3::{EdgeId, Elem, NodeId, OutOfMemory, View};
use std::alloc::Global;

/// The named nodes of the graph, each once, by ascending number.
pub fn deleted_nodes<V: View>(
    alloc: Global,
    view: &V,
    named: &[Elem],
) -> Result<Vec<u32>, OutOfMemory>
    ensures { IfOk result (λ nodes. nodes.items ≡ deleted_nodes named.now (V.graph view.now)) }
{
    // What is looked at is a graph, so no number stands twice.
    let _count = view.node_count();
    let nodes = nodes_there(alloc, view, named)?;
    Ok(each_once(nodes))
}

/// The edges that go with the named elements, each once, by ascending number.
pub fn deleted_edges<V: View>(
    alloc: Global,
    view: &V,
    named: &[Elem],
    nodes: &[u32],
    detachment: Detachment,
) -> Result<Vec<u32>, OutOfMemory>
    requires { nodes.now ≡ deleted_nodes named.now (V.graph view.now) }
    ensures edges { IfOk result (λ edges. edges.items ≡ deleted_edges detachment named.now (V.graph view.now)) }
    ensures rising { IfOk result (λ edges. IsRising edges.items) }
{
    let _count = view.node_count();
    let edges = match detachment {
        Detachment::NoDetach => edges_there(alloc, view, named)?,
        Detachment::Detach => edges_and_touching(alloc, view, named, nodes)?,
    };
    Ok(each_once(edges))
}

/// The named nodes that are in the graph, as they are named.
fn nodes_there<V: View>(alloc: Global, view: &V, named: &[Elem]) -> Result<Vec<u32>, OutOfMemory>
    ensures { IfOk result (λ nodes. nodes.items ≡ flat_map (node_there (V.graph view.now)) named.now) }
{
    let mut nodes = Vec::new(alloc);
    for elem in named {
        add_node(&mut nodes, view, *elem)?;
    }
    Ok(nodes)
}

fn add_node<V: View>(nodes: &mut Vec<u32>, view: &V, elem: Elem) -> Result<(), OutOfMemory>
    ensures { OnOk result (nodes.new.items ≡ nodes.old.items ++ node_there (V.graph view.now) elem) }
{
    if let Elem::Node(node) = elem {
        if view.has_node(node) {
            nodes.push(node.0)?;
        }
    }
    Ok(())
}

/// The named edges that are in the graph, as they are named.
fn edges_there<V: View>(alloc: Global, view: &V, named: &[Elem]) -> Result<Vec<u32>, OutOfMemory>
    ensures { IfOk result (λ edges. edges.items ≡ flat_map (edge_there (V.graph view.now)) named.now) }
{
    let mut edges = Vec::new(alloc);
    for elem in named {
        add_edge(&mut edges, view, *elem)?;
    }
    Ok(edges)
}

fn add_edge<V: View>(edges: &mut Vec<u32>, view: &V, elem: Elem) -> Result<(), OutOfMemory>
    ensures { OnOk result (edges.new.items ≡ edges.old.items ++ edge_there (V.graph view.now) elem) }
{
    if let Elem::Edge(edge) = elem {
        if has_edge(view, edge) {
            edges.push(edge.0)?;
        }
    }
    Ok(())
}

fn has_edge<V: View>(view: &V, edge: EdgeId) -> bool
    ensures { result ≡ has_edge (V.graph view.now) edge }
{
    match view.ends(edge) {
        Some(_) => true,
        None => false,
    }
}

/// The named edges, and those that touch the nodes.
fn edges_and_touching<V: View>(
    alloc: Global,
    view: &V,
    named: &[Elem],
    nodes: &[u32],
) -> Result<Vec<u32>, OutOfMemory>
    ensures { IfOk result (λ edges. edges.items ≡ flat_map (edge_there (V.graph view.now)) named.now ++ flat_map (touching_numbers (V.graph view.now)) nodes.now) }
{
    let mut edges = edges_there(alloc, view, named)?;
    add_all_touching(&mut edges, view, nodes)?;
    Ok(edges)
}

fn add_all_touching<V: View>(
    edges: &mut Vec<u32>,
    view: &V,
    nodes: &[u32],
) -> Result<(), OutOfMemory>
    ensures { OnOk result (edges.new.items ≡ edges.old.items ++ flat_map (touching_numbers (V.graph view.now)) nodes.now) }
{
    for node in nodes {
        add_touching(edges, view, *node)?;
    }
    Ok(())
}

/// Adds the edges that touch a node.
fn add_touching<V: View>(edges: &mut Vec<u32>, view: &V, node: u32) -> Result<(), OutOfMemory>
    ensures { OnOk result (edges.new.items ≡ edges.old.items ++ touching_numbers (V.graph view.now) node) }
{
    // What is looked at is a graph, so it has fewer edges than there are numbers.
    let _count = view.node_count();
    for i in 0..u32::MAX {
        match view.touching(NodeId(node), i) {
            Some(edge) => edges.push(edge.0)?,
            None => return Ok(()),
        }
    }
    Ok(())
}

/// The numbers in order, each once.
fn each_once(mut numbers: Vec<u32>) -> Vec<u32>
    ensures rising { IsRising result.items }
    ensures same { (n : ℕ) → has_number result.items n ≡ has_number numbers.items n }
{
    numbers.sort_unstable();
    numbers.dedup();
    numbers
}
