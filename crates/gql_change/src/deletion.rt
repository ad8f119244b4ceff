//! DELETE: the changes that take out what the rows name, or the refusal of an edge that would be left without its node.

ghost use Rattle.std.specs.Prelude.{◌≡◌, [], IfOk, map, reverse};
ghost use Rattle.gql_change.specs.Changing.{changed_by_deletion};
ghost use Rattle.gql_change.specs.Machinery.DeletionSteps.{Deletes, outs, edge_out, node_out};
ghost use Rattle.gql_change.specs.Plans.{Plans};

use crate::basis::Basis;
use crate::deleted_numbers::{deleted_edges, deleted_nodes};
use crate::fault::ChangeFault;
use crate::leftover::refusal_of;
use crate::naming::named_elements;
use gql_ast::Detachment;
use gql_graph::{Change, Changes};
use gql_values3::{EdgeId, Elem, NodeId, OutOfMemory, Rows, Text, View};
use std::alloc::Global;

/// The changes of a deletion: the named nodes and edges of all rows go together, with DETACH also the edges that touch
/// these nodes. NULL and what was deleted before is skipped. E20 where an edge that stays touches a node that goes: it
/// names the least such node, and the least such edge on it.
pub fn plan_delete<V: View>(
    basis: &Basis<V>,
    rows: &Rows,
    detachment: Detachment,
    names: &[Text],
) -> Result<Changes, ChangeFault>
    ensures { Plans (λ c. (c, rows.now)) (V.graph basis.now.view.now) result (changed_by_deletion (V.graph basis.now.view.now) [] basis.now.columns.now rows.now detachment names.now) }
{
    let named = named_elements(basis.alloc, basis.columns, rows, names)?;
    plan_of_named(basis.alloc, basis.view, named.as_slice(), detachment)
}

fn plan_of_named<V: View>(
    alloc: Global,
    view: &V,
    named: &[Elem],
    detachment: Detachment,
) -> Result<Changes, ChangeFault>
    ensures { Deletes detachment named.now (V.graph view.now) result }
{
    // What is looked at is a graph.
    let _count = view.node_count();
    let nodes = deleted_nodes(alloc, view, named)?;
    let edges = deleted_edges(alloc, view, named, &nodes, detachment)?;
    match refusal_of(view, &nodes, &edges, detachment) {
        Some(refusal) => Err(ChangeFault::Refused(refusal)),
        None => Ok(outs(alloc, &nodes, &edges)?),
    }
}

/// Edges are taken out before nodes, and each from the greatest number to the least, so that a list is cut from its end.
fn outs(alloc: Global, nodes: &[u32], edges: &[u32]) -> Result<Changes, OutOfMemory>
    ensures { IfOk result (λ changes. changes ≡ outs nodes.now edges.now) }
{
    let mut changes = edges_out(alloc, edges)?;
    changes.extend(nodes_out(alloc, nodes)?)?;
    Ok(changes)
}

fn edges_out(alloc: Global, edges: &[u32]) -> Result<Changes, OutOfMemory>
    ensures { IfOk result (λ changes. changes ≡ map edge_out (reverse edges.now)) }
{
    let mut changes = Changes::new(alloc);
    for i in (0..edges.len()).rev() {
        changes.push(Change::OutEdge(EdgeId(edges[i])))?;
    }
    Ok(changes)
}

fn nodes_out(alloc: Global, nodes: &[u32]) -> Result<Changes, OutOfMemory>
    ensures { IfOk result (λ changes. changes ≡ map node_out (reverse nodes.now)) }
{
    let mut changes = Changes::new(alloc);
    for i in (0..nodes.len()).rev() {
        changes.push(Change::OutNode(NodeId(nodes[i])))?;
    }
    Ok(changes)
}
