//! The records of a catalog, in order by key.

ghost use Rattle.std.specs.Prelude.{◌≡◌, ◌<◌, [], length, IfOk, OnOk, IsTrue, map};
ghost use Rattle.std.specs.List.{flat_map, list_all};
ghost use Rattle.std.specs.List.Sorted.{IsPermutation};
ghost use Rattle.gql_eval.specs.StableSort.{stably_sorted};
ghost use Rattle.gql_graph.specs.Bare.{bare, bare_held};
ghost use Rattle.gql_type.specs.GraphTypes.{is_graph_type};
ghost use Rattle.gql_type.specs.SoundCatalog.{is_sound};
ghost use Rattle.gql_rowcode.specs.Records.{graph_type, node, edge};
ghost use Rattle.gql_rowcode.specs.StandFor.{graph_forms, catalog_forms, StandFor};
ghost use Rattle.gql_rowcode.specs.Machinery.Writing.{SayAlso, key_before};

use crate::writing_elements::{edge_record, node_record};
use crate::writing_parts::{graph_record, type_record, version_record};
use gql_graph::{Catalog, Graph, GraphType, Held};
use gql_ports::{Record, Records};
use gql_values3::{OutOfMemory, Text};
use std::alloc::Global;

/// The records that the catalog is kept as. Takes a sort of them.
pub fn records(alloc: Global, catalog: &Catalog) -> Result<Records, OutOfMemory>
    requires { IsTrue (is_sound catalog.now) }
    // never none, which would stand for the initial catalog
    ensures some { IfOk result (λ records. 0 < length records) }
    ensures stand { IfOk result (λ records. StandFor records catalog.now) }
{
    let all = said(alloc, catalog)?;
    let sorted = in_order(all)?;
    Ok(Records::from_vec(sorted).unwrap())
}

/// The records in order by key.
fn in_order(records: Vec<Record>) -> Result<Vec<Record>, OutOfMemory>
    ensures same { IfOk result (λ sorted. IsPermutation records.items sorted.items) }
    ensures order { IfOk result (λ sorted. sorted.items ≡ stably_sorted key_before records.items) }
{
    let mut all = records;
    all.sort_by(|a, b| a.key.as_slice().cmp(b.key.as_slice()))?;
    Ok(all)
}

/// What is said of the catalog, in its own order.
fn said(alloc: Global, catalog: &Catalog) -> Result<Vec<Record>, OutOfMemory>
    requires { IsTrue (is_sound catalog.now) }
    ensures { IfOk result (λ all. SayAlso (catalog_forms catalog.now) [] all.items) }
{
    let mut all = Vec::new(alloc);
    all.push(version_record(alloc)?)?;
    put_types(alloc, &mut all, catalog.types())?;
    put_graphs(alloc, &mut all, catalog.graphs())?;
    Ok(all)
}

fn put_types(
    alloc: Global,
    out: &mut Vec<Record>,
    types: &[(Text, GraphType)],
) -> Result<(), OutOfMemory>
    requires { IsTrue (list_all (λ t. is_graph_type t.1) types.now) }
    ensures { OnOk result (SayAlso (map (λ t. graph_type t.0 t.1) types.now) out.old.items out.new.items) }
{
    for named in types {
        out.push(type_record(alloc, named.0.as_str(), &named.1)?)?;
    }
    Ok(())
}

fn put_graphs(
    alloc: Global,
    out: &mut Vec<Record>,
    graphs: &[(Text, Held)],
) -> Result<(), OutOfMemory>
    ensures { OnOk result (SayAlso (flat_map graph_forms (map bare graphs.now)) out.old.items out.new.items) }
{
    for named in graphs {
        put_graph(alloc, out, named.0.as_str(), &named.1)?;
    }
    Ok(())
}

fn put_graph(
    alloc: Global,
    out: &mut Vec<Record>,
    name: &str,
    held: &Held,
) -> Result<(), OutOfMemory>
    ensures { OnOk result (SayAlso (graph_forms (name.now, bare_held held.now)) out.old.items out.new.items) }
{
    out.push(graph_record(alloc, name, held)?)?;
    put_nodes(alloc, out, name, &held.graph)?;
    put_edges(alloc, out, name, &held.graph)
}

fn put_nodes(
    alloc: Global,
    out: &mut Vec<Record>,
    name: &str,
    graph: &Graph,
) -> Result<(), OutOfMemory>
    ensures { OnOk result (SayAlso (map (node name.now) graph.now.graph.nodes) out.old.items out.new.items) }
{
    // The count's clause says that the graph is one.
    let _count = graph.count_nodes();
    let nodes = graph.nodes();
    for element in nodes {
        out.push(node_record(alloc, name, element)?)?;
    }
    Ok(())
}

fn put_edges(
    alloc: Global,
    out: &mut Vec<Record>,
    name: &str,
    graph: &Graph,
) -> Result<(), OutOfMemory>
    ensures { OnOk result (SayAlso (map (edge name.now) graph.now.graph.edges) out.old.items out.new.items) }
{
    // The count's clause says that the graph is one.
    let _count = graph.count_nodes();
    let edges = graph.edges();
    for element in edges {
        out.push(edge_record(alloc, name, element)?)?;
    }
    Ok(())
}
