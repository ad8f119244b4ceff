//! What a store is told where one graph of a catalog is another: its elements beside those before, number by number.

ghost use Rattle.std.specs.Prelude.{◌≡◌, [], IfOk, OnOk, not, map, is_some, IsTrue};
ghost use Rattle.std.specs.List.{flat_map};
ghost use Rattle.std.specs.Option.{option_copied};
ghost use Rattle.gql_values3.specs.Lookup.{node_of, edge_of, has_node};
ghost use Rattle.gql_values3.specs.PropertyGraph.{are_properties};
ghost use Rattle.gql_values3.specs.Texts.{texts_ascend};
ghost use Rattle.gql_graph.specs.Bare.{bare_held};
ghost use Rattle.gql_graph.specs.Edits.{has_edge};
ghost use Rattle.gql_rowcode.specs.Records.{graph, node, edge};
ghost use Rattle.gql_rowcode.specs.Machinery.Writing.{SayAlso};
ghost use Rattle.gql_txn.specs.Machinery.Same.{same_numbers};
ghost use Rattle.gql_txn.specs.Machinery.GraphChanges.{is_node, is_edge, unless, new_forms, gone_forms, KeysAlso};

use crate::changes::Changes;
use crate::near::{edge_near, edge_place, node_near, node_place};
use crate::same::{same_edge, same_node, same_numbers};
use gql_graph::{Graph, Held};
use gql_ports::{Key, Record};
use gql_rowcode::{edge_key, edge_record, graph_record, node_key, node_record};
use gql_values3::{EdgeRecord, NodeRecord, OutOfMemory};
use std::alloc::Global;

/// What leads from the records of a catalog that has the graph before under this name to those of one that has the other.
pub fn graph_changes(
    alloc: Global,
    name: &str,
    before: &Graph,
    after: &Held,
) -> Result<Changes, OutOfMemory>
    ensures puts { IfOk result (λ all. SayAlso (new_forms name.now before.now.graph (bare_held after.now)) [] all.puts.items) }
    ensures drops { IfOk result (λ all. KeysAlso (gone_forms name.now before.now.graph (bare_held after.now)) [] all.drops.items) }
{
    Ok(Changes {
        puts: new_records(alloc, name, before, after)?,
        drops: gone_keys(alloc, name, before, after)?,
    })
}

/// The records of what is new or differs.
fn new_records(
    alloc: Global,
    name: &str,
    before: &Graph,
    after: &Held,
) -> Result<Vec<Record>, OutOfMemory>
    ensures { IfOk result (λ puts. SayAlso (new_forms name.now before.now.graph (bare_held after.now)) [] puts.items) }
{
    let mut puts = Vec::new(alloc);
    put_numbers(alloc, &mut puts, name, before, after)?;
    put_nodes(alloc, &mut puts, name, before, &after.graph)?;
    put_edges(alloc, &mut puts, name, before, &after.graph)?;
    Ok(puts)
}

/// The keys of the elements that are gone.
fn gone_keys(
    alloc: Global,
    name: &str,
    before: &Graph,
    after: &Held,
) -> Result<Vec<Key>, OutOfMemory>
    ensures { IfOk result (λ drops. KeysAlso (gone_forms name.now before.now.graph (bare_held after.now)) [] drops.items) }
{
    let mut drops = Vec::new(alloc);
    drop_nodes(alloc, &mut drops, name, before, &after.graph)?;
    drop_edges(alloc, &mut drops, name, before, &after.graph)?;
    Ok(drops)
}

/// The graph's own record, where its next numbers differ.
fn put_numbers(
    alloc: Global,
    out: &mut Vec<Record>,
    name: &str,
    before: &Graph,
    after: &Held,
) -> Result<(), OutOfMemory>
    ensures { OnOk result (SayAlso (unless (same_numbers before.now.graph after.now.graph.graph) (graph name.now after.now.kind after.now.graph.graph.next_node after.now.graph.graph.next_edge)) out.old.items out.new.items) }
{
    if same_numbers(before, &after.graph) {
        return Ok(());
    }
    out.push(graph_record(alloc, name, after)?)?;
    Ok(())
}

/// The records of nodes that are new or differ.
fn put_nodes(
    alloc: Global,
    out: &mut Vec<Record>,
    name: &str,
    before: &Graph,
    after: &Graph,
) -> Result<(), OutOfMemory>
    ensures { OnOk result (SayAlso (flat_map (λ r. unless (is_node (node_of before.now.graph r.number) r) (node name.now r)) after.now.graph.nodes) out.old.items out.new.items) }
{
    // The count's clause says that the graph is one.
    let _count = after.count_nodes();
    let nodes = after.nodes();
    let mut near = 0;
    for element in nodes {
        near = node_place(before, near, element.number);
        put_node(alloc, out, name, before, near, element)?;
    }
    Ok(())
}

fn put_node(
    alloc: Global,
    out: &mut Vec<Record>,
    name: &str,
    before: &Graph,
    near: usize,
    element: &NodeRecord,
) -> Result<(), OutOfMemory>
    requires labels { IsTrue (texts_ascend element.now.labels) }
    requires properties { IsTrue (are_properties element.now.properties) }
    ensures { OnOk result (SayAlso (unless (is_node (node_of before.now.graph element.now.number) element.now) (node name.now element.now)) out.old.items out.new.items) }
{
    if is_node(node_near(before, near, element.number), element) {
        return Ok(());
    }
    out.push(node_record(alloc, name, element)?)?;
    Ok(())
}

fn is_node(found: Option<&NodeRecord>, element: &NodeRecord) -> bool
    ensures { result ≡ is_node (option_copied found.entry) element.now }
{
    match found {
        None => false,
        Some(old) => same_node(old, element),
    }
}

/// The records of edges that are new or differ.
fn put_edges(
    alloc: Global,
    out: &mut Vec<Record>,
    name: &str,
    before: &Graph,
    after: &Graph,
) -> Result<(), OutOfMemory>
    ensures { OnOk result (SayAlso (flat_map (λ r. unless (is_edge (edge_of before.now.graph r.number) r) (edge name.now r)) after.now.graph.edges) out.old.items out.new.items) }
{
    // The count's clause says that the graph is one.
    let _count = after.count_nodes();
    let edges = after.edges();
    let mut near = 0;
    for element in edges {
        near = edge_place(before, near, element.number);
        put_edge(alloc, out, name, before, near, element)?;
    }
    Ok(())
}

fn put_edge(
    alloc: Global,
    out: &mut Vec<Record>,
    name: &str,
    before: &Graph,
    near: usize,
    element: &EdgeRecord,
) -> Result<(), OutOfMemory>
    requires labels { IsTrue (texts_ascend element.now.labels) }
    requires properties { IsTrue (are_properties element.now.properties) }
    ensures { OnOk result (SayAlso (unless (is_edge (edge_of before.now.graph element.now.number) element.now) (edge name.now element.now)) out.old.items out.new.items) }
{
    if is_edge(edge_near(before, near, element.number), element) {
        return Ok(());
    }
    out.push(edge_record(alloc, name, element)?)?;
    Ok(())
}

fn is_edge(found: Option<&EdgeRecord>, element: &EdgeRecord) -> bool
    ensures { result ≡ is_edge (option_copied found.entry) element.now }
{
    match found {
        None => false,
        Some(old) => same_edge(old, element),
    }
}

/// The keys of nodes that are gone.
fn drop_nodes(
    alloc: Global,
    out: &mut Vec<Key>,
    name: &str,
    before: &Graph,
    after: &Graph,
) -> Result<(), OutOfMemory>
    ensures { OnOk result (KeysAlso (flat_map (λ r. unless (has_node after.now.graph r.number) (node name.now r)) before.now.graph.nodes) out.old.items out.new.items) }
{
    let nodes = before.nodes();
    let mut near = 0;
    for element in nodes {
        near = node_place(after, near, element.number);
        drop_node(alloc, out, name, after, near, element)?;
    }
    Ok(())
}

fn drop_node(
    alloc: Global,
    out: &mut Vec<Key>,
    name: &str,
    after: &Graph,
    near: usize,
    element: &NodeRecord,
) -> Result<(), OutOfMemory>
    ensures { OnOk result (KeysAlso (unless (has_node after.now.graph element.now.number) (node name.now element.now)) out.old.items out.new.items) }
{
    if node_near(after, near, element.number).is_some() {
        return Ok(());
    }
    out.push(node_key(alloc, name, element.number)?)?;
    Ok(())
}

/// The keys of edges that are gone.
fn drop_edges(
    alloc: Global,
    out: &mut Vec<Key>,
    name: &str,
    before: &Graph,
    after: &Graph,
) -> Result<(), OutOfMemory>
    ensures { OnOk result (KeysAlso (flat_map (λ r. unless (has_edge after.now.graph r.number) (edge name.now r)) before.now.graph.edges) out.old.items out.new.items) }
{
    let edges = before.edges();
    let mut near = 0;
    for element in edges {
        near = edge_place(after, near, element.number);
        drop_edge(alloc, out, name, after, near, element)?;
    }
    Ok(())
}

fn drop_edge(
    alloc: Global,
    out: &mut Vec<Key>,
    name: &str,
    after: &Graph,
    near: usize,
    element: &EdgeRecord,
) -> Result<(), OutOfMemory>
    ensures { OnOk result (KeysAlso (unless (has_edge after.now.graph element.now.number) (edge name.now element.now)) out.old.items out.new.items) }
{
    if edge_near(after, near, element.number).is_some() {
        return Ok(());
    }
    out.push(edge_key(alloc, name, element.number)?)?;
    Ok(())
}
