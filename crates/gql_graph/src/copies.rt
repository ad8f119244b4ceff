//! Copies of nodes and edges, with their labels and properties.

ghost use Rattle.std.specs.Prelude.{◌≡◌, IfOk, map};
ghost use Rattle.gql_graph.specs.Machinery.Shown.{shown};

use gql_values3::{EdgeRecord, Names, NodeRecord, OutOfMemory, Properties, Sequence, Text, Value};
use std::alloc::Global;

/// Equal nodes.
pub fn copy_nodes(alloc: Global, nodes: &[NodeRecord]) -> Result<Vec<NodeRecord>, OutOfMemory>
    ensures { IfOk result (λ copies. copies.items ≡ nodes.now) }
{
    let mut copies = Vec::with_capacity(alloc, nodes.len())?;
    for node in nodes {
        copies.push(copy_node(alloc, node)?)?;
    }
    Ok(copies)
}

/// Equal edges.
pub fn copy_edges(alloc: Global, edges: &[EdgeRecord]) -> Result<Vec<EdgeRecord>, OutOfMemory>
    ensures { IfOk result (λ copies. copies.items ≡ edges.now) }
{
    let mut copies = Vec::with_capacity(alloc, edges.len())?;
    for edge in edges {
        copies.push(copy_edge(alloc, edge)?)?;
    }
    Ok(copies)
}

fn copy_node(alloc: Global, node: &NodeRecord) -> Result<NodeRecord, OutOfMemory>
    ensures { IfOk result (λ copy. copy ≡ node.now) }
{
    Ok(NodeRecord {
        number: node.number,
        labels: copy_labels(alloc, &node.labels)?,
        properties: copy_properties(alloc, &node.properties)?,
    })
}

fn copy_edge(alloc: Global, edge: &EdgeRecord) -> Result<EdgeRecord, OutOfMemory>
    ensures { IfOk result (λ copy. copy ≡ edge.now) }
{
    Ok(EdgeRecord {
        number: edge.number,
        ends: edge.ends,
        labels: copy_labels(alloc, &edge.labels)?,
        properties: copy_properties(alloc, &edge.properties)?,
    })
}

/// Equal labels.
pub fn copy_labels(alloc: Global, labels: &Names) -> Result<Names, OutOfMemory>
    ensures { IfOk result (λ copies. copies ≡ labels.now) }
{
    Ok(Sequence::from_vec(copy_texts(alloc, labels.as_slice())?))
}

fn copy_texts(alloc: Global, texts: &[Text]) -> Result<Vec<Text>, OutOfMemory>
    ensures { IfOk result (λ copies. copies.items ≡ texts.now) }
{
    let mut copies = Vec::with_capacity(alloc, texts.len())?;
    for text in texts {
        copies.push(text.try_copy(alloc)?)?;
    }
    Ok(copies)
}

fn copy_properties(alloc: Global, properties: &Properties) -> Result<Properties, OutOfMemory>
    ensures { IfOk result (λ copies. copies ≡ properties.now) }
{
    Ok(Properties::from_vec(copy_pairs(alloc, properties.as_slice())?))
}

fn copy_pairs(alloc: Global, pairs: &[(Text, Value)]) -> Result<Vec<(Text, Value)>, OutOfMemory>
    ensures { IfOk result (λ copies. map shown copies.items ≡ map shown pairs.now) }
{
    let mut copies = Vec::with_capacity(alloc, pairs.len())?;
    for (name, value) in pairs {
        copies.push((name.try_copy(alloc)?, value.try_copy(alloc)?))?;
    }
    Ok(copies)
}
