//! Copies of graph types, part by part.

ghost use Rattle.std.specs.Prelude.{◌≡◌, IfOk};

use crate::copies::copy_labels;
use crate::graph_type::{EdgeType, GraphType, NodeType, PropType, PropTypes};
use gql_values3::{OutOfMemory, Sequence, Text};
use std::alloc::Global;

/// Equal graph types, each with its name.
pub fn copy_types(
    alloc: Global,
    types: &[(Text, GraphType)],
) -> Result<Vec<(Text, GraphType)>, OutOfMemory>
    ensures { IfOk result (λ copies. copies.items ≡ types.now) }
{
    let mut copies = Vec::with_capacity(alloc, types.len())?;
    for (name, graph_type) in types {
        copies.push((name.try_copy(alloc)?, graph_type.try_copy(alloc)?))?;
    }
    Ok(copies)
}

impl GraphType {
    /// An equal graph type.
    pub fn try_copy(&self, alloc: Global) -> Result<GraphType, OutOfMemory>
        ensures { IfOk result (λ copy. copy ≡ self.now) }
    {
        Ok(GraphType {
            nodes: Sequence::from_vec(copy_node_types(alloc, self.nodes.as_slice())?),
            edges: Sequence::from_vec(copy_edge_types(alloc, self.edges.as_slice())?),
        })
    }
}

fn copy_node_types(alloc: Global, types: &[NodeType]) -> Result<Vec<NodeType>, OutOfMemory>
    ensures { IfOk result (λ copies. copies.items ≡ types.now) }
{
    let mut copies = Vec::with_capacity(alloc, types.len())?;
    for node_type in types {
        copies.push(copy_node_type(alloc, node_type)?)?;
    }
    Ok(copies)
}

fn copy_node_type(alloc: Global, node_type: &NodeType) -> Result<NodeType, OutOfMemory>
    ensures { IfOk result (λ copy. copy ≡ node_type.now) }
{
    Ok(NodeType {
        labels: copy_labels(alloc, &node_type.labels)?,
        body: copy_body(alloc, &node_type.body)?,
    })
}

fn copy_edge_types(alloc: Global, types: &[EdgeType]) -> Result<Vec<EdgeType>, OutOfMemory>
    ensures { IfOk result (λ copies. copies.items ≡ types.now) }
{
    let mut copies = Vec::with_capacity(alloc, types.len())?;
    for edge_type in types {
        copies.push(copy_edge_type(alloc, edge_type)?)?;
    }
    Ok(copies)
}

fn copy_edge_type(alloc: Global, edge_type: &EdgeType) -> Result<EdgeType, OutOfMemory>
    ensures { IfOk result (λ copy. copy ≡ edge_type.now) }
{
    Ok(EdgeType {
        directed: edge_type.directed,
        first: edge_type.first,
        second: edge_type.second,
        labels: copy_labels(alloc, &edge_type.labels)?,
        body: copy_body(alloc, &edge_type.body)?,
    })
}

fn copy_body(alloc: Global, body: &PropTypes) -> Result<PropTypes, OutOfMemory>
    ensures { IfOk result (λ copy. copy ≡ body.now) }
{
    Ok(Sequence::from_vec(copy_prop_types(alloc, body.as_slice())?))
}

fn copy_prop_types(alloc: Global, types: &[PropType]) -> Result<Vec<PropType>, OutOfMemory>
    ensures { IfOk result (λ copies. copies.items ≡ types.now) }
{
    let mut copies = Vec::with_capacity(alloc, types.len())?;
    for prop_type in types {
        copies.push(copy_prop_type(alloc, prop_type)?)?;
    }
    Ok(copies)
}

fn copy_prop_type(alloc: Global, prop_type: &PropType) -> Result<PropType, OutOfMemory>
    ensures { IfOk result (λ copy. copy ≡ prop_type.now) }
{
    Ok(PropType {
        name: prop_type.name.try_copy(alloc)?,
        kind: prop_type.kind,
        required: prop_type.required,
    })
}
