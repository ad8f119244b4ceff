//! The graph type that a text means.

ghost use Rattle.std.specs.Prelude.{◌≡◌, [], IfOk, IsTrue};
ghost use Rattle.gql_type.specs.GraphTypes.{is_graph_type};
ghost use Rattle.gql_type.specs.BodyFaults.{wrong_aliases, repeated_names};
ghost use Rattle.gql_type.specs.BodyMeaning.{node_type, node_types, edge_type, edge_types, graph_type_of};

use crate::places::place_of;
use crate::sets::{labels_meant, properties_meant};
use gql_ast::{Arrow, ElementBody, TypeBody, TypeElement};
use gql_graph::{EdgeType, EdgeTypes, GraphType, NodeType, NodeTypes};
use gql_values3::{OutOfMemory, Text};
use std::alloc::Global;

/// The type that the body of a graph type means: node types and edge types in the order of the text, labels and properties of
/// each in order by bytes. Takes n log n comparisons, and looks each end of an edge up among the node types.
pub fn graph_type(alloc: Global, body: &TypeBody) -> Result<GraphType, OutOfMemory>
    requires aliases { wrong_aliases body.now ≡ [] }
    requires names { repeated_names body.now.elements ≡ [] }
    ensures meant { IfOk result (λ kind. kind ≡ graph_type_of body.now) }
    ensures in_order { IfOk result (λ kind. IsTrue (is_graph_type kind)) }
{
    made_of(alloc, body)
}

fn made_of(alloc: Global, body: &TypeBody) -> Result<GraphType, OutOfMemory>
    ensures { IfOk result (λ kind. kind ≡ graph_type_of body.now) }
{
    let elements = body.elements.as_slice();
    Ok(GraphType {
        nodes: NodeTypes::from_vec(node_types(alloc, elements)?),
        edges: EdgeTypes::from_vec(edge_types(alloc, elements)?),
    })
}

fn node_types(alloc: Global, elements: &[TypeElement]) -> Result<Vec<NodeType>, OutOfMemory>
    ensures { IfOk result (λ kinds. kinds.items ≡ node_types elements.now) }
{
    let mut kinds = Vec::new(alloc);
    for element in elements {
        if let TypeElement::Node(_, body) = element {
            kinds.push(node_type(alloc, body)?)?;
        }
    }
    Ok(kinds)
}

fn node_type(alloc: Global, body: &ElementBody) -> Result<NodeType, OutOfMemory>
    ensures { IfOk result (λ kind. kind ≡ node_type body.now) }
{
    Ok(NodeType {
        labels: labels_meant(alloc, &body.labels)?,
        body: properties_meant(alloc, &body.properties)?,
    })
}

fn edge_types(alloc: Global, elements: &[TypeElement]) -> Result<Vec<EdgeType>, OutOfMemory>
    ensures { IfOk result (λ kinds. kinds.items ≡ edge_types elements.now elements.now) }
{
    let mut kinds = Vec::new(alloc);
    for element in elements {
        if let TypeElement::Edge(first, arrow, body, second) = element {
            kinds.push(edge_type(alloc, elements, first, *arrow, body, second)?)?;
        }
    }
    Ok(kinds)
}

fn edge_type(
    alloc: Global,
    elements: &[TypeElement],
    first: &Text,
    arrow: Arrow,
    body: &ElementBody,
    second: &Text,
) -> Result<EdgeType, OutOfMemory>
    ensures { IfOk result (λ kind. kind ≡ edge_type elements.now first.now arrow body.now second.now) }
{
    let first = place_of(elements, first.as_str());
    let second = place_of(elements, second.as_str());
    let labels = labels_meant(alloc, &body.labels)?;
    let body = properties_meant(alloc, &body.properties)?;
    Ok(match arrow {
        Arrow::Right => EdgeType {
            directed: true,
            first,
            second,
            labels,
            body,
        },
        Arrow::Left => EdgeType {
            directed: true,
            first: second,
            second: first,
            labels,
            body,
        },
        Arrow::Undirected => EdgeType {
            directed: false,
            first,
            second,
            labels,
            body,
        },
    })
}
