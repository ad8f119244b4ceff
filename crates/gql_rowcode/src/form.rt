//! What one record says, read from its key and its value.

ghost use Rattle.std.specs.Prelude.{◌≡◌, IfOk};
ghost use Rattle.gql_fields.specs.Machinery.Reading.{GivesFree, Gives};
ghost use Rattle.gql_rowcode.specs.Records.{IsForm, key_of, value_of};
ghost use Rattle.gql_rowcode.specs.Machinery.Said.{form_of};
ghost use Rattle.gql_rowcode.specs.Machinery.FormReading.{form_at, version_form_at, version_value_at, type_form_at, graph_form_at, node_form_at, edge_form_at};

use crate::parts::{edge_value_of, element_key_of, graph_value_of, name_key_of, node_value_of};
use gql_fields::Misread;
use gql_graph::GraphType;
use gql_typecode::graph_type_of_bytes;
use gql_values3::{EdgeId, EdgeRecord, NodeId, NodeRecord, Text};
use std::alloc::Global;

/// What a record says. Names of graphs and types lie in the record's key.
#[derive(Debug, Drop)]
pub enum Form<'a> {
    Version,
    Kind {
        name: &'a str,
        kind: GraphType,
    },
    Graph {
        name: &'a str,
        kind: Option<Text>,
        next_node: u32,
        next_edge: u32,
    },
    Node {
        name: &'a str,
        node: NodeRecord,
    },
    Edge {
        name: &'a str,
        edge: EdgeRecord,
    },
}

/// What the record of this key and this value says, each byte of it.
pub fn read_form<'a>(alloc: Global, key: &'a [u8], value: &[u8]) -> Result<Form<'a>, Misread>
    ensures told { Gives form_of result (form_at key.now value.now) }
    ensures spelled { IfOk result (λ form. IsForm (form_of form) × (key.now ≡ key_of (form_of form)) × (value.now ≡ value_of (form_of form))) }
{
    form_by_kind(alloc, key, value)
}

// The first byte of the key tells what the record is about.
#[tactic(auto, unfolding(crate::specs::Machinery::FormReading::form_at))]
fn form_by_kind<'a>(alloc: Global, key: &'a [u8], value: &[u8]) -> Result<Form<'a>, Misread>
    ensures { Gives form_of result (form_at key.now value.now) }
{
    let [kind, rest @ ..] = key else {
        return Err(Misread::NoForm);
    };
    match *kind {
        0 => version_form_of(rest, value),
        1 => type_form_of(alloc, rest, value),
        2 => graph_form_of(alloc, rest, value),
        3 => node_form_of(alloc, rest, value),
        4 => edge_form_of(alloc, rest, value),
        _ => Err(Misread::NoForm),
    }
}

const ONE: [u8; 1] = [1];

#[tactic(auto, unfolding(crate::specs::Machinery::FormReading::version_form_at))]
fn version_form_of<'a>(key: &'a [u8], value: &[u8]) -> Result<Form<'a>, Misread>
    ensures { GivesFree form_of result (version_form_at key.now value.now) }
{
    if key.is_empty() {
        version_told(value)
    } else {
        Err(Misread::NoForm)
    }
}

fn version_told<'a>(value: &[u8]) -> Result<Form<'a>, Misread>
    ensures { GivesFree form_of result (version_value_at value.now) }
{
    if value == ONE.as_slice() {
        Ok(Form::Version)
    } else {
        Err(Misread::NoForm)
    }
}

#[tactic(auto, unfolding(crate::specs::Machinery::FormReading::type_form_at))]
fn type_form_of<'a>(alloc: Global, key: &'a [u8], value: &[u8]) -> Result<Form<'a>, Misread>
    ensures { Gives form_of result (type_form_at key.now value.now) }
{
    let name = name_key_of(key)?;
    let kind = graph_type_of_bytes(alloc, value)?;
    Ok(Form::Kind { name, kind })
}

#[tactic(auto, unfolding(crate::specs::Machinery::FormReading::graph_form_at))]
fn graph_form_of<'a>(alloc: Global, key: &'a [u8], value: &[u8]) -> Result<Form<'a>, Misread>
    ensures { Gives form_of result (graph_form_at key.now value.now) }
{
    let name = name_key_of(key)?;
    let ((kind, next_node), next_edge) = graph_value_of(alloc, value)?;
    Ok(Form::Graph {
        name,
        kind,
        next_node,
        next_edge,
    })
}

#[tactic(auto, unfolding(crate::specs::Machinery::FormReading::node_form_at))]
fn node_form_of<'a>(alloc: Global, key: &'a [u8], value: &[u8]) -> Result<Form<'a>, Misread>
    ensures { Gives form_of result (node_form_at key.now value.now) }
{
    let (name, number) = element_key_of(key)?;
    let (labels, properties) = node_value_of(alloc, value)?;
    Ok(Form::Node {
        name,
        node: NodeRecord {
            number: NodeId(number),
            labels,
            properties,
        },
    })
}

#[tactic(auto, unfolding(crate::specs::Machinery::FormReading::edge_form_at))]
fn edge_form_of<'a>(alloc: Global, key: &'a [u8], value: &[u8]) -> Result<Form<'a>, Misread>
    ensures { Gives form_of result (edge_form_at key.now value.now) }
{
    let (name, number) = element_key_of(key)?;
    let (ends, (labels, properties)) = edge_value_of(alloc, value)?;
    Ok(Form::Edge {
        name,
        edge: EdgeRecord {
            number: EdgeId(number),
            ends,
            labels,
            properties,
        },
    })
}
