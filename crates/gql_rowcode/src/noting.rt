//! One form more behind those that were read.

ghost use Rattle.std.specs.Prelude.{◌≡◌, ℕ, Bool, List, ◌<◌, not, ◌&&◌, [], ◌∷◌, ◌++◌, length, IfOk, OnOk, slice_set, slice_index_or};
ghost use Rattle.gql_fields.specs.Machinery.Reading.{GivesFree, Gives};
ghost use Rattle.gql_type.specs.GraphTypes.{is_graph_type};
ghost use Rattle.gql_rowcode.specs.Records.{IsForm, version, graph_type, graph, node, edge};
ghost use Rattle.gql_rowcode.specs.Machinery.KeyOrder.{AreListed};
ghost use Rattle.gql_rowcode.specs.Machinery.Said.{form_of};
ghost use Rattle.gql_rowcode.specs.declared.seen.GraphSeen.{GraphSeen};
ghost use Rattle.gql_rowcode.specs.Machinery.Noted.{note, noted_after, noted_of, graph_joins, IsNoted, with_node_seen, with_edge_seen};

use crate::form::Form;
use crate::joining::{edge_joins, graph_joins, node_joins};
use crate::places::place_of;
use crate::seen::{GraphSeen, Seen};
use gql_fields::Misread;
use gql_graph::GraphType;
use gql_type::is_graph_type;
use gql_values3::{EdgeRecord, NodeRecord, OutOfMemory, Sequence, Text};
use std::alloc::Global;

/// What is known with the form, where it may be told there; first: it is the first of all.
pub fn after_form(alloc: Global, seen: Seen, first: bool, form: Form) -> Result<Seen, Misread>
    requires seen { IsNoted (noted_of seen) }
    requires form { IsForm (form_of form) }
    ensures { Gives noted_of result (noted_after first (noted_of seen) (form_of form.entry)) }
{
    match form {
        Form::Version => after_version(seen, first),
        Form::Kind { name, kind } => after_type(alloc, seen, first, name, kind),
        Form::Graph {
            name,
            kind,
            next_node,
            next_edge,
        } => after_graph(alloc, seen, first, name, kind, next_node, next_edge),
        Form::Node { name, node } => after_node(seen, name, node),
        Form::Edge { name, edge } => after_edge(seen, name, edge),
    }
}

fn after_version(seen: Seen, first: bool) -> Result<Seen, Misread>
    ensures { GivesFree noted_of result (noted_after first (noted_of seen) version) }
{
    if first {
        Ok(seen)
    } else {
        Err(Misread::NoForm)
    }
}

fn after_type(
    alloc: Global,
    seen: Seen,
    first: bool,
    name: &str,
    kind: GraphType,
) -> Result<Seen, Misread>
    ensures { Gives noted_of result (noted_after first (noted_of seen) (graph_type name.now kind)) }
{
    if !type_joins(first, &kind) {
        return Err(Misread::NoForm);
    }
    Ok(with_type(alloc, seen, name, kind)?)
}

fn with_type(alloc: Global, seen: Seen, name: &str, kind: GraphType) -> Result<Seen, OutOfMemory>
    ensures { IfOk result (λ next. noted_of next ≡ note (noted_of seen) (graph_type name.now kind)) }
{
    let name = Text::from_str(alloc, name)?;
    let mut seen = seen;
    seen.types.push((name, kind))?;
    Ok(seen)
}

fn type_joins(first: bool, kind: &GraphType) -> bool
    ensures { result ≡ (not first && is_graph_type kind.now) }
{
    !first && is_graph_type(kind)
}

fn after_graph(
    alloc: Global,
    seen: Seen,
    first: bool,
    name: &str,
    kind: Option<Text>,
    next_node: u32,
    next_edge: u32,
) -> Result<Seen, Misread>
    requires { IsNoted (noted_of seen) }
    ensures { Gives noted_of result (noted_after first (noted_of seen) (graph name.now kind next_node next_edge)) }
{
    if !may_stand(seen.types.as_slice(), first, &kind, next_node, next_edge) {
        return Err(Misread::NoForm);
    }
    let fresh = GraphSeen {
        kind,
        nodes: Sequence::new(alloc),
        edges: Sequence::new(alloc),
        next_node,
        next_edge,
    };
    Ok(with_graph(alloc, seen, name, fresh)?)
}

fn with_graph(alloc: Global, seen: Seen, name: &str, fresh: GraphSeen) -> Result<Seen, OutOfMemory>
    requires nodes { fresh.nodes ≡ [] }
    requires edges { fresh.edges ≡ [] }
    ensures { IfOk result (λ next. noted_of next ≡ note (noted_of seen) (graph name.now fresh.kind fresh.next_node fresh.next_edge)) }
{
    let name = Text::from_str(alloc, name)?;
    let mut seen = seen;
    seen.graphs.push((name, fresh))?;
    Ok(seen)
}

fn may_stand(
    types: &[(Text, GraphType)],
    first: bool,
    kind: &Option<Text>,
    next_node: u32,
    next_edge: u32,
) -> bool
    requires { AreListed types.now }
    ensures { result ≡ (not first && graph_joins types.now kind.now next_node next_edge) }
{
    !first && graph_joins(types, kind, next_node, next_edge)
}

fn after_node(seen: Seen, name: &str, added: NodeRecord) -> Result<Seen, Misread>
    requires seen { IsNoted (noted_of seen) }
    requires form { IsForm (node name.now added) }
    ensures { (first : Bool) → Gives noted_of result (noted_after first (noted_of seen) (node name.now added)) }
{
    let Some(place) = place_of(seen.graphs.as_slice(), name) else {
        return Err(Misread::NoForm);
    };
    if !node_joins(seen.types.as_slice(), &seen.graphs[place].1, &added) {
        return Err(Misread::NoForm);
    }
    Ok(with_node(seen, place, added)?)
}

fn with_node(seen: Seen, place: usize, added: NodeRecord) -> Result<Seen, OutOfMemory>
    requires { place < length seen.graphs.items }
    ensures graphs { (d : List ℕ × GraphSeen) → IfOk result (λ next. next.graphs.items ≡ slice_set seen.graphs.items place (with_node_seen added (slice_index_or seen.graphs.items place d))) }
    ensures types { IfOk result (λ next. next.types.items ≡ seen.types.items) }
{
    let mut seen = seen;
    push_node(&mut seen.graphs, place, added)?;
    Ok(seen)
}

fn push_node(
    graphs: &mut Vec<(Text, GraphSeen)>,
    place: usize,
    added: NodeRecord,
) -> Result<(), OutOfMemory>
    requires { place < length graphs.old.items }
    ensures { (d : List ℕ × GraphSeen) → OnOk result (graphs.new.items ≡ slice_set graphs.old.items place (with_node_seen added (slice_index_or graphs.old.items place d))) }
{
    graphs[place].1.nodes.push(added)?;
    Ok(())
}

fn after_edge(seen: Seen, name: &str, added: EdgeRecord) -> Result<Seen, Misread>
    requires seen { IsNoted (noted_of seen) }
    requires form { IsForm (edge name.now added) }
    ensures { (first : Bool) → Gives noted_of result (noted_after first (noted_of seen) (edge name.now added)) }
{
    let Some(place) = place_of(seen.graphs.as_slice(), name) else {
        return Err(Misread::NoForm);
    };
    if !edge_joins(seen.types.as_slice(), &seen.graphs[place].1, &added) {
        return Err(Misread::NoForm);
    }
    Ok(with_edge(seen, place, added)?)
}

fn with_edge(seen: Seen, place: usize, added: EdgeRecord) -> Result<Seen, OutOfMemory>
    requires { place < length seen.graphs.items }
    ensures graphs { (d : List ℕ × GraphSeen) → IfOk result (λ next. next.graphs.items ≡ slice_set seen.graphs.items place (with_edge_seen added (slice_index_or seen.graphs.items place d))) }
    ensures types { IfOk result (λ next. next.types.items ≡ seen.types.items) }
{
    let mut seen = seen;
    push_edge(&mut seen.graphs, place, added)?;
    Ok(seen)
}

fn push_edge(
    graphs: &mut Vec<(Text, GraphSeen)>,
    place: usize,
    added: EdgeRecord,
) -> Result<(), OutOfMemory>
    requires { place < length graphs.old.items }
    ensures { (d : List ℕ × GraphSeen) → OnOk result (graphs.new.items ≡ slice_set graphs.old.items place (with_edge_seen added (slice_index_or graphs.old.items place d))) }
{
    graphs[place].1.edges.push(added)?;
    Ok(())
}
