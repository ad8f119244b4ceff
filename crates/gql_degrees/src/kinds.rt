//! The first name that is declared as node and as edge, or whose column holds another kind than it needs.

ghost use Rattle.std.specs.Prelude.{◌≡◌, ◌||◌, IfOk, OnOk};
ghost use Rattle.gql_ast.specs.ClauseColumns.{is_column};
ghost use Rattle.gql_norm.specs.NormalData.{pattern_data};
ghost use Rattle.gql_norm.specs.WrongKinds.{is_kind};
ghost use Rattle.gql_degrees.specs.FirstFaults.{first_wrong_kind};
ghost use Rattle.gql_degrees.specs.Machinery.KindWalk.{and_declared, clashes_with, first_clash, needs_other, none_before, others_than};
ghost use Rattle.gql_degrees.specs.Machinery.SeenData.{seen_data};

use crate::declared::{declared_in_paths, is_alone, is_one_element};
use gql_expr_checks::{KnownColumns, known_columns};
use gql_norm::NormalPattern;
use gql_values3::{ColumnKind, Columns, OutOfMemory, Text};
use std::alloc::Global;

/// The first name in the text that the pattern declares as node and as edge, where the later declaration is the fault, or
/// that is an incoming column of another kind.
pub fn wrong_kind(
    alloc: Global,
    columns: &Columns,
    pattern: &NormalPattern,
) -> Result<Option<Text>, OutOfMemory>
    ensures { IfOk result (λ name. name ≡ first_wrong_kind columns.now (pattern_data pattern.now)) }
{
    if is_one_element(columns.as_slice(), pattern.paths.as_slice()) {
        return Ok(None);
    }
    wrong_by_declared(alloc, columns, pattern)
}

/// The same by what the pattern declares.
#[inline(never)]
#[tactic(auto, using(crate::proofs::KindLemmas::first_is))]
fn wrong_by_declared(
    alloc: Global,
    columns: &Columns,
    pattern: &NormalPattern,
) -> Result<Option<Text>, OutOfMemory>
    ensures { IfOk result (λ name. name ≡ first_wrong_kind columns.now (pattern_data pattern.now)) }
{
    let declared = declared_in_paths(alloc, pattern.paths.as_slice())?;
    if is_alone(columns.as_slice(), declared.as_slice()) {
        return Ok(None);
    }
    let columns = known_columns(alloc, columns.as_slice())?;
    first_clash(alloc, &columns, declared.as_slice())
}

/// Names that were declared as nodes, and as edges. Its meaning is `seen_data`.
#[derive(Drop)]
pub struct Seen {
    pub nodes: KnownColumns,
    pub edges: KnownColumns,
}

fn first_clash(
    alloc: Global,
    columns: &KnownColumns,
    declared: &[(Text, ColumnKind)],
) -> Result<Option<Text>, OutOfMemory>
    ensures { IfOk result (λ name. name ≡ first_clash columns.now none_before declared.now) }
{
    let mut seen = Seen {
        nodes: KnownColumns::new(alloc),
        edges: KnownColumns::new(alloc),
    };
    for i in 0..declared.len() {
        let (name, kind) = &declared[i];
        if clashes(columns, &seen, name, *kind) {
            return Ok(Some(name.try_copy(alloc)?));
        }
        add(alloc, &mut seen, name, *kind)?;
    }
    Ok(None)
}

fn clashes(columns: &KnownColumns, seen: &Seen, name: &Text, kind: ColumnKind) -> bool
    ensures { result ≡ clashes_with columns.now (seen_data seen.now) (name.now, kind) }
{
    is_declared_otherwise(seen, name, kind) || needs_other(kind, columns.first_kind(name))
}

fn is_declared_otherwise(seen: &Seen, name: &Text, kind: ColumnKind) -> bool
    ensures { result ≡ is_column (others_than kind (seen_data seen.now)) name.now }
{
    match kind {
        ColumnKind::Node => seen.edges.contains(name),
        _ => seen.nodes.contains(name),
    }
}

fn needs_other(kind: ColumnKind, column: Option<ColumnKind>) -> bool
    ensures { result ≡ needs_other kind column }
{
    match column {
        Some(column) => !is_kind(kind, column),
        None => false,
    }
}

/// A column of nodes is no other kind than one node, nor a column of edges than one edge.
fn is_kind(kind: ColumnKind, column: ColumnKind) -> bool
    ensures { result ≡ is_kind kind column }
{
    match (kind, column) {
        (ColumnKind::Node, ColumnKind::Node | ColumnKind::Nodes) => true,
        (ColumnKind::Edge, ColumnKind::Edge | ColumnKind::Edges) => true,
        _ => false,
    }
}

fn add(alloc: Global, seen: &mut Seen, name: &Text, kind: ColumnKind) -> Result<(), OutOfMemory>
    ensures { OnOk result (seen_data seen.new ≡ and_declared (seen_data seen.old) (name.now, kind)) }
{
    let name = name.try_copy(alloc)?;
    match kind {
        ColumnKind::Node => seen.nodes.push(name, kind),
        _ => seen.edges.push(name, kind),
    }
}
