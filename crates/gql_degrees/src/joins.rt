//! The first name that is declared in several parts in a row, path patterns or as a column too, by degrees that may not stand so.

ghost use Rattle.std.specs.Prelude.{◌≡◌, [], None, map, option_map, IfOk};
ghost use Rattle.gql_norm.specs.JoinDefects.{column_degree, joined_conditional, joined_group};
ghost use Rattle.gql_norm.specs.NormalData.{path_data, pattern_data};
ghost use Rattle.gql_degrees.specs.Machinery.JoinData.{at_fault, walked_data};
ghost use Rattle.gql_degrees.specs.Machinery.JoinWalk.{first_among, first_joined, place_of_fault, sooner_named, suspects, with_column};
ghost use Rattle.gql_degrees.specs.Machinery.KindWalk.{declared_in_all_paths};

use crate::before::{Join, are_faulty, none_before};
use crate::declared::{declared_in_paths, is_alone, is_one_element};
use crate::walk::{Sought, walked_paths};
use crate::walked::{Walked, place_if, sooner};
use gql_expr_checks::{KnownColumns, known_columns};
use gql_norm::{Degree, NormalPath, NormalPattern};
use gql_values3::{ColumnKind, Columns, OutOfMemory, Text};
use std::alloc::Global;

/// The first name in the text that stands in two parts of a row, in two path patterns, or in the pattern and as an incoming
/// column, where one of these is a group. The later declaration is the fault, and the first one where the other is a column.
pub fn joined_group(
    alloc: Global,
    columns: &Columns,
    pattern: &NormalPattern,
) -> Result<Option<Text>, OutOfMemory>
    ensures { IfOk result (λ name. name ≡ joined_group columns.now (pattern_data pattern.now)) }
{
    first_joined(
        alloc,
        Join::Group,
        columns.as_slice(),
        pattern.paths.as_slice(),
    )
}

/// The same where none is a group, and one in the pattern is conditional.
pub fn joined_conditional(
    alloc: Global,
    columns: &Columns,
    pattern: &NormalPattern,
) -> Result<Option<Text>, OutOfMemory>
    ensures { IfOk result (λ name. name ≡ joined_conditional columns.now (pattern_data pattern.now)) }
{
    first_joined(
        alloc,
        Join::Conditional,
        columns.as_slice(),
        pattern.paths.as_slice(),
    )
}

fn first_joined(
    alloc: Global,
    join: Join,
    columns: &[(Text, ColumnKind)],
    paths: &[NormalPath],
) -> Result<Option<Text>, OutOfMemory>
    ensures { IfOk result (λ name. name ≡ first_joined (at_fault join) columns.now (map path_data paths.now)) }
{
    if is_one_element(columns, paths) {
        return Ok(None);
    }
    joined_by_declared(alloc, join, columns, paths)
}

/// The same by what the paths declare.
#[inline(never)]
fn joined_by_declared(
    alloc: Global,
    join: Join,
    columns: &[(Text, ColumnKind)],
    paths: &[NormalPath],
) -> Result<Option<Text>, OutOfMemory>
    ensures { IfOk result (λ name. name ≡ first_joined (at_fault join) columns.now (map path_data paths.now)) }
{
    let declared = declared_in_paths(alloc, paths)?;
    if is_alone(columns, declared.as_slice()) {
        return Ok(None);
    }
    let columns = known_columns(alloc, columns)?;
    let suspects = suspects(alloc, &columns, declared.as_slice())?;
    let best = first_among(alloc, join, &columns, paths, suspects.columns())?;
    Ok(name_of(best))
}

fn name_of(spot: Option<(u64, Text)>) -> Option<Text>
    ensures { result ≡ option_map (λ s. s.1) spot }
{
    match spot {
        Some((_, name)) => Some(name),
        None => None,
    }
}

/// The names that may be at fault: those declared a second time and those that are columns, each once.
fn suspects(
    alloc: Global,
    columns: &KnownColumns,
    declared: &[(Text, ColumnKind)],
) -> Result<KnownColumns, OutOfMemory>
    ensures { IfOk result (λ names. names ≡ suspects columns.now [] [] declared.now) }
{
    let mut seen = KnownColumns::new(alloc);
    let mut named = KnownColumns::new(alloc);
    for i in 0..declared.len() {
        let (name, kind) = &declared[i];
        if (seen.contains(name) || columns.contains(name)) && !named.contains(name) {
            named.push(name.try_copy(alloc)?, *kind)?;
        }
        seen.push(name.try_copy(alloc)?, *kind)?;
    }
    Ok(named)
}

/// The name at the least place at fault, with the place.
fn first_among(
    alloc: Global,
    join: Join,
    columns: &KnownColumns,
    paths: &[NormalPath],
    names: &[(Text, ColumnKind)],
) -> Result<Option<(u64, Text)>, OutOfMemory>
    ensures { IfOk result (λ spot. spot ≡ first_among (place_of_fault (at_fault join) columns.now (map path_data paths.now)) None names.now) }
{
    let mut best = None;
    for i in 0..names.len() {
        let (name, _) = &names[i];
        let place = place_of_fault(join, columns, paths, name)?;
        best = sooner_named(alloc, best, place, name)?;
    }
    Ok(best)
}

/// The least place at which a name is at fault.
fn place_of_fault(
    join: Join,
    columns: &KnownColumns,
    paths: &[NormalPath],
    name: &Text,
) -> Result<Option<u64>, OutOfMemory>
    ensures { IfOk result (λ place. place ≡ place_of_fault (at_fault join) columns.now (map path_data paths.now) name.now) }
{
    let found = walked_paths(&Sought { join, name }, paths, 0, none_before())?;
    Ok(with_column(join, columns.first_kind(name), found))
}

fn with_column(join: Join, column: Option<ColumnKind>, found: Walked) -> Option<u64>
    ensures { result ≡ with_column (at_fault join) column (walked_data found) }
{
    match (column, found.degree) {
        (Some(kind), Some(degree)) => {
            let is_fault = are_faulty(join, column_degree(kind), degree);
            sooner(found.fault, place_if(is_fault, found.first))
        }
        _ => found.fault,
    }
}

/// A column counts as a group or a singleton.
fn column_degree(kind: ColumnKind) -> Degree
    ensures { result ≡ column_degree kind }
{
    match kind {
        ColumnKind::Nodes | ColumnKind::Edges => Degree::Group,
        _ => Degree::Singleton,
    }
}

fn sooner_named(
    alloc: Global,
    best: Option<(u64, Text)>,
    place: Option<u64>,
    name: &Text,
) -> Result<Option<(u64, Text)>, OutOfMemory>
    ensures { IfOk result (λ spot. spot ≡ sooner_named best place name.now) }
{
    match (&best, place) {
        (_, None) => Ok(best),
        (Some(spot), Some(place)) if spot.0 <= place => Ok(best),
        (_, Some(place)) => Ok(Some((place, name.try_copy(alloc)?))),
    }
}
