//! The columns behind a MATCH. A name is a group just where one of its declarations stands under a quantifier, so that one walk over
//! the pattern tells what each name holds.

ghost use Rattle.std.specs.Prelude.{◌≡◌, ◌∷◌, map, Some, IfOk, OnOk};
ghost use Rattle.gql_norm.specs.NewColumns.{columns_after};
ghost use Rattle.gql_norm.specs.NormalData.{part_data, path_data, pattern_data};
ghost use Rattle.gql_norm.specs.Machinery.ColumnGrowth.{with_column, with_columns};
ghost use Rattle.gql_scope.specs.Machinery.Gathering.{none_yet, with_variable, with_part, with_parts, with_path_name, with_path, with_paths, as_group, columns_of};
ghost use Rattle.gql_scope.specs.Machinery.GatheredData.{found_data};

use gql_expr_checks::KnownColumns;
use gql_norm::{NormalPath, NormalPattern, Part};
use gql_values3::{ColumnKind, Columns, OutOfMemory, Text};
use std::alloc::Global;

/// The path names and variables of path patterns in the order of the text, each with what one element of it is, and those of
/// them that are groups. Its meaning is `found_data`.
#[derive(Drop)]
pub struct Found {
    pub names: Columns,
    pub groups: KnownColumns,
}

/// Adds the columns of a pattern, each unless a column has its name.
pub fn push_match(
    alloc: Global,
    scope: &mut KnownColumns,
    pattern: &NormalPattern,
) -> Result<(), OutOfMemory>
    ensures { OnOk result (scope.new ≡ columns_after scope.old (pattern_data pattern.now)) }
{
    let found = found_in_paths(alloc, pattern.paths.as_slice())?;
    push_found(alloc, scope, &found)
}

fn push_found(alloc: Global, scope: &mut KnownColumns, found: &Found) -> Result<(), OutOfMemory>
    ensures { OnOk result (scope.new ≡ with_columns scope.old (columns_of (found_data found.now).groups (found_data found.now).names)) }
{
    push_names(alloc, scope, &found.groups, found.names.as_slice())
}

fn push_names(
    alloc: Global,
    scope: &mut KnownColumns,
    groups: &KnownColumns,
    names: &[(Text, ColumnKind)],
) -> Result<(), OutOfMemory>
    ensures { OnOk result (scope.new ≡ with_columns scope.old (columns_of groups.now names.now)) }
{
    for i in 0..names.len() {
        let (name, kind) = &names[i];
        push_name(alloc, scope, name, as_group(groups.contains(name), *kind))?;
    }
    Ok(())
}

/// Adds a column unless one has its name.
fn push_name(
    alloc: Global,
    scope: &mut KnownColumns,
    name: &Text,
    kind: ColumnKind,
) -> Result<(), OutOfMemory>
    ensures { OnOk result (scope.new ≡ with_column scope.old (name.now, kind)) }
{
    if scope.contains(name) {
        return Ok(());
    }
    scope.push_copy(alloc, name, kind)
}

/// A group is a list of its elements.
fn as_group(is_group: bool, kind: ColumnKind) -> ColumnKind
    ensures { result ≡ as_group is_group kind }
{
    match (is_group, kind) {
        (true, ColumnKind::Node) => ColumnKind::Nodes,
        (true, ColumnKind::Edge) => ColumnKind::Edges,
        _ => kind,
    }
}

fn found_in_paths(alloc: Global, paths: &[NormalPath]) -> Result<Found, OutOfMemory>
    ensures { IfOk result (λ found. found_data found ≡ with_paths none_yet (map path_data paths.now)) }
{
    let mut found = Found {
        names: Columns::new(alloc),
        groups: KnownColumns::new(alloc),
    };
    for i in 0..paths.len() {
        add_path(alloc, &paths[i], &mut found)?;
    }
    Ok(found)
}

/// Adds the name of a path pattern, and then its variables.
fn add_path(alloc: Global, path: &NormalPath, found: &mut Found) -> Result<(), OutOfMemory>
    ensures { OnOk result (found_data found.new ≡ with_path (found_data found.old) (path_data path.now)) }
{
    add_path_name(alloc, &path.name, found)?;
    add_part(alloc, &path.body, false, found)
}

fn add_path_name(alloc: Global, name: &Option<Text>, found: &mut Found) -> Result<(), OutOfMemory>
    ensures { OnOk result (found_data found.new ≡ with_path_name (found_data found.old) name.now) }
{
    match name {
        Some(name) => found.names.push((name.try_copy(alloc)?, ColumnKind::Path)),
        None => Ok(()),
    }
}

/// Adds the variables of a part, which a quantifier stands around or not.
#[cycle(gathered)]
#[tactic(auto, using(crate::proofs::GatheringLemmas::with_row, crate::proofs::GatheringLemmas::with_beside, crate::proofs::GatheringLemmas::with_told))]
fn add_part(
    alloc: Global,
    part: &Part,
    is_repeated: bool,
    found: &mut Found,
) -> Result<(), OutOfMemory>
    ensures { OnOk result (found_data found.new ≡ with_part is_repeated (found_data found.old) (part_data part.now)) }
{
    match part {
        Part::Node(element) => {
            add_variable(
                alloc,
                &element.variable,
                ColumnKind::Node,
                is_repeated,
                found,
            )
        }
        Part::Edge(_, element) => {
            add_variable(
                alloc,
                &element.variable,
                ColumnKind::Edge,
                is_repeated,
                found,
            )
        }
        Part::Concat(first, second, others) => {
            add_several(
                alloc,
                first.part(),
                second.part(),
                others.as_slice(),
                is_repeated,
                found,
            )
        }
        Part::Union(first, second, others) => {
            add_several(
                alloc,
                first.part(),
                second.part(),
                others.as_slice(),
                is_repeated,
                found,
            )
        }
        Part::Alt(sides) => add_parts(alloc, sides.as_slice(), is_repeated, found),
        Part::Quant(part, _, _) => add_part(alloc, part.part(), true, found),
        Part::Opt(part) | Part::ModeScope(_, part, _) => {
            add_part(alloc, part.part(), is_repeated, found)
        }
    }
}

#[cycle(gathered)]
fn add_several(
    alloc: Global,
    first: &Part,
    second: &Part,
    others: &[Part],
    is_repeated: bool,
    found: &mut Found,
) -> Result<(), OutOfMemory>
    ensures { OnOk result (found_data found.new ≡ with_parts is_repeated (found_data found.old) (part_data first.now ∷ part_data second.now ∷ map part_data others.now)) }
{
    add_part(alloc, first, is_repeated, found)?;
    add_part(alloc, second, is_repeated, found)?;
    add_parts(alloc, others, is_repeated, found)
}

#[cycle(gathered)]
fn add_parts(
    alloc: Global,
    parts: &[Part],
    is_repeated: bool,
    found: &mut Found,
) -> Result<(), OutOfMemory>
    ensures { OnOk result (found_data found.new ≡ with_parts is_repeated (found_data found.old) (map part_data parts.now)) }
{
    for i in 0..parts.len() {
        add_part(alloc, &parts[i], is_repeated, found)?;
    }
    Ok(())
}

fn add_variable(
    alloc: Global,
    variable: &Option<Text>,
    kind: ColumnKind,
    is_repeated: bool,
    found: &mut Found,
) -> Result<(), OutOfMemory>
    ensures { OnOk result (found_data found.new ≡ with_variable is_repeated (found_data found.old) kind variable.now) }
{
    match variable {
        Some(name) => add_name(alloc, name, kind, is_repeated, found),
        None => Ok(()),
    }
}

fn add_name(
    alloc: Global,
    name: &Text,
    kind: ColumnKind,
    is_repeated: bool,
    found: &mut Found,
) -> Result<(), OutOfMemory>
    ensures { OnOk result (found_data found.new ≡ with_variable is_repeated (found_data found.old) kind (Some name.now)) }
{
    found.names.push((name.try_copy(alloc)?, kind))?;
    if is_repeated {
        found.groups.push_copy(alloc, name, kind)?;
    }
    Ok(())
}
