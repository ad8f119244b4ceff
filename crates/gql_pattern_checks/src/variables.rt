//! The variables of parts, added to what may be named.

ghost use Rattle.std.specs.Prelude.{◌≡◌, ◌∷◌, map, false, IfOk, OnOk};
ghost use Rattle.gql_norm.specs.NormalData.{part_data, path_data};
ghost use Rattle.gql_pattern_checks.specs.Machinery.Scopes.{no_names, with_part, with_parts, with_path_name, with_paths};

use crate::scope::Names;
use gql_norm::{NormalPath, Part};
use gql_values3::OutOfMemory;
use std::alloc::Global;

/// All that path patterns name, in the order of the text.
pub fn names_of_paths(alloc: Global, paths: &[NormalPath]) -> Result<Names, OutOfMemory>
    ensures { IfOk result (λ names. names ≡ with_paths no_names (map path_data paths.now)) }
{
    let mut names = Names::new(alloc);
    for path in paths {
        add_path(alloc, path, &mut names)?;
    }
    Ok(names)
}

fn add_path(alloc: Global, path: &NormalPath, names: &mut Names) -> Result<(), OutOfMemory>
    ensures { OnOk result (names.new ≡ with_part false (with_path_name names.old (path_data path.now).name) (path_data path.now).body) }
{
    names.add_path_name(alloc, &path.name)?;
    add_part(alloc, false, &path.body, names)
}

/// Adds the variables of a part. What is declared under a quantifier is a group behind it.
#[cycle(variables)]
#[tactic(auto, using(crate::proofs::ScopeLemmas::with_row, crate::proofs::ScopeLemmas::with_union, crate::proofs::ScopeLemmas::with_told))]
pub fn add_part(
    alloc: Global,
    is_group: bool,
    part: &Part,
    names: &mut Names,
) -> Result<(), OutOfMemory>
    ensures { OnOk result (names.new ≡ with_part is_group names.old (part_data part.now)) }
{
    match part {
        Part::Node(element) => names.add_variable(alloc, is_group, &element.variable),
        Part::Edge(_, element) => names.add_variable(alloc, is_group, &element.variable),
        Part::Concat(first, second, others) => add_several(
            alloc,
            is_group,
            first.part(),
            second.part(),
            others.as_slice(),
            names,
        ),
        Part::Union(first, second, others) => add_several(
            alloc,
            is_group,
            first.part(),
            second.part(),
            others.as_slice(),
            names,
        ),
        Part::Alt(sides) => add_parts(alloc, is_group, sides.as_slice(), names),
        Part::Quant(part, _, _) => add_part(alloc, true, part.part(), names),
        Part::Opt(part) => add_part(alloc, is_group, part.part(), names),
        Part::ModeScope(_, part, _) => add_part(alloc, is_group, part.part(), names),
    }
}

#[cycle(variables)]
fn add_several(
    alloc: Global,
    is_group: bool,
    first: &Part,
    second: &Part,
    others: &[Part],
    names: &mut Names,
) -> Result<(), OutOfMemory>
    ensures { OnOk result (names.new ≡ with_parts is_group names.old (part_data first.now ∷ part_data second.now ∷ map part_data others.now)) }
{
    add_part(alloc, is_group, first, names)?;
    add_part(alloc, is_group, second, names)?;
    add_parts(alloc, is_group, others, names)
}

#[cycle(variables)]
fn add_parts(
    alloc: Global,
    is_group: bool,
    parts: &[Part],
    names: &mut Names,
) -> Result<(), OutOfMemory>
    ensures { OnOk result (names.new ≡ with_parts is_group names.old (map part_data parts.now)) }
{
    for i in 0..parts.len() {
        add_part(alloc, is_group, &parts[i], names)?;
    }
    Ok(())
}
