//! A question under what may be named, asked of a whole pattern: of its path names, its path patterns, and the final WHERE.

ghost use Rattle.std.specs.Prelude.{◌≡◌, [], map, IfOk, IsTrue, OnOk, Some};
ghost use Rattle.gql_expr_checks.specs.Gives.{Gives};
ghost use Rattle.gql_norm.specs.NormalData.{part_data, path_data, pattern_data};
ghost use Rattle.gql_pattern_checks.specs.Machinery.ScopeWalk.{AreFree, IsFree, IsFreePattern, any_named, asks_for_names, refused_in_paths, refused_name, refused_path, refused_path_name, refused_pattern, refused_seeing, with_name_of};

use crate::scope::Names;
use crate::scope_walk::check_part;
use crate::scoped::{ScopeQuestion, Walk, ask_condition};
use crate::variables::names_of_paths;
use gql_ast::Refusal;
use gql_expr_checks::{NameList, ScopeFault};
use gql_norm::{NormalPath, NormalPattern, Part};
use gql_values3::{OutOfMemory, Text};

/// Asks of a pattern. The final WHERE sees all that the pattern names.
pub fn check_pattern(walk: &Walk, pattern: &NormalPattern) -> Result<(), ScopeFault>
    ensures { Gives result (refused_pattern walk.now.question walk.now.columns.now (pattern_data pattern.now)) }
{
    if is_bare(pattern) {
        return Ok(());
    }
    check_whole(walk, pattern)
}

/// Whether nothing stands in a pattern of which something could be asked: no final WHERE, and one path pattern, which has no path name
/// and is one element without predicates.
fn is_bare(pattern: &NormalPattern) -> bool
    ensures { IsTrue result → IsFreePattern (pattern_data pattern.now) }
{
    pattern.condition.is_none() && are_bare_paths(pattern.paths.as_slice())
}

fn are_bare_paths(paths: &[NormalPath]) -> bool
    ensures { IsTrue result → AreFree (map path_data paths.now) }
{
    match paths {
        [path] if path.name.is_none() => is_bare_part(&path.body),
        _ => false,
    }
}

fn is_bare_part(part: &Part) -> bool
    ensures { IsTrue result → IsFree (part_data part.now) }
{
    match part {
        Part::Node(element) => element.predicates.is_empty(),
        Part::Edge(_, element) => element.predicates.is_empty(),
        _ => false,
    }
}

/// Asks of each path pattern and of the final WHERE.
#[inline(never)]
fn check_whole(walk: &Walk, pattern: &NormalPattern) -> Result<(), ScopeFault>
    ensures { Gives result (refused_pattern walk.now.question walk.now.columns.now (pattern_data pattern.now)) }
{
    let names = names_that_serve(walk, pattern)?;
    check_paths(walk, &names, pattern.paths.as_slice())?;
    ask_condition(walk, &names, &pattern.condition)
}

/// All that the pattern names, or nothing where nothing asks for it.
fn names_that_serve(walk: &Walk, pattern: &NormalPattern) -> Result<Names, OutOfMemory>
    ensures { IfOk result (λ names. refused_seeing walk.now.question walk.now.columns.now names (pattern_data pattern.now) ≡ refused_pattern walk.now.question walk.now.columns.now (pattern_data pattern.now)) }
{
    if asks_for_names(pattern) {
        names_of_paths(walk.alloc, pattern.paths.as_slice())
    } else {
        Ok(Names::new(walk.alloc))
    }
}

/// Whether there is a final WHERE, or a path name, which must not be a variable's.
#[tactic(auto, using(crate::proofs::AskedLemmas::some_mapped))]
fn asks_for_names(pattern: &NormalPattern) -> bool
    ensures { result ≡ asks_for_names (pattern_data pattern.now) }
{
    pattern.condition.is_some() || any_named(pattern.paths.as_slice())
}

fn any_named(paths: &[NormalPath]) -> bool
    ensures { result ≡ any_named (map path_data paths.now) }
{
    for path in paths {
        if path.name.is_some() {
            return true;
        }
    }
    false
}

fn check_paths(walk: &Walk, names: &Names, paths: &[NormalPath]) -> Result<(), ScopeFault>
    ensures { Gives result (refused_in_paths walk.now.question walk.now.columns.now [] names.now.variables (map path_data paths.now)) }
{
    let mut before = NameList::new(walk.alloc);
    for path in paths {
        check_path(walk, names, &mut before, path)?;
    }
    Ok(())
}

/// Asks of a path pattern, and adds its path name to those before.
fn check_path(
    walk: &Walk,
    names: &Names,
    before: &mut NameList,
    path: &NormalPath,
) -> Result<(), ScopeFault>
    ensures faults { Gives result (refused_path walk.now.question walk.now.columns.now before.old names.now.variables (path_data path.now)) }
    ensures added { OnOk result (before.new ≡ with_name_of before.old (path_data path.now).name) }
{
    check_path_name(walk, names, before, &path.name)?;
    check_part(walk, &mut Names::new(walk.alloc), &path.body)?;
    if let Some(name) = &path.name {
        before.add(walk.alloc, name)?;
    }
    Ok(())
}

/// Asks of a path name: only its own name matters.
fn check_path_name(
    walk: &Walk,
    names: &Names,
    before: &NameList,
    name: &Option<Text>,
) -> Result<(), ScopeFault>
    ensures { Gives result (refused_path_name walk.now.question walk.now.columns.now before.now names.now.variables name.now) }
{
    match (walk.question, name) {
        (ScopeQuestion::Names, Some(name)) => check_free(walk, names, before, name),
        _ => Ok(()),
    }
}

/// Checks that a path name stands for nothing else.
fn check_free(walk: &Walk, names: &Names, before: &NameList, name: &Text) -> Result<(), ScopeFault>
    ensures { Gives result (refused_name walk.now.columns.now before.now names.now.variables (Some name.now)) }
{
    if walk.columns.contains(name) || before.contains(name) || names.variables.contains(name) {
        return Err(ScopeFault::Defect(Refusal::Variable(name.try_copy(walk.alloc)?)));
    }
    Ok(())
}
