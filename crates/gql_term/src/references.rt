//! The first reference that crosses an unprotected quantifier.
//!
//! A walk takes along what stands in front of the place where it is, and asks of each name whether something there declares
//! it under such a quantifier. So a reference in a row of parts costs a walk over the parts in front of it.

ghost use Rattle.std.specs.Prelude.{◌≡◌, ◌∷◌, false, map, option_map};
ghost use Rattle.std.specs.Option.{option_copied};
ghost use Rattle.gql_ast.specs.Meaning.{tree_of};
ghost use Rattle.gql_norm.specs.NormalData.{part_data, path_data, pattern_data};
ghost use Rattle.gql_norm.specs.NormalPattern.{Alt, Concat, Union, in_a_row, side_by_side, sides_of};
ghost use Rattle.gql_term.specs.FirstReference.{first_group_reference};
ghost use Rattle.gql_term.specs.Machinery.BarredNames.{barred_by};
ghost use Rattle.gql_term.specs.Machinery.OpenReferences.{first_barred, first_barred_beside, first_barred_path, first_barred_row, none_barred, scope_barred};

use crate::before::Before;
use crate::names::{first_in_condition, first_in_element};
use crate::open_ends::{has_open, protects};
use gql_ast::Expr;
use gql_norm::{NormalPath, NormalPattern, Part};
use gql_values3::Text;

/// The first reference of the pattern that crosses an unprotected quantifier, selectors or not.
#[tactic(auto, using(crate::proofs::BarredLemmas::paths_are))]
pub fn group_ref(pattern: &NormalPattern) -> Option<&Text>
    ensures { option_copied result ≡ first_group_reference (pattern_data pattern.now) }
{
    first_in_paths(pattern.paths.as_slice())
}

fn first_in_paths(paths: &[NormalPath]) -> Option<&Text>
    ensures { option_copied result ≡ first_barred_path (map path_data paths.now) }
{
    for i in 0..paths.len() {
        let path = &paths[i];
        if let Some(name) = first_in_body(&path.body) {
            return Some(name);
        }
    }
    None
}

/// A body without an unprotected quantifier, as nearly all are, is not walked again for each of its references.
fn first_in_body(body: &Part) -> Option<&Text>
    ensures { option_copied result ≡ first_barred (part_data body.now) false none_barred }
{
    if has_open(body, false) {
        first_in(body, false, &Before::Nothing)
    } else {
        None
    }
}

/// The first reference in a part to a name that is barred where it stands. A scope around protects the part or not.
#[cycle(references)]
fn first_in<'e, 'a>(part: &'e Part, is_safe: bool, before: &'a Before<'a>) -> Option<&'e Text>
    ensures { option_copied result ≡ first_barred (part_data part.now) is_safe (barred_by before.now) }
{
    match part {
        Part::Node(element) | Part::Edge(_, element) => first_in_element(element, before),
        Part::Concat(first, second, others) => in_row(
            first.part(),
            second.part(),
            others.as_slice(),
            is_safe,
            before,
        ),
        Part::Union(first, second, others) => beside(
            first.part(),
            second.part(),
            others.as_slice(),
            is_safe,
            before,
        ),
        Part::Alt(sides) => told(sides.as_slice(), is_safe, before),
        Part::Quant(part, _, _) | Part::Opt(part) => first_in(part.part(), is_safe, before),
        Part::ModeScope(mode, part, condition) => {
            in_scope(part.part(), condition, is_safe | protects(*mode), before)
        }
    }
}

/// Of a part in parentheses, and then of their condition, which sees all of the part.
#[cycle(references)]
fn in_scope<'e, 'a>(
    part: &'e Part,
    condition: &'e Option<Expr>,
    is_safe: bool,
    before: &'a Before<'a>,
) -> Option<&'e Text>
    ensures { option_copied result ≡ scope_barred (part_data part.now) (option_map tree_of condition.now) is_safe (barred_by before.now) }
{
    match first_in(part, is_safe, before) {
        Some(name) => Some(name),
        None => first_in_condition(condition, &Before::Part(&*before, &*part, is_safe)),
    }
}

#[cycle(references)]
fn in_row<'e, 'a>(
    first: &'e Part,
    second: &'e Part,
    others: &'e [Part],
    is_safe: bool,
    before: &'a Before<'a>,
) -> Option<&'e Text>
    ensures { option_copied result ≡ first_barred (Concat (part_data first.now) (in_a_row (part_data second.now) (map part_data others.now))) is_safe (barred_by before.now) }
{
    match first_in(first, is_safe, before) {
        Some(name) => Some(name),
        None => behind(
            second,
            others,
            is_safe,
            &Before::Part(&*before, &*first, is_safe),
        ),
    }
}

/// Of one or more parts in a row.
#[cycle(references)]
#[tactic(auto, using(crate::proofs::FirstBarredLemmas::behind_barred))]
fn behind<'e, 'a>(
    first: &'e Part,
    others: &'e [Part],
    is_safe: bool,
    before: &'a Before<'a>,
) -> Option<&'e Text>
    ensures { option_copied result ≡ first_barred (in_a_row (part_data first.now) (map part_data others.now)) is_safe (barred_by before.now) }
{
    match first_in(first, is_safe, before) {
        Some(name) => Some(name),
        None => row(others, is_safe, &Before::Part(&*before, &*first, is_safe)),
    }
}

#[cycle(references)]
fn row<'e, 'a>(parts: &'e [Part], is_safe: bool, before: &'a Before<'a>) -> Option<&'e Text>
    ensures { option_copied result ≡ first_barred_row (map part_data parts.now) is_safe (barred_by before.now) }
{
    for i in 0..parts.len() {
        let part = &parts[i];
        if let Some(name) = first_in(
            part,
            is_safe,
            &Before::Parts(&*before, &parts[..i], is_safe),
        ) {
            return Some(name);
        }
    }
    None
}

#[cycle(references)]
#[tactic(auto, using(crate::proofs::FirstBarredLemmas::beside_barred))]
fn beside<'e, 'a>(
    first: &'e Part,
    second: &'e Part,
    others: &'e [Part],
    is_safe: bool,
    before: &'a Before<'a>,
) -> Option<&'e Text>
    ensures { option_copied result ≡ first_barred (Union (part_data first.now) (side_by_side (part_data second.now) (map part_data others.now))) is_safe (barred_by before.now) }
{
    if let Some(name) = first_in(first, is_safe, before) {
        return Some(name);
    }
    match first_in(second, is_safe, before) {
        Some(name) => Some(name),
        None => sides(others, is_safe, before),
    }
}

#[cycle(references)]
#[tactic(auto, using(crate::proofs::FirstBarredLemmas::told_barred))]
fn told<'e, 'a>(parts: &'e [Part], is_safe: bool, before: &'a Before<'a>) -> Option<&'e Text>
    ensures { option_copied result ≡ first_barred (Alt (sides_of (map part_data parts.now))) is_safe (barred_by before.now) }
{
    sides(parts, is_safe, before)
}

/// Of parts of which one is taken. None of them sees another.
#[cycle(references)]
fn sides<'e, 'a>(parts: &'e [Part], is_safe: bool, before: &'a Before<'a>) -> Option<&'e Text>
    ensures { option_copied result ≡ first_barred_beside (map part_data parts.now) is_safe (barred_by before.now) }
{
    for i in 0..parts.len() {
        let part = &parts[i];
        if let Some(name) = first_in(part, is_safe, before) {
            return Some(name);
        }
    }
    None
}
