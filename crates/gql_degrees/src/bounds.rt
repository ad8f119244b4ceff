//! The first bound or number of a selector at fault, in a graph pattern as it was written.

ghost use Rattle.std.specs.Prelude.{◌≡◌, map, option_map};
ghost use Rattle.std.specs.List.{flat_map};
ghost use Rattle.gql_ast.specs.Pattern.{patterns_of};
ghost use Rattle.gql_ast.specs.PatternMeaning.{pattern_of};
ghost use Rattle.gql_expr_checks.specs.First.{first};
ghost use Rattle.gql_norm.specs.Bounds.{bounds_in, bounds_in_selector, faults_of_bounds, faults_of_number};
ghost use Rattle.gql_norm.specs.NormalForm.{fewest_copies, from_prefix, most_copies, part_of, selector_of};
ghost use Rattle.gql_degrees.specs.FirstFaults.{first_bound_at_fault, told_number};
ghost use Rattle.gql_degrees.specs.Machinery.ToldBounds.{bounds_in_path, bounds_in_patterns, first_told};

use crate::digits::{fewest_copies, most_copies, number_of, number_or_one};
use gql_ast::{GraphPattern, PathExpr, PathPattern, Prefix, Quantifier};

/// The greatest bound of a quantifier, and the greatest number of a selector.
const GREATEST: u64 = 65_535;

/// The first number of the pattern that is at fault: one above 65,535, a selector's that is 0, or a least bound above the
/// greatest. One above the largest integer, which is refused before, is told as the largest.
#[tactic(auto, using(crate::proofs::BoundLemmas::integer_told))]
pub fn bound_at_fault(pattern: &GraphPattern) -> Option<i64>
    ensures { result ≡ first_bound_at_fault pattern.now }
{
    match in_paths(pattern.paths.as_slice()) {
        Some(number) => Some(integer(number)),
        None => None,
    }
}

fn integer(number: u64) -> i64
    ensures { result ≡ told_number number }
{
    match i64::try_from(number) {
        Ok(integer) => integer,
        Err(_) => i64::MAX,
    }
}

fn in_paths(paths: &[PathPattern]) -> Option<u64>
    ensures { result ≡ first_told (flat_map bounds_in_path paths.now) }
{
    for i in 0..paths.len() {
        if let Some(number) = in_path(&paths[i]) {
            return Some(number);
        }
    }
    None
}

/// The mode of the prefix makes a part around the whole, which has no bounds of its own.
#[tactic(auto, using(crate::proofs::BoundLemmas::path_told))]
fn in_path(path: &PathPattern) -> Option<u64>
    ensures { result ≡ first_told (bounds_in_path path.now) }
{
    match in_prefix(&path.prefix) {
        Some(number) => Some(number),
        None => in_pattern(&path.expr),
    }
}

#[tactic(auto, using(crate::proofs::BoundLemmas::number_told))]
fn in_prefix(prefix: &Option<Prefix>) -> Option<u64>
    ensures { result ≡ first_told (bounds_in_selector (from_prefix selector_of prefix.now)) }
{
    match prefix {
        Some(Prefix::Shortest(count, _)) => fault_of_number(number_of(count)),
        Some(Prefix::Any(count, _) | Prefix::ShortestGroups(count, _)) => {
            fault_of_number(number_or_one(count))
        }
        Some(Prefix::Mode(_) | Prefix::All(_)) | None => None,
        Some(Prefix::AllShortest(_) | Prefix::AnyShortest(_)) => None,
    }
}

#[cycle(bounds)]
#[tactic(auto, using(crate::proofs::BoundLemmas::repeated_told, crate::proofs::BoundLemmas::row_told, crate::proofs::BoundLemmas::sides_told, crate::proofs::BoundLemmas::told_sides_told))]
fn in_pattern(pattern: &PathExpr) -> Option<u64>
    ensures { result ≡ first_told (bounds_in (part_of (pattern_of pattern.now))) }
{
    match pattern {
        PathExpr::Node(_) | PathExpr::Edge(_, _) => None,
        PathExpr::Paren(_, part, _) | PathExpr::Optional(part) => in_pattern(part.expr()),
        PathExpr::Repeat(part, quantifier) => match in_pattern(part.expr()) {
            Some(number) => Some(number),
            None => in_quantifier(quantifier),
        },
        PathExpr::Concat(first, rest)
        | PathExpr::Union(first, rest)
        | PathExpr::MultisetUnion(first, rest) => match in_pattern(first.expr()) {
            Some(number) => Some(number),
            None => in_patterns(rest.as_slice()),
        },
    }
}

#[cycle(bounds)]
fn in_patterns(patterns: &[PathExpr]) -> Option<u64>
    ensures { result ≡ first_told (bounds_in_patterns (patterns_of (map pattern_of patterns.now))) }
{
    for i in 0..patterns.len() {
        if let Some(number) = in_pattern(&patterns[i]) {
            return Some(number);
        }
    }
    None
}

/// A quantifier stands behind its part.
#[tactic(auto, using(crate::proofs::BoundLemmas::quantifier_told))]
fn in_quantifier(quantifier: &Quantifier) -> Option<u64>
    ensures { result ≡ first_told (faults_of_bounds (fewest_copies quantifier.now) (most_copies quantifier.now)) }
{
    fault_of_bounds(fewest_copies(quantifier), most_copies(quantifier))
}

/// The least bound stands before the greatest.
fn fault_of_bounds(least: u64, most: Option<u64>) -> Option<u64>
    ensures { result ≡ first (faults_of_bounds least most) }
{
    match most {
        None if least > GREATEST => Some(least),
        None => None,
        Some(most) if least > GREATEST || most < least => Some(least),
        Some(most) if most > GREATEST => Some(most),
        Some(_) => None,
    }
}

fn fault_of_number(number: u64) -> Option<u64>
    ensures { result ≡ first (faults_of_number number) }
{
    if number == 0 || number > GREATEST {
        Some(number)
    } else {
        None
    }
}
