//! The first wide number in a pattern.

ghost use Rattle.std.specs.Prelude.{◌≡◌, find, map, Option};
ghost use Rattle.std.specs.List.{flat_map};
ghost use Rattle.std.specs.Option.{option_copied, option_map};
ghost use Rattle.gql_ast.specs.Meaning.{tree_of};
ghost use Rattle.gql_ast.specs.Pattern.{patterns_of};
ghost use Rattle.gql_ast.specs.PatternMeaning.{condition_of, filler_of, pattern_of};
ghost use Rattle.gql_ast.specs.NumberLiterals.{is_wide, within, numbers_in, numbers_in_condition, numbers_in_entry, numbers_in_expr, numbers_in_filler, numbers_in_graph_pattern, numbers_in_path, numbers_in_pattern, numbers_in_patterns, numbers_in_prefix, numbers_in_quantifier};

use super::expressions::in_expr;
use super::numerals::{if_there, if_wide};
use gql_ast::{
    Condition, Expr, Filler, GraphPattern, MapItem, PathExpr, PathPattern, Prefix, Quantifier,
};
use gql_values3::Text;

/// The first number of the patterns of a MATCH that is too large.
#[tactic(auto, using(crate::proofs::FindLemmas::in_both))]
pub fn in_graph_pattern(pattern: &GraphPattern) -> Option<&Text>
    ensures { option_copied result ≡ find is_wide (numbers_in_graph_pattern pattern.now) }
{
    match in_paths(pattern.paths.as_slice()) {
        Some(digits) => Some(digits),
        None => in_where(&pattern.condition),
    }
}

/// The same of a condition that may be missing.
fn in_where(condition: &Option<Expr>) -> Option<&Text>
    ensures { option_copied result ≡ find is_wide (within numbers_in_expr condition.now) }
{
    match condition {
        Some(condition) => in_expr(condition),
        None => None,
    }
}

#[tactic(auto, using(crate::proofs::FindLemmas::in_item))]
fn in_paths(paths: &[PathPattern]) -> Option<&Text>
    ensures { option_copied result ≡ find is_wide (flat_map numbers_in_path paths.now) }
{
    for path in paths {
        if let Some(digits) = in_path(path) {
            return Some(digits);
        }
    }
    None
}

#[tactic(auto, using(crate::proofs::FindLemmas::in_both))]
fn in_path(path: &PathPattern) -> Option<&Text>
    ensures { option_copied result ≡ find is_wide (numbers_in_path path.now) }
{
    match in_prefix(&path.prefix) {
        Some(digits) => Some(digits),
        None => in_pattern(&path.expr),
    }
}

fn in_prefix(prefix: &Option<Prefix>) -> Option<&Text>
    ensures { option_copied result ≡ find is_wide (within numbers_in_prefix prefix.now) }
{
    match prefix {
        Some(Prefix::Shortest(count, _)) => if_wide(count),
        Some(Prefix::Any(count, _) | Prefix::ShortestGroups(count, _)) => if_there(count),
        Some(Prefix::Mode(_) | Prefix::All(_)) | None => None,
        Some(Prefix::AllShortest(_) | Prefix::AnyShortest(_)) => None,
    }
}

/// The first number of a path pattern that is too large.
#[cycle(wide_pattern)]
#[tactic(auto, using(crate::proofs::FindLemmas::in_both))]
fn in_pattern(pattern: &PathExpr) -> Option<&Text>
    ensures { option_copied result ≡ find is_wide (numbers_in_pattern (pattern_of pattern.now)) }
{
    match pattern {
        PathExpr::Node(filler) | PathExpr::Edge(_, filler) => in_filler(filler),
        PathExpr::Paren(_, part, condition) => match in_pattern(part.expr()) {
            Some(digits) => Some(digits),
            None => in_where(condition),
        },
        PathExpr::Repeat(part, quantifier) => match in_pattern(part.expr()) {
            Some(digits) => Some(digits),
            None => in_quantifier(quantifier),
        },
        PathExpr::Optional(part) => in_pattern(part.expr()),
        PathExpr::Concat(first, rest)
        | PathExpr::Union(first, rest)
        | PathExpr::MultisetUnion(first, rest) => match in_pattern(first.expr()) {
            Some(digits) => Some(digits),
            None => in_patterns(rest.as_slice()),
        },
    }
}

#[cycle(wide_pattern)]
#[tactic(auto, using(crate::proofs::FindLemmas::in_both))]
fn in_patterns(patterns: &[PathExpr]) -> Option<&Text>
    ensures { option_copied result ≡ find is_wide (numbers_in_patterns (patterns_of (map pattern_of patterns.now))) }
{
    for i in 0..patterns.len() {
        if let Some(digits) = in_pattern(&patterns[i]) {
            return Some(digits);
        }
    }
    None
}

#[tactic(auto, using(crate::proofs::FindLemmas::in_both))]
fn in_quantifier(quantifier: &Quantifier) -> Option<&Text>
    ensures { option_copied result ≡ find is_wide (numbers_in_quantifier quantifier.now) }
{
    match quantifier {
        Quantifier::Star | Quantifier::Plus => None,
        Quantifier::Exactly(count) => if_wide(count),
        Quantifier::Between(least, most) => match if_there(least) {
            Some(digits) => Some(digits),
            None => if_there(most),
        },
    }
}

fn in_filler(filler: &Filler) -> Option<&Text>
    ensures { option_copied result ≡ find is_wide (numbers_in_filler (filler_of filler.now)) }
{
    match &filler.condition {
        Some(condition) => in_condition(condition),
        None => None,
    }
}

#[tactic(auto, using(crate::proofs::FindLemmas::named))]
fn in_condition(condition: &Condition) -> Option<&Text>
    ensures { option_copied result ≡ find is_wide (numbers_in_condition (condition_of condition.now)) }
{
    match condition {
        Condition::Map(items) => in_map(items.as_slice()),
        Condition::Where(condition) => in_expr(condition),
    }
}

/// The first number of the values of a map that is too large.
#[tactic(auto, using(crate::proofs::FindLemmas::in_item))]
pub fn in_map(items: &[MapItem]) -> Option<&Text>
    ensures { option_copied result ≡ find is_wide (flat_map numbers_in_entry items.now) }
{
    for item in items {
        if let Some(digits) = in_expr(&item.value) {
            return Some(digits);
        }
    }
    None
}
