//! Parts of least length 0, and quantifiers that repeat one.

ghost use Rattle.std.specs.Prelude.{◌≡◌, ◌==◌, length, map};
ghost use Rattle.std.specs.List.{list_any};
ghost use Rattle.gql_norm.specs.NormalData.{part_data, path_data, pattern_data};
ghost use Rattle.gql_norm.specs.NormalPattern.{Alt, Concat, Union, in_a_row, side_by_side, sides_of};
ghost use Rattle.gql_norm.specs.Termination.{empty_loop, has_empty_loop};
ghost use Rattle.gql_term.specs.Machinery.NoLength.{lengths_of, list_lengths_of, optional_lengths, path_has_empty_loop, repeated_lengths, row_lengths, side_lengths, told_lengths};

use gql_norm::{NormalPath, NormalPattern, Part};

/// Whether a quantifier of the pattern repeats a part of least length 0.
pub fn empty_loop(pattern: &NormalPattern) -> bool
    ensures { result ≡ empty_loop (pattern_data pattern.now) }
{
    some_has_empty_loop(pattern.paths.as_slice())
}

fn some_has_empty_loop(paths: &[NormalPath]) -> bool
    ensures { result ≡ list_any path_has_empty_loop (map path_data paths.now) }
{
    for i in 0..paths.len() {
        if has_empty_loop(&paths[i].body) {
            return true;
        }
    }
    false
}

fn has_empty_loop(body: &Part) -> bool
    ensures { result ≡ has_empty_loop (part_data body.now) }
{
    lengths_in(body).has_empty_loop
}

/// What is asked of the lengths of a part.
#[derive(Clone, Copy)]
pub struct Lengths {
    /// Its least length is 0.
    pub may_be_none: bool,
    /// Some quantifier in it repeats a part of least length 0.
    pub has_empty_loop: bool,
}

/// The same of several parts.
#[derive(Clone, Copy)]
pub struct ListLengths {
    pub all_may_be_none: bool,
    pub some_may_be_none: bool,
    pub some_has_empty_loop: bool,
}

/// One walk tells both, so that a quantifier in a quantifier is not gone over again.
#[cycle(lengths)]
#[tactic(auto, unfolding(gql_norm::specs::Termination::least_length, gql_norm::specs::Termination::has_empty_loop), using(crate::proofs::NoLengthLemmas::repeated_are))]
fn lengths_in(part: &Part) -> Lengths
    ensures { result ≡ lengths_of (part_data part.now) }
{
    match part {
        Part::Node(_) => Lengths {
            may_be_none: true,
            has_empty_loop: false,
        },
        Part::Edge(_, _) => Lengths {
            may_be_none: false,
            has_empty_loop: false,
        },
        Part::Concat(first, second, others) => {
            in_row(first.part(), second.part(), others.as_slice())
        }
        Part::Union(first, second, others) => {
            beside(first.part(), second.part(), others.as_slice())
        }
        Part::Alt(sides) => told(sides.as_slice()),
        Part::Quant(part, least, _) => repeated(lengths_in(part.part()), *least),
        Part::Opt(part) => optional(lengths_in(part.part())),
        Part::ModeScope(_, part, _) => lengths_in(part.part()),
    }
}

#[cycle(lengths)]
#[tactic(auto, using(crate::proofs::NoLengthLemmas::rows_are))]
fn in_row(first: &Part, second: &Part, others: &[Part]) -> Lengths
    ensures { result ≡ lengths_of (Concat (part_data first.now) (in_a_row (part_data second.now) (map part_data others.now))) }
{
    row_lengths(lengths_in(first), lengths_in(second), list_lengths(others))
}

#[cycle(lengths)]
#[tactic(auto, using(crate::proofs::NoLengthLemmas::sides_are))]
fn beside(first: &Part, second: &Part, others: &[Part]) -> Lengths
    ensures { result ≡ lengths_of (Union (part_data first.now) (side_by_side (part_data second.now) (map part_data others.now))) }
{
    side_lengths(lengths_in(first), lengths_in(second), list_lengths(others))
}

#[cycle(lengths)]
#[tactic(auto, using(crate::proofs::NoLengthLemmas::told_are))]
fn told(sides: &[Part]) -> Lengths
    ensures { result ≡ lengths_of (Alt (sides_of (map part_data sides.now))) }
{
    told_lengths(sides.is_empty(), list_lengths(sides))
}

#[cycle(lengths)]
fn list_lengths(parts: &[Part]) -> ListLengths
    ensures { result ≡ list_lengths_of (map part_data parts.now) }
{
    let mut all_may_be_none = true;
    let mut some_may_be_none = false;
    let mut some_has_empty_loop = false;
    for i in 0..parts.len() {
        let part = lengths_in(&parts[i]);
        all_may_be_none = all_may_be_none & part.may_be_none;
        some_may_be_none = some_may_be_none | part.may_be_none;
        some_has_empty_loop = some_has_empty_loop | part.has_empty_loop;
    }
    ListLengths {
        all_may_be_none,
        some_may_be_none,
        some_has_empty_loop,
    }
}

/// Of two parts and more in a row.
fn row_lengths(a: Lengths, b: Lengths, rest: ListLengths) -> Lengths
    ensures { result ≡ row_lengths a b rest }
{
    Lengths {
        may_be_none: a.may_be_none & b.may_be_none & rest.all_may_be_none,
        has_empty_loop: a.has_empty_loop | b.has_empty_loop | rest.some_has_empty_loop,
    }
}

/// Of two parts and more of which one is taken.
fn side_lengths(a: Lengths, b: Lengths, rest: ListLengths) -> Lengths
    ensures { result ≡ side_lengths a b rest }
{
    Lengths {
        may_be_none: a.may_be_none | b.may_be_none | rest.some_may_be_none,
        has_empty_loop: a.has_empty_loop | b.has_empty_loop | rest.some_has_empty_loop,
    }
}

/// Of sides whose number is told. A list without a side counts as one of length 0.
fn told_lengths(is_empty: bool, sides: ListLengths) -> Lengths
    ensures { result ≡ told_lengths is_empty sides }
{
    Lengths {
        may_be_none: is_empty | sides.some_may_be_none,
        has_empty_loop: sides.some_has_empty_loop,
    }
}

fn repeated(part: Lengths, least: u32) -> Lengths
    ensures { result ≡ repeated_lengths part least }
{
    Lengths {
        may_be_none: (least == 0) | part.may_be_none,
        has_empty_loop: part.may_be_none | part.has_empty_loop,
    }
}

fn optional(part: Lengths) -> Lengths
    ensures { result ≡ optional_lengths part }
{
    Lengths {
        may_be_none: true,
        has_empty_loop: part.has_empty_loop,
    }
}
