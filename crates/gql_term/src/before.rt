//! What stands in front of a reference, and which names it bars.

ghost use Rattle.std.specs.Prelude.{◌≡◌, ◌∷◌, map};
ghost use Rattle.std.specs.List.{list_any};
ghost use Rattle.gql_norm.specs.NormalData.{part_data};
ghost use Rattle.gql_term.specs.Machinery.BarredNames.{barred_by};
ghost use Rattle.gql_term.specs.Machinery.OpenReferences.{declares_open, is_variable};

use crate::open_ends::{is_open, protects};
use gql_norm::Part;
use gql_values3::Text;

/// The parts in front of a reference, as far as they are around no part of it: nothing; a part, or several in a row, behind
/// what stands before these. A scope protects them or not. Its meaning is `barred_by`.
#[derive(Clone, Copy)]
pub enum Before<'a> {
    Nothing,
    Part(&'a Before<'a>, &'a Part, bool),
    Parts(&'a Before<'a>, &'a [Part], bool),
}

/// Whether something in front declares the name under an unprotected quantifier.
pub fn is_barred<'a>(before: &Before<'a>, name: &Text) -> bool
    ensures { result ≡ barred_by before.now name.now }
{
    match before {
        Before::Nothing => false,
        Before::Part(outer, part, is_safe) => {
            is_barred(outer, name) || declares_open(part, *is_safe, false, name)
        }
        Before::Parts(outer, parts, is_safe) => {
            is_barred(outer, name) || some_declares_open(parts, *is_safe, false, name)
        }
    }
}

/// Whether the part declares the name under an unprotected quantifier, of which one may be around the part already.
#[cycle(declares)]
#[tactic(auto, using(crate::proofs::DeclaringLemmas::declaring_row, crate::proofs::DeclaringLemmas::declaring_beside, crate::proofs::DeclaringLemmas::declaring_told))]
fn declares_open(part: &Part, is_safe: bool, is_under: bool, name: &Text) -> bool
    ensures { result ≡ declares_open (part_data part.now) is_safe is_under name.now }
{
    match part {
        Part::Node(element) | Part::Edge(_, element) => {
            is_under & is_variable(&element.variable, name)
        }
        Part::Concat(first, second, others) => several_declare_open(
            first.part(),
            second.part(),
            others.as_slice(),
            is_safe,
            is_under,
            name,
        ),
        Part::Union(first, second, others) => several_declare_open(
            first.part(),
            second.part(),
            others.as_slice(),
            is_safe,
            is_under,
            name,
        ),
        Part::Alt(sides) => some_declares_open(sides.as_slice(), is_safe, is_under, name),
        Part::Quant(part, _, most) => {
            declares_open(
                part.part(),
                is_safe,
                is_open(is_safe, *most) | is_under,
                name,
            )
        }
        Part::Opt(part) => declares_open(part.part(), is_safe, is_under, name),
        Part::ModeScope(mode, part, _) => {
            declares_open(part.part(), is_safe | protects(*mode), is_under, name)
        }
    }
}

#[cycle(declares)]
fn several_declare_open(
    first: &Part,
    second: &Part,
    others: &[Part],
    is_safe: bool,
    is_under: bool,
    name: &Text,
) -> bool
    ensures { result ≡ list_any (λ p. declares_open p is_safe is_under name.now) (part_data first.now ∷ part_data second.now ∷ map part_data others.now) }
{
    declares_open(first, is_safe, is_under, name)
        || declares_open(second, is_safe, is_under, name)
        || some_declares_open(others, is_safe, is_under, name)
}

#[cycle(declares)]
fn some_declares_open(parts: &[Part], is_safe: bool, is_under: bool, name: &Text) -> bool
    ensures { result ≡ list_any (λ p. declares_open p is_safe is_under name.now) (map part_data parts.now) }
{
    for i in 0..parts.len() {
        let part = &parts[i];
        if declares_open(part, is_safe, is_under, name) {
            return true;
        }
    }
    false
}

fn is_variable(variable: &Option<Text>, name: &Text) -> bool
    ensures { result ≡ is_variable variable.now name.now }
{
    match variable {
        Some(declared) => name.as_str() == declared.as_str(),
        None => false,
    }
}
