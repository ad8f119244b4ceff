//! Quantifiers without an upper bound that nothing protects.

ghost use Rattle.std.specs.Prelude.{◌≡◌, ◌∷◌, map};
ghost use Rattle.std.specs.List.{list_any};
ghost use Rattle.gql_norm.specs.NormalData.{part_data, path_data, pattern_data};
ghost use Rattle.gql_norm.specs.Termination.{is_unprotected, protects, unbounded};
ghost use Rattle.gql_term.specs.Machinery.OpenEnds.{has_open, is_open};

use gql_ast::Mode;
use gql_norm::{NormalPath, NormalPattern, Part};

/// Whether a path pattern without a selector has an unprotected quantifier: one without an upper bound that stands in no
/// TRAIL, ACYCLIC or SIMPLE scope.
pub fn unbounded(pattern: &NormalPattern) -> bool
    ensures { result ≡ unbounded (pattern_data pattern.now) }
{
    some_is_unprotected(pattern.paths.as_slice())
}

fn some_is_unprotected(paths: &[NormalPath]) -> bool
    ensures { result ≡ list_any is_unprotected (map path_data paths.now) }
{
    for i in 0..paths.len() {
        if is_unprotected(&paths[i]) {
            return true;
        }
    }
    false
}

#[tactic(auto, using(crate::proofs::OpenEndLemmas::unprotected_is))]
fn is_unprotected(path: &NormalPath) -> bool
    ensures { result ≡ is_unprotected (path_data path.now) }
{
    has_open(&path.body, false) & path.selector.is_none()
}

/// Whether some quantifier of the part is unprotected, where a scope around the part protects it or not.
#[cycle(open)]
#[tactic(auto, using(crate::proofs::OpenEndLemmas::open_row, crate::proofs::OpenEndLemmas::open_beside, crate::proofs::OpenEndLemmas::open_told))]
pub fn has_open(part: &Part, is_safe: bool) -> bool
    ensures { result ≡ has_open (part_data part.now) is_safe }
{
    match part {
        Part::Node(_) | Part::Edge(_, _) => false,
        Part::Concat(first, second, others) => {
            several_have_open(first.part(), second.part(), others.as_slice(), is_safe)
        }
        Part::Union(first, second, others) => {
            several_have_open(first.part(), second.part(), others.as_slice(), is_safe)
        }
        Part::Alt(sides) => some_has_open(sides.as_slice(), is_safe),
        Part::Quant(part, _, most) => is_open(is_safe, *most) || has_open(part.part(), is_safe),
        Part::Opt(part) => has_open(part.part(), is_safe),
        Part::ModeScope(mode, part, _) => has_open(part.part(), is_safe | protects(*mode)),
    }
}

#[cycle(open)]
fn several_have_open(first: &Part, second: &Part, others: &[Part], is_safe: bool) -> bool
    ensures { result ≡ list_any (λ p. has_open p is_safe) (part_data first.now ∷ part_data second.now ∷ map part_data others.now) }
{
    has_open(first, is_safe) || has_open(second, is_safe) || some_has_open(others, is_safe)
}

#[cycle(open)]
fn some_has_open(parts: &[Part], is_safe: bool) -> bool
    ensures { result ≡ list_any (λ p. has_open p is_safe) (map part_data parts.now) }
{
    for i in 0..parts.len() {
        let part = &parts[i];
        if has_open(part, is_safe) {
            return true;
        }
    }
    false
}

/// Whether a quantifier with this upper bound, if any, is unprotected.
pub fn is_open(is_safe: bool, most: Option<u32>) -> bool
    ensures { result ≡ is_open is_safe most }
{
    !is_safe & most.is_none()
}

/// TRAIL, ACYCLIC and SIMPLE protect what stands in their scope.
pub fn protects(mode: Mode) -> bool
    ensures { result ≡ protects mode }
{
    match mode {
        Mode::Walk => false,
        Mode::Trail | Mode::Acyclic | Mode::Simple => true,
    }
}
