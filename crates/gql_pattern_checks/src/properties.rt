//! E16 of a pattern: a property that a map names twice.

ghost use Rattle.std.specs.List.{flat_map};
ghost use Rattle.std.specs.Prelude.{◌≡◌, [], ◌∷◌, map, OnOk, Some, None, if◌then◌else◌};
ghost use Rattle.gql_expr_checks.specs.Gives.{Gives};
ghost use Rattle.gql_expr_checks.specs.Machinery.Seen.{seen_names};
ghost use Rattle.gql_expr_checks.specs.Refusals.{refusal_of_first};
ghost use Rattle.gql_expr_checks.specs.Repeated.{is_among, repeated};
ghost use Rattle.gql_norm.specs.NormalData.{pattern_data, predicate_data};
ghost use Rattle.gql_norm.specs.OtherDefects.{repeated_properties};
ghost use Rattle.gql_norm.specs.PredicateSpot.{property_in};
ghost use Rattle.gql_pattern_checks.specs.Machinery.Questions.{named_before, named_behind, repeated_in_element, second_naming};

use crate::walk::{Question, ask_paths};
use gql_ast::{ColumnRef, Expr, Refusal};
use gql_expr_checks::{KnownColumns, ScopeFault};
use gql_norm::{ElementPattern, NormalPattern, Predicate};
use gql_values3::{ColumnKind, Text};
use std::alloc::Global;

/// Checks that no map of a pattern names a property twice: fails the first in the text that stands a second time.
pub fn check_pattern_properties(alloc: Global, pattern: &NormalPattern) -> Result<(), ScopeFault>
    ensures { Gives result (refusal_of_first (λ x. Refusal.Column (ColumnRef.Property x)) (repeated_properties (pattern_data pattern.now))) }
{
    ask_paths(&AreNamedOnce, alloc, pattern.paths.as_slice())
}

/// Whether each map names a property once.
#[derive(Drop)]
pub struct AreNamedOnce;

impl Question for AreNamedOnce {
    ghost of_element = { λ _ w. repeated_in_element w };

    ghost of_condition = { λ _ _. None };

    fn ask_element(&self, alloc: Global, element: &ElementPattern) -> Result<(), ScopeFault> {
        check_predicates(alloc, element.predicates.as_slice())
    }

    fn ask_condition(&self, _alloc: Global, _condition: &Expr) -> Result<(), ScopeFault> {
        Ok(())
    }
}

#[tactic(auto, using(crate::proofs::PropertyLemmas::named_step))]
fn check_predicates(alloc: Global, predicates: &[Predicate]) -> Result<(), ScopeFault>
    ensures { Gives result (second_naming (repeated [] (flat_map property_in (map predicate_data predicates.now)))) }
{
    let mut seen = KnownColumns::new(alloc);
    for predicate in predicates {
        check_predicate(alloc, &mut seen, predicate)?;
    }
    Ok(())
}

/// Checks that the property of a predicate, if it asks of one, was not seen before, and notes it.
fn check_predicate(
    alloc: Global,
    seen: &mut KnownColumns,
    predicate: &Predicate,
) -> Result<(), ScopeFault>
    ensures fresh { Gives result (named_before (seen_names seen.old) (predicate_data predicate.now)) }
    ensures noted { OnOk result (seen_names seen.new ≡ named_behind (seen_names seen.old) (predicate_data predicate.now)) }
{
    match predicate {
        Predicate::PropertyIs(name, _) => check_property(alloc, seen, name),
        Predicate::Holds(_) => Ok(()),
    }
}

#[tactic(auto, using(gql_expr_checks::proofs::SeenLemmas::seen))]
fn check_property(alloc: Global, seen: &mut KnownColumns, name: &Text) -> Result<(), ScopeFault>
    ensures fresh { Gives result (if is_among (seen_names seen.old) name.now then Some (Refusal.Column (ColumnRef.Property name.now)) else None) }
    ensures noted { OnOk result (seen_names seen.new ≡ name.now ∷ seen_names seen.old) }
{
    if seen.contains(name) {
        let copy = name.try_copy(alloc)?;
        return Err(ScopeFault::Defect(Refusal::Column(ColumnRef::Property(copy))));
    }
    seen.push_copy(alloc, name, ColumnKind::Plain)?;
    Ok(())
}
