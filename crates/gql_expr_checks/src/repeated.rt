//! E16 of a map: a property that it names twice.

ghost use Rattle.std.specs.Prelude.{◌≡◌, [], ◌∷◌, map, OnOk, if◌then◌else◌};
ghost use Rattle.gql_ast.specs.declared.refusal.ColumnRef.TheVariants as column;
ghost use Rattle.gql_expr_checks.specs.Gives.{Gives};
ghost use Rattle.gql_expr_checks.specs.Machinery.Seen.{seen_names};
ghost use Rattle.gql_expr_checks.specs.Refusals.{refusal_of_first};
ghost use Rattle.gql_expr_checks.specs.Repeated.{is_among, repeated};

use crate::columns::KnownColumns;
use crate::fault::ScopeFault;
use gql_ast::{ColumnRef, MapItem, Refusal};
use gql_values3::{ColumnKind, Text};
use std::alloc::Global;

/// Checks that the property was not seen before, and notes it.
#[tactic(auto, using(crate::proofs::SeenLemmas::seen))]
fn note_property(alloc: Global, seen: &mut KnownColumns, name: &Text) -> Result<(), ScopeFault>
    ensures fresh { Gives result (refusal_of_first Refusal.Column (if is_among (seen_names seen.old) name.now then ColumnRef.Property name.now ∷ [] else [])) }
    ensures noted { OnOk result (seen_names seen.new ≡ name.now ∷ seen_names seen.old) }
{
    if seen.contains(name) {
        let copy = name.try_copy(alloc)?;
        return Err(ScopeFault::Defect(Refusal::Column(ColumnRef::Property(copy))));
    }
    seen.push_copy(alloc, name, ColumnKind::Plain)?;
    Ok(())
}

/// Checks that a map names no property twice.
#[tactic(auto, using(crate::proofs::SeenLemmas::repeated_step))]
pub fn check_properties(alloc: Global, items: &[MapItem]) -> Result<(), ScopeFault>
    ensures { Gives result (refusal_of_first Refusal.Column (map column.Property (repeated [] (map (λ i. i.name) items.now)))) }
{
    let mut seen = KnownColumns::new(alloc);
    for item in items {
        note_property(alloc, &mut seen, &item.name)?;
    }
    Ok(())
}
