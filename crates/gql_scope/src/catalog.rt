//! E08 and E16 of the text of a graph type.

ghost use Rattle.std.specs.Prelude.{map};
ghost use Rattle.gql_expr_checks.specs.Gives.{Gives};
ghost use Rattle.gql_expr_checks.specs.Refusals.{refusal_of_first};
ghost use Rattle.gql_scope.specs.CatalogRefusals.{catalog_refusal, type_refusal};
ghost use Rattle.gql_type.specs.BodyFaults.{wrong_aliases, repeated_names};

use gql_ast::{CatalogStatement, ColumnRef, Refusal, TypeBody};
use gql_expr_checks::ScopeFault;
use gql_type::{repeated_property, wrong_alias};
use std::alloc::Global;

/// Checks a statement about graphs and graph types.
pub fn check_catalog(alloc: Global, statement: &CatalogStatement) -> Result<(), ScopeFault>
    ensures { Gives result (catalog_refusal statement.now) }
{
    match statement {
        CatalogStatement::CreateType { body, .. } => check_type(alloc, body),
        _ => Ok(()),
    }
}

fn check_type(alloc: Global, body: &TypeBody) -> Result<(), ScopeFault>
    ensures { Gives result (type_refusal body.now) }
{
    check_aliases(alloc, body)?;
    check_properties(alloc, body)
}

#[tactic(auto, using(crate::proofs::TypeLemmas::refused_first))]
fn check_aliases(alloc: Global, body: &TypeBody) -> Result<(), ScopeFault>
    ensures { Gives result (refusal_of_first Refusal.Variable (wrong_aliases body.now)) }
{
    match wrong_alias(alloc, body)? {
        None => Ok(()),
        Some(alias) => Err(ScopeFault::Defect(Refusal::Variable(alias.try_copy(alloc)?))),
    }
}

#[tactic(auto, using(crate::proofs::TypeLemmas::refused_property))]
fn check_properties(alloc: Global, body: &TypeBody) -> Result<(), ScopeFault>
    ensures { Gives result (refusal_of_first Refusal.Column (map ColumnRef.Property (repeated_names body.now.elements))) }
{
    match repeated_property(alloc, body)? {
        None => Ok(()),
        Some(name) => Err(ScopeFault::Defect(Refusal::Column(ColumnRef::Property(name.try_copy(
            alloc,
        )?)))),
    }
}
