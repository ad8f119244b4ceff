//! The first refusal of one expression, by a call for each question: its names, what is misused, its parameters.

ghost use Rattle.std.specs.Prelude.{◌≡◌, [], ◌∷◌, IfErr, option_map};
ghost use Rattle.std.specs.Option.{option_copied};
ghost use Rattle.gql_expr_checks.specs.ExprMisuses.{misused_expr, elsewhere, item};
ghost use Rattle.gql_expr_checks.specs.ExprNames.{unknown_in_expr};
ghost use Rattle.gql_expr_checks.specs.ExprParameters.{unset, parameters_of};
ghost use Rattle.gql_expr_checks.specs.Gives.{Gives};
ghost use Rattle.gql_expr_checks.specs.Machinery.Places.{place_of, columns_at};
ghost use Rattle.gql_expr_checks.specs.Refusals.{refusal_of_first, misuse_if};

use crate::columns::KnownColumns;
use crate::fault::ScopeFault;
use crate::misuses::{Place, is_misused};
use crate::names::{Sought, first_name};
use crate::parameters::{if_unset, unset_parameter};
use gql_ast::{Expr, Refusal};
use gql_values3::{Params, Text};
use std::alloc::Global;

/// Checks the names of an expression.
#[tactic(auto, using(crate::proofs::RefusalLemmas::known))]
pub fn check_names(alloc: Global, scope: &KnownColumns, expr: &Expr) -> Result<(), ScopeFault>
    ensures { Gives result (refusal_of_first Refusal.Variable (unknown_in_expr scope.now expr.now)) }
{
    match first_name(scope, &Sought::Unknown, expr) {
        None => Ok(()),
        Some(name) => Err(ScopeFault::Defect(Refusal::Variable(name.try_copy(alloc)?))),
    }
}

/// Checks an expression at its place. It takes no memory, so its one error is the misuse.
fn check_at(scope: &KnownColumns, place: &Place, expr: &Expr) -> Result<(), ScopeFault>
    ensures gives { Gives result (misuse_if (misused_expr (columns_at scope.now place.now) (place_of place.now) expr.now)) }
    ensures misuse { IfErr result (λ fault. fault ≡ ScopeFault.Defect Refusal.Misuse) }
{
    if is_misused(scope, place, expr) {
        return Err(ScopeFault::Defect(Refusal::Misuse));
    }
    Ok(())
}

/// Checks an expression outside the items of RETURN.
pub fn check_misuse(scope: &KnownColumns, expr: &Expr) -> Result<(), ScopeFault>
    ensures gives { Gives result (misuse_if (misused_expr scope.now elsewhere expr.now)) }
    ensures misuse { IfErr result (λ fault. fault ≡ ScopeFault.Defect Refusal.Misuse) }
{
    check_at(scope, &Place::Elsewhere, expr)
}

/// Checks an expression among the items of RETURN.
pub fn check_item(scope: &KnownColumns, expr: &Expr) -> Result<(), ScopeFault>
    ensures gives { Gives result (misuse_if (misused_expr scope.now item expr.now)) }
    ensures misuse { IfErr result (λ fault. fault ≡ ScopeFault.Defect Refusal.Misuse) }
{
    check_at(scope, &Place::Item, expr)
}

/// Fails a parameter that was found.
fn refuse(alloc: Global, found: Option<&Text>) -> Result<(), ScopeFault>
    ensures { Gives result (option_map (λ p. Refusal.Parameter p) (option_copied found.entry)) }
{
    match found {
        None => Ok(()),
        Some(name) => Err(ScopeFault::Defect(Refusal::Parameter(name.try_copy(alloc)?))),
    }
}

/// Checks the parameters of an expression.
#[tactic(auto, using(crate::proofs::RefusalLemmas::first_of_first))]
pub fn check_parameters(alloc: Global, params: &Params, expr: &Expr) -> Result<(), ScopeFault>
    ensures { Gives result (refusal_of_first Refusal.Parameter (unset params.now (parameters_of expr.now))) }
{
    refuse(alloc, unset_parameter(params, expr))
}

/// Checks a parameter.
#[tactic(auto, using(crate::proofs::RefusalLemmas::first_of_first))]
pub fn check_parameter(alloc: Global, params: &Params, parameter: &Text) -> Result<(), ScopeFault>
    ensures { Gives result (refusal_of_first Refusal.Parameter (unset params.now (parameter.now ∷ []))) }
{
    refuse(alloc, if_unset(params, parameter))
}
