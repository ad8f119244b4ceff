//! The first refusal of a statement that stands before it runs.
ghost use Rattle.std.specs.Prelude.{◌≡◌, IfOk};
ghost use Rattle.std.specs.Option.{option_or};
ghost use Rattle.gql_scope.specs.WholePatterns.{whole_refusal};
ghost use Rattle.gql_machine.specs.Machinery.Meaning.{session_state};
ghost use Rattle.gql_machine.specs.StateRefusals.{missing_refusal, taken_refusal, transaction_refusal};
ghost use Rattle.gql_machine.specs.StatementRun.{bound_refusal, first_refusal};

use crate::exists::taken_refusal;
use crate::missing::missing_refusal;
use crate::out_of_place::transaction_refusal;
use crate::state::Session;
use gql_ast::{Refusal, Statement, push_integer};
use gql_scope::{ScopeFault, bounds, check};
use gql_text::wide_number;
use gql_values3::{OutOfMemory, Params, Text};
use std::alloc::Global;

/// The first by the order of the codes: a number that is too large, a bound at fault, what isn't there, and then the others. None
/// where the statement may run.
pub fn first_refusal(
    alloc: Global,
    session: &Session,
    statement: &Statement,
) -> Result<Option<Refusal>, OutOfMemory>
    ensures { IfOk result (λ found. found ≡ first_refusal (session_state session.now) statement.now) }
{
    if let Some(digits) = wide_number(statement) {
        return Ok(Some(Refusal::Number(digits.try_copy(alloc)?)));
    }
    if let Some(refusal) = bound_refusal(alloc, statement)? {
        return Ok(Some(refusal));
    }
    if let Some(refusal) = missing_refusal(alloc, session, statement)? {
        return Ok(Some(refusal));
    }
    later_refusal(alloc, session, statement)
}

/// What is there already, what is wrong with names and patterns, and what the open transaction does not allow.
fn later_refusal(
    alloc: Global,
    session: &Session,
    statement: &Statement,
) -> Result<Option<Refusal>, OutOfMemory>
    ensures { IfOk result (λ found. found ≡ option_or (taken_refusal (session_state session.now) statement.now) (option_or (whole_refusal session.now.parameters statement.now) (transaction_refusal (session_state session.now) statement.now))) }
{
    if let Some(refusal) = taken_refusal(alloc, session, statement)? {
        return Ok(Some(refusal));
    }
    if let Some(refusal) = scope_refusal(alloc, statement, &session.parameters)? {
        return Ok(Some(refusal));
    }
    Ok(transaction_refusal(session, statement))
}

/// The refusal of the first bound at fault in the patterns.
fn bound_refusal(alloc: Global, statement: &Statement) -> Result<Option<Refusal>, OutOfMemory>
    ensures { IfOk result (λ found. found ≡ bound_refusal statement.now) }
{
    match bounds(statement) {
        Some(number) => {
            let mut digits = Text::new(alloc);
            push_integer(&mut digits, number)?;
            Ok(Some(Refusal::Bounds(digits)))
        }
        None => Ok(None),
    }
}

/// What is wrong with names and patterns.
fn scope_refusal(
    alloc: Global,
    statement: &Statement,
    parameters: &Params,
) -> Result<Option<Refusal>, OutOfMemory>
    ensures { IfOk result (λ found. found ≡ whole_refusal parameters.now statement.now) }
{
    match check(alloc, statement, parameters) {
        Ok(()) => Ok(None),
        Err(ScopeFault::Defect(refusal)) => Ok(Some(refusal)),
        Err(ScopeFault::OutOfMemory) => Err(OutOfMemory),
    }
}
