//! The first static refusal of a statement: by code, and within one code the first in the text.

ghost use Rattle.std.specs.Prelude.{◌≡◌, None, OnOk, IfErr};
ghost use Rattle.gql_ast.specs.Meaning.{tree_of};
ghost use Rattle.gql_scope.specs.StaticRefusals.{session_refusal, value_refusal};
ghost use Rattle.gql_scope.specs.WholePatterns.{whole_refusal};
ghost use Rattle.gql_expr_checks.specs.Gives.{Gives, Fails};

use crate::catalog::check_catalog;
use crate::clauses::check_clauses;
use gql_ast::{Expr, SessionStatement, Statement};
use gql_expr_checks::{KnownColumns, ScopeFault, check_misuse, check_names, check_parameters};
use gql_values3::Params;
use std::alloc::Global;

/// Whether the statement may be run under the parameters, or its first static refusal. A number of a quantifier or a selector
/// beyond 32 bits, at which `bounds` finds fault, is answered as want of memory.
pub fn check(alloc: Global, statement: &Statement, params: &Params) -> Result<(), ScopeFault>
    ensures clean { OnOk result (whole_refusal params.now statement.now ≡ None) }
    ensures defect { IfErr result (λ fault. Fails fault (whole_refusal params.now statement.now)) }
{
    check_statement(alloc, statement, params)
}

fn check_statement(alloc: Global, statement: &Statement, params: &Params) -> Result<(), ScopeFault>
    ensures { Gives result (whole_refusal params.now statement.now) }
{
    match statement {
        Statement::Query(query) => check_clauses(alloc, query.clauses.as_slice(), params),
        Statement::Session(statement) => check_session(alloc, statement, params),
        Statement::Catalog(statement) => check_catalog(alloc, statement),
        Statement::Transaction(_) => Ok(()),
    }
}

/// Checks a statement about the session.
fn check_session(
    alloc: Global,
    statement: &SessionStatement,
    params: &Params,
) -> Result<(), ScopeFault>
    ensures { Gives result (session_refusal params.now statement.now) }
{
    match statement {
        SessionStatement::SetValue(_, value) => check_value(alloc, value, params),
        _ => Ok(()),
    }
}

/// Checks the value of a parameter, which is evaluated over no columns.
fn check_value(alloc: Global, value: &Expr, params: &Params) -> Result<(), ScopeFault>
    ensures { Gives result (value_refusal params.now (tree_of value.now)) }
{
    let scope = KnownColumns::new(alloc);
    check_names(alloc, &scope, value)?;
    check_misuse(&scope, value)?;
    check_parameters(alloc, params, value)
}
