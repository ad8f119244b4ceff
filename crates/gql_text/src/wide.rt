//! The first number literal of a statement that is above the largest integer.
//!
//! There is one function a type of the trees, and each stops at the first such number.

ghost use Rattle.std.specs.Prelude.{◌≡◌, find};
ghost use Rattle.std.specs.Option.{option_copied};
ghost use Rattle.gql_ast.specs.NumberLiterals.{is_wide, numbers_in_session, wide_number};

mod changes;
mod clauses;
mod expressions;
mod numerals;
mod pages;
mod patterns;

use clauses::in_clauses;
use expressions::in_expr;
use gql_ast::{SessionStatement, Statement};
use gql_values3::Text;

/// The first number literal of the statement that is above 9,223,372,036,854,775,807, by its digits as written, or
/// None where there is none. It takes no memory.
pub fn wide_number(statement: &Statement) -> Option<&Text>
    ensures { option_copied result ≡ wide_number statement.now }
{
    match statement {
        Statement::Query(query) => in_clauses(query.clauses.as_slice()),
        Statement::Session(session) => in_session(session),
        Statement::Transaction(_) | Statement::Catalog(_) => None,
    }
}

fn in_session(session: &SessionStatement) -> Option<&Text>
    ensures { option_copied result ≡ find is_wide (numbers_in_session session.now) }
{
    match session {
        SessionStatement::SetValue(_, value) => in_expr(value),
        SessionStatement::SetGraph(_) | SessionStatement::Reset | SessionStatement::Close => None,
    }
}
