//! E05: the first bound of a quantifier or number of a selector at fault in a statement.

ghost use Rattle.std.specs.Prelude.{◌≡◌, option_map};
ghost use Rattle.gql_expr_checks.specs.First.{first};
ghost use Rattle.gql_degrees.specs.FirstFaults.{told_number};
ghost use Rattle.gql_scope.specs.StatementBounds.{bounds_in_clause, first_bound, bound_of_statement};

use gql_ast::{Clause, Statement};
use gql_degrees::bound_at_fault;

/// The first number of the statement's patterns that is at fault: one above 65,535, a selector's that is 0, or a least bound
/// above the greatest. It takes no memory, and is asked before the other refusals. A number above the largest integer, which
/// is refused before, is told as the largest.
pub fn bounds(statement: &Statement) -> Option<i64>
    ensures { result ≡ bound_of_statement statement.now }
{
    match statement {
        Statement::Query(query) => in_clauses(query.clauses.as_slice()),
        _ => None,
    }
}

fn in_clauses(clauses: &[Clause]) -> Option<i64>
    ensures { result ≡ first_bound clauses.now }
{
    for i in 0..clauses.len() {
        let found = in_clause(&clauses[i]);
        if found.is_some() {
            return found;
        }
    }
    None
}

fn in_clause(clause: &Clause) -> Option<i64>
    ensures { result ≡ option_map told_number (first (bounds_in_clause clause.now)) }
{
    match clause {
        Clause::Match(m) => bound_at_fault(&m.pattern),
        _ => None,
    }
}
