//! Clauses that change data, and the last clause of a query.

ghost use Rattle.std.specs.Prelude.{◌≡◌};
ghost use Rattle.gql_ast.specs.LastClause.{is_change, ends_in_change};

use crate::clause::Clause;

/// Whether the clause changes data.
pub fn is_change(clause: &Clause) -> bool
    ensures { result ≡ is_change clause.now }
{
    matches!(clause, Clause::Change(_))
}

/// Whether the last clause changes data.
pub fn ends_in_change(clauses: &[Clause]) -> bool
    ensures { result ≡ ends_in_change clauses.now }
{
    match clauses.last() {
        Some(clause) => is_change(clause),
        None => false,
    }
}
