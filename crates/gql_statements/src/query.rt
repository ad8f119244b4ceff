//! Queries: clauses with RETURN or a change at the end, where no two Page clauses stand side by side.

ghost use Rattle.std.specs.Prelude.{◌≡◌, ◌<◌, ◌≤◌, ◌+◌, length, IfOk};
ghost use Rattle.gql_front.specs.Gives.{Gives};
ghost use Rattle.gql_front.specs.Reads.{Reads};
ghost use Rattle.gql_statements.specs.QueryGrammar.{is_page, no_pages_meet};
ghost use Rattle.gql_statements.specs.Machinery.QueryReaders.{with_last_clause_of, query_of};

use crate::clause::Clauses;
use crate::return_clause::return_behind;
use gql_ast::{Clause, ParseFault, Query, ends_in_change};
use gql_front::{NoFront, ParseResult, after_word};
use gql_lexer::Lexeme;
use gql_lexer::words::RETURN;
use gql_parts::many;
use gql_values3::Sequence;
use std::alloc::Global;

/// The query at the front. `Syntax` comes where there is none, or where two Page clauses stand side by side.
#[tactic(auto, unfolding(crate::specs::Machinery::QueryReaders::query_of, crate::specs::Machinery::QueryReaders::clauses_of))]
pub fn query<'a>(alloc: Global, rest: &'a [Lexeme]) -> ParseResult<'a, Query>
    ensures { Reads result rest.now query_of }
{
    let (clauses, rest) = many::<Clauses, Clause>(alloc, rest)?;
    let (clauses, rest) = with_last_clause(alloc, clauses, rest)?;
    if no_pages_meet(clauses.as_slice()) {
        Ok((Query { clauses }, rest))
    } else {
        Err(ParseFault::Syntax)
    }
}

/// The clauses with RETURN as the last one; without it, the last one is a change.
#[tactic(auto, unfolding(crate::specs::Machinery::QueryReaders::with_last_clause_of))]
fn with_last_clause<'a>(
    alloc: Global,
    mut clauses: Sequence<Clause>,
    rest: &'a [Lexeme],
) -> ParseResult<'a, Sequence<Clause>>
    ensures given { Gives (λ x. (x.0, x.1.now)) result (with_last_clause_of clauses rest.now) }
    ensures shorter { IfOk result (λ x. length x.1.now < length clauses + length rest.now) }
{
    match after_word(RETURN, rest) {
        Ok(behind) => {
            let (found, behind) = return_behind(alloc, behind)?;
            clauses.push(Clause::Return(found))?;
            Ok((clauses, behind))
        }
        Err(NoFront) => {
            if ends_in_change(clauses.as_slice()) {
                Ok((clauses, rest))
            } else {
                Err(ParseFault::Syntax)
            }
        }
    }
}

/// Whether no two Page clauses stand side by side.
fn no_pages_meet(clauses: &[Clause]) -> bool
    ensures { result ≡ no_pages_meet clauses.now }
{
    let mut behind_page = false;
    for clause in clauses {
        let page = is_page(clause);
        if behind_page && page {
            return false;
        }
        behind_page = page;
    }
    true
}

/// Whether the clause is ORDER BY, OFFSET or LIMIT.
fn is_page(clause: &Clause) -> bool
    ensures { result ≡ is_page clause.now }
{
    matches!(clause, Clause::Page(_))
}
