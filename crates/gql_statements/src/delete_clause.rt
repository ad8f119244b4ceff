//! DELETE and its variables, with DETACH or NODETACH before it or not.

ghost use Rattle.std.specs.Prelude.{◌≡◌, ◌<◌, length, IfOk};
ghost use Rattle.gql_front.specs.Reads.{Reads};
ghost use Rattle.gql_statements.specs.Machinery.ChangeReaders.{delete_of, delete_behind_of};

use crate::clause::Clauses;
use gql_ast::{ChangeClause, Detachment, ParseFault};
use gql_front::{ParseResult, after_word};
use gql_lexer::Lexeme;
use gql_lexer::words::DELETE;
use gql_parts::list;
use gql_values3::Text;
use std::alloc::Global;

/// The variables of a DELETE, behind that word.
#[tactic(auto, unfolding(crate::specs::Machinery::ChangeReaders::delete_of, crate::specs::Machinery::ReturnReaders::names_of))]
pub fn delete<'a>(
    alloc: Global,
    detachment: Detachment,
    rest: &'a [Lexeme],
) -> ParseResult<'a, ChangeClause>
    ensures { Reads result rest.now (delete_of detachment) }
{
    let (names, rest) = list::<Clauses, Text>(alloc, rest)?;
    Ok((ChangeClause::Delete(detachment, names), rest))
}

/// DELETE and its variables, behind DETACH or NODETACH.
pub fn delete_behind<'a>(
    alloc: Global,
    detachment: Detachment,
    rest: &'a [Lexeme],
) -> ParseResult<'a, ChangeClause>
    ensures { Reads result rest.now (delete_behind_of detachment) }
{
    let rest = after_word(DELETE, rest)?;
    delete(alloc, detachment, rest)
}
