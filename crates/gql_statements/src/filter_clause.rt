//! FILTER and its predicate, with or without WHERE between them.

ghost use Rattle.std.specs.Prelude.{◌≡◌, ◌<◌, ◌≤◌, length, IfOk};
ghost use Rattle.gql_front.specs.Reads.{Reads};
ghost use Rattle.gql_statements.specs.Machinery.ClauseReaders.{filter_of};

use crate::past_word::past_word;
use gql_ast::Expr;
use gql_front::ParseResult;
use gql_lexer::Lexeme;
use gql_lexer::words::WHERE;
use gql_parts::value;
use std::alloc::Global;

/// The condition of a FILTER, behind that word.
#[tactic(auto, unfolding(crate::specs::Machinery::ClauseReaders::filter_of))]
pub fn filter<'a>(alloc: Global, rest: &'a [Lexeme]) -> ParseResult<'a, Expr>
    ensures { Reads result rest.now filter_of }
{
    value(alloc, past_word(WHERE, rest))
}
