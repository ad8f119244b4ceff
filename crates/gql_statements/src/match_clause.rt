//! MATCH and OPTIONAL MATCH.

ghost use Rattle.std.specs.Prelude.{◌≡◌, ◌<◌, length, IfOk};
ghost use Rattle.gql_front.specs.Reads.{Reads};
ghost use Rattle.gql_statements.specs.Machinery.MatchReaders.{match_of, optional_match_of};

use gql_ast::{Match, ParseFault};
use gql_front::{ParseResult, after_word};
use gql_lexer::Lexeme;
use gql_lexer::words::MATCH;
use gql_patterns::parse_pattern;
use std::alloc::Global;

/// The graph pattern of a MATCH, behind that word.
#[tactic(auto, unfolding(crate::specs::Machinery::MatchReaders::match_of))]
pub fn match_behind<'a>(alloc: Global, optional: bool, rest: &'a [Lexeme]) -> ParseResult<'a, Match>
    ensures { Reads result rest.now (match_of optional) }
{
    let (pattern, rest) = parse_pattern(alloc, rest)?;
    Ok((Match { optional, pattern }, rest))
}

/// MATCH and its graph pattern, behind OPTIONAL.
pub fn optional_match<'a>(alloc: Global, rest: &'a [Lexeme]) -> ParseResult<'a, Match>
    ensures { Reads result rest.now optional_match_of }
{
    let rest = after_word(MATCH, rest)?;
    match_behind(alloc, true, rest)
}
