//! The name of a graph or graph type that is created or dropped, with IF NOT EXISTS or IF EXISTS before it.

ghost use Rattle.gql_front.specs.Reads.{Reads, AlwaysReads, GoesBehind};
ghost use Rattle.gql_statements.specs.Machinery.CatalogReaders.{after_if_not_exists, if_not_exists_of, after_if_exists, if_exists_of, created_name_of, dropped_name_of};

use gql_front::{NoFront, ParseResult, after_word, plain_name};
use gql_lexer::Lexeme;
use gql_lexer::words::{EXISTS, IF, NOT};
use gql_values3::Text;
use std::alloc::Global;

/// Whether IF NOT EXISTS stands before a name, and the name.
#[tactic(auto, unfolding(crate::specs::Machinery::CatalogReaders::created_name_of))]
pub fn created_name<'a>(alloc: Global, rest: &'a [Lexeme]) -> ParseResult<'a, (bool, Text)>
    ensures { Reads result rest.now created_name_of }
{
    let (lenient, rest) = if_not_exists(rest);
    let (name, rest) = plain_name(rest)?;
    Ok(((lenient, name.try_copy(alloc)?), rest))
}

/// Whether IF EXISTS stands before a name, and the name.
#[tactic(auto, unfolding(crate::specs::Machinery::CatalogReaders::dropped_name_of))]
pub fn dropped_name<'a>(alloc: Global, rest: &'a [Lexeme]) -> ParseResult<'a, (bool, Text)>
    ensures { Reads result rest.now dropped_name_of }
{
    let (lenient, rest) = if_exists(rest);
    let (name, rest) = plain_name(rest)?;
    Ok(((lenient, name.try_copy(alloc)?), rest))
}

/// Whether IF NOT EXISTS stands at the front, and what is behind it, or all lexemes.
#[tactic(auto, unfolding(crate::specs::Machinery::CatalogReaders::if_not_exists_of))]
fn if_not_exists(rest: &[Lexeme]) -> (bool, &[Lexeme])
    ensures { AlwaysReads result rest.now (if_not_exists_of rest.now) }
{
    match after_if_not_exists(rest) {
        Ok(behind) => (true, behind),
        Err(NoFront) => (false, rest),
    }
}

#[tactic(auto, unfolding(crate::specs::Machinery::CatalogReaders::after_if_not_exists))]
fn after_if_not_exists(rest: &[Lexeme]) -> Result<&[Lexeme], NoFront>
    ensures { GoesBehind result rest.now (after_if_not_exists rest.now) }
{
    let rest = after_word(IF, rest)?;
    let rest = after_word(NOT, rest)?;
    after_word(EXISTS, rest)
}

/// Whether IF EXISTS stands at the front, and what is behind it, or all lexemes.
#[tactic(auto, unfolding(crate::specs::Machinery::CatalogReaders::if_exists_of))]
fn if_exists(rest: &[Lexeme]) -> (bool, &[Lexeme])
    ensures { AlwaysReads result rest.now (if_exists_of rest.now) }
{
    match after_if_exists(rest) {
        Ok(behind) => (true, behind),
        Err(NoFront) => (false, rest),
    }
}

#[tactic(auto, unfolding(crate::specs::Machinery::CatalogReaders::after_if_exists))]
fn after_if_exists(rest: &[Lexeme]) -> Result<&[Lexeme], NoFront>
    ensures { GoesBehind result rest.now (after_if_exists rest.now) }
{
    let rest = after_word(IF, rest)?;
    after_word(EXISTS, rest)
}
