//! OFFSET and LIMIT, and ORDER BY, OFFSET and LIMIT as a clause of their own.

ghost use Rattle.std.specs.Prelude.{◌≡◌, ◌<◌, ◌≤◌, length, IfOk};
ghost use Rattle.gql_front.specs.Reads.{Reads, MayRead, GoesPast};
ghost use Rattle.gql_front.specs.Reading.{after};
ghost use Rattle.gql_statements.specs.PartWords.{is_skip};
ghost use Rattle.gql_statements.specs.Machinery.PageReaders.{skip_of, limit_of, order_page_of, skip_page_of, limit_page_of};

use crate::clause::Clauses;
use gql_ast::{Page, ParseFault, RowCount, SortItems};
use gql_front::{NoFront, ParseResult};
use gql_lexer::Lexeme;
use gql_lexer::words::{LIMIT, OFFSET, SKIP};
use gql_parts::{Item, item_behind_word, item_or_nothing};
use std::alloc::Global;

/// A number or a parameter.
impl Item<Clauses> for RowCount {
    ghost use Rattle.gql_front.specs.Reading.{op_at};
    ghost use Rattle.gql_statements.specs.PartWords.{count_in};

    ghost reader = { op_at count_in };

    fn read<'a>(alloc: Global, rest: &'a [Lexeme]) -> ParseResult<'a, RowCount> {
        match rest {
            [Lexeme::Number(digits), rest @ ..] => {
                Ok((RowCount::Number(digits.try_copy(alloc)?), rest))
            }
            [Lexeme::Param(name), rest @ ..] => {
                Ok((RowCount::Parameter(name.try_copy(alloc)?), rest))
            }
            _ => Err(ParseFault::Syntax),
        }
    }
}

/// Sort keys, and how many rows to leave out and to keep, behind ORDER.
#[tactic(auto, unfolding(crate::specs::Machinery::PageReaders::order_page_of))]
pub fn order_page<'a>(alloc: Global, rest: &'a [Lexeme]) -> ParseResult<'a, Page>
    ensures { Reads result rest.now order_page_of }
{
    let (order, rest) = SortItems::read(alloc, rest)?;
    let (skip, rest) = skip(alloc, rest)?;
    let (limit, rest) = limit(alloc, rest)?;
    Ok((Page::Order(order, skip, limit), rest))
}

/// How many rows to leave out and to keep, behind OFFSET or SKIP.
#[tactic(auto, unfolding(crate::specs::Machinery::PageReaders::skip_page_of))]
pub fn skip_page<'a>(alloc: Global, rest: &'a [Lexeme]) -> ParseResult<'a, Page>
    ensures { Reads result rest.now skip_page_of }
{
    let (skip, rest) = RowCount::read(alloc, rest)?;
    let (limit, rest) = limit(alloc, rest)?;
    Ok((Page::Skip(skip, limit), rest))
}

/// How many rows to keep, behind LIMIT.
#[tactic(auto, unfolding(crate::specs::Machinery::PageReaders::limit_page_of))]
pub fn limit_page<'a>(alloc: Global, rest: &'a [Lexeme]) -> ParseResult<'a, Page>
    ensures { Reads result rest.now limit_page_of }
{
    let (limit, rest) = RowCount::read(alloc, rest)?;
    Ok((Page::Limit(limit), rest))
}

/// OFFSET or SKIP and a count, or nothing.
#[tactic(auto, unfolding(crate::specs::Machinery::PageReaders::skip_of))]
pub fn skip<'a>(alloc: Global, rest: &'a [Lexeme]) -> ParseResult<'a, Option<RowCount>>
    ensures { MayRead result rest.now skip_of }
{
    match after_skip(rest) {
        Ok(behind) => item_or_nothing::<Clauses, RowCount>(alloc, rest, behind),
        Err(NoFront) => Ok((None, rest)),
    }
}

/// LIMIT and a count, or nothing.
#[tactic(auto, unfolding(crate::specs::Machinery::PageReaders::limit_of))]
pub fn limit<'a>(alloc: Global, rest: &'a [Lexeme]) -> ParseResult<'a, Option<RowCount>>
    ensures { MayRead result rest.now limit_of }
{
    item_behind_word::<Clauses, RowCount>(alloc, LIMIT, rest)
}

/// What is behind OFFSET or SKIP.
fn after_skip(rest: &[Lexeme]) -> Result<&[Lexeme], NoFront>
    ensures { GoesPast result rest.now is_skip }
{
    match rest {
        [Lexeme::Word { place: OFFSET, .. }, rest @ ..] => Ok(rest),
        [Lexeme::Word { place: SKIP, .. }, rest @ ..] => Ok(rest),
        _ => Err(NoFront),
    }
}
