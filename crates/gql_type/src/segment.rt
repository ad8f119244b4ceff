//! What stands behind the first end of an edge type.

ghost use Rattle.std.specs.Prelude.{◌≡◌, ◌<◌, length, IfOk};
ghost use Rattle.gql_front.specs.Reading.{op_at};
ghost use Rattle.gql_front.specs.Reads.{Reads, Takes, TakesAs};
ghost use Rattle.gql_type.specs.TypeWords.{arrow_sign, closing_of};
ghost use Rattle.gql_type.specs.Machinery.TypeReaders.{end_of, bracketed_of, edge_of};

use crate::type_content::{TypeParts, content};
use gql_ast::{Arrow, ElementBody};
use gql_front::{NoFront, ParseResult, after_sign, plain_name};
use gql_lexer::Lexeme;
use gql_lexer::symbols::{
    CLOSING, CLOSING_BRACKET, LEFT_ARROW, MINUS, OPENING, OPENING_BRACKET, RIGHT_ARROW, TILDE,
};
use gql_parts::Item;
use gql_values3::Text;
use std::alloc::Global;

/// The edge in its symbols, and the alias of its other end.
#[derive(Drop)]
pub struct TypeSegment {
    pub arrow: Arrow,
    pub body: ElementBody,
    pub target: Text,
}

impl Item<TypeParts> for TypeSegment {
    ghost use Rattle.gql_type.specs.Machinery.TypeReaders.{segment_of};

    ghost reader = { segment_of };

    #[tactic(auto, unfolding(crate::specs::Machinery::TypeReaders::segment_of))]
    fn read<'a>(alloc: Global, rest: &'a [Lexeme]) -> ParseResult<'a, TypeSegment> {
        let ((arrow, body), rest) = edge(alloc, rest)?;
        let (name, rest) = end(rest)?;
        let target = name.try_copy(alloc)?;
        Ok((
            TypeSegment {
                arrow,
                body,
                target,
            },
            rest,
        ))
    }
}

/// The edge in its symbols.
#[tactic(auto, unfolding(crate::specs::Machinery::TypeReaders::edge_of))]
fn edge<'a>(alloc: Global, rest: &'a [Lexeme]) -> ParseResult<'a, (Arrow, ElementBody)>
    ensures { Reads result rest.now edge_of }
{
    let (arrow, rest) = arrow_at(rest)?;
    let (body, rest) = bracketed(alloc, rest)?;
    let rest = after_sign(closing_of(arrow), rest)?;
    Ok(((arrow, body), rest))
}

/// The direction, by the symbol before the brackets.
pub fn arrow_at(rest: &[Lexeme]) -> Result<(Arrow, &[Lexeme]), NoFront>
    ensures { Takes result rest.now (op_at arrow_sign) }
{
    match rest {
        [Lexeme::Sign(MINUS), rest @ ..] => Ok((Arrow::Right, rest)),
        [Lexeme::Sign(LEFT_ARROW), rest @ ..] => Ok((Arrow::Left, rest)),
        [Lexeme::Sign(TILDE), rest @ ..] => Ok((Arrow::Undirected, rest)),
        _ => Err(NoFront),
    }
}

/// The symbol behind the brackets.
pub fn closing_of(arrow: Arrow) -> u32
    ensures { result ≡ closing_of arrow }
{
    match arrow {
        Arrow::Right => RIGHT_ARROW,
        Arrow::Left => MINUS,
        Arrow::Undirected => TILDE,
    }
}

/// What stands between brackets.
#[tactic(auto, unfolding(crate::specs::Machinery::TypeReaders::bracketed_of))]
fn bracketed<'a>(alloc: Global, rest: &'a [Lexeme]) -> ParseResult<'a, ElementBody>
    ensures { Reads result rest.now bracketed_of }
{
    let rest = after_sign(OPENING_BRACKET, rest)?;
    let (body, rest) = content(alloc, rest)?;
    let rest = after_sign(CLOSING_BRACKET, rest)?;
    Ok((body, rest))
}

/// The alias of an end, between parentheses.
#[tactic(auto, unfolding(crate::specs::Machinery::TypeReaders::end_of))]
fn end(rest: &[Lexeme]) -> Result<(&Text, &[Lexeme]), NoFront>
    ensures { TakesAs (λ x. x.now) result rest.now end_of }
{
    let rest = after_sign(OPENING, rest)?;
    let (name, rest) = plain_name(rest)?;
    let rest = after_sign(CLOSING, rest)?;
    Ok((name, rest))
}
