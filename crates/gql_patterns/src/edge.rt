//! Edge patterns in full and short form, and the direction that their symbols say.

ghost use Rattle.std.specs.Prelude.{◌≡◌, ◌<◌, length, IfOk};
ghost use Rattle.gql_front.specs.Tables.{entry};
ghost use Rattle.gql_front.specs.Reading.{op_at};
ghost use Rattle.gql_front.specs.Reads.{ReadsAs, Takes};
ghost use Rattle.gql_ast.specs.PatternMeaning.{pattern_of};
ghost use Rattle.gql_patterns.specs.Machinery.EdgeReaders.{sign_place, short_edges, short_edge, behind_left_arrow, behind_tilde, behind_minus, behind_left_tilde, direction_between, full_edge_of, short_edge_of, edge_of};

use gql_ast::{Direction, Filler, ParseFault, PathExpr};
use gql_front::{NoFront, ParseResult, after_sign};
use gql_lexer::Lexeme;
use gql_lexer::symbols::{
    CLOSING_BRACKET, LEFT_ARROW, LEFT_RIGHT_ARROW, LEFT_TILDE, MINUS, OPENING_BRACKET, RIGHT_ARROW,
    RIGHT_TILDE, TILDE,
};
use gql_parts::filler;
use std::alloc::Global;

/// An edge in its full or its short form. A bracket that no full form begins is left.
#[tactic(auto, unfolding(crate::specs::Machinery::EdgeReaders::edge_of, gql_front::specs::Reading::either))]
pub fn edge<'a>(alloc: Global, rest: &'a [Lexeme]) -> ParseResult<'a, PathExpr>
    ensures { ReadsAs pattern_of result rest.now edge_of }
{
    match full_edge(alloc, rest) {
        Ok((expr, behind)) => Ok((expr, behind)),
        Err(ParseFault::Syntax) => short_edge_pattern(rest),
        Err(ParseFault::Deep) => unreachable!(),
        Err(ParseFault::OutOfMemory) => Err(ParseFault::OutOfMemory),
    }
}

/// An edge with brackets.
#[tactic(auto, unfolding(crate::specs::Machinery::EdgeReaders::full_edge_of))]
fn full_edge<'a>(alloc: Global, rest: &'a [Lexeme]) -> ParseResult<'a, PathExpr>
    ensures { ReadsAs pattern_of result rest.now full_edge_of }
{
    let (first, rest) = sign_at(rest)?;
    let rest = after_sign(OPENING_BRACKET, rest)?;
    let (filler, rest) = filler(alloc, rest)?;
    let rest = after_sign(CLOSING_BRACKET, rest)?;
    let (last, rest) = sign_at(rest)?;
    match direction_between(first, last) {
        Some(direction) => Ok((PathExpr::Edge(direction, filler), rest)),
        None => Err(ParseFault::Syntax),
    }
}

/// An edge without brackets.
#[tactic(auto, unfolding(crate::specs::Machinery::EdgeReaders::short_edge_of))]
fn short_edge_pattern<'a>(rest: &'a [Lexeme]) -> ParseResult<'a, PathExpr>
    ensures { ReadsAs pattern_of result rest.now short_edge_of }
{
    let (direction, rest) = short_edge_at(rest)?;
    let filler = Filler {
        variable: None,
        labels: None,
        condition: None,
    };
    Ok((PathExpr::Edge(direction, filler), rest))
}

/// The place of the symbol at the front.
fn sign_at(rest: &[Lexeme]) -> Result<(u32, &[Lexeme]), NoFront>
    ensures { Takes result rest.now (op_at sign_place) }
{
    match rest {
        [Lexeme::Sign(place), rest @ ..] => Ok((*place, rest)),
        _ => Err(NoFront),
    }
}

/// The direction of a full form with these symbols before and behind its brackets.
#[tactic(auto, unfolding(crate::specs::Machinery::EdgeReaders::direction_between))]
fn direction_between(first: u32, last: u32) -> Option<Direction>
    ensures { result ≡ direction_between first last }
{
    match first {
        LEFT_ARROW => behind_left_arrow(last),
        TILDE => behind_tilde(last),
        MINUS => behind_minus(last),
        LEFT_TILDE => behind_left_tilde(last),
        _ => None,
    }
}

fn behind_left_arrow(last: u32) -> Option<Direction>
    ensures { result ≡ entry behind_left_arrow last }
{
    match last {
        MINUS => Some(Direction::Left),
        RIGHT_ARROW => Some(Direction::LeftOrRight),
        _ => None,
    }
}

fn behind_tilde(last: u32) -> Option<Direction>
    ensures { result ≡ entry behind_tilde last }
{
    match last {
        TILDE => Some(Direction::Undirected),
        RIGHT_TILDE => Some(Direction::UndirectedOrRight),
        _ => None,
    }
}

fn behind_minus(last: u32) -> Option<Direction>
    ensures { result ≡ entry behind_minus last }
{
    match last {
        RIGHT_ARROW => Some(Direction::Right),
        MINUS => Some(Direction::Any),
        _ => None,
    }
}

fn behind_left_tilde(last: u32) -> Option<Direction>
    ensures { result ≡ entry behind_left_tilde last }
{
    match last {
        TILDE => Some(Direction::LeftOrUndirected),
        _ => None,
    }
}

/// The direction of the short form that the symbol is.
fn short_edge(place: u32) -> Option<Direction>
    ensures { result ≡ entry short_edges place }
{
    match place {
        LEFT_ARROW => Some(Direction::Left),
        TILDE => Some(Direction::Undirected),
        RIGHT_ARROW => Some(Direction::Right),
        LEFT_TILDE => Some(Direction::LeftOrUndirected),
        RIGHT_TILDE => Some(Direction::UndirectedOrRight),
        LEFT_RIGHT_ARROW => Some(Direction::LeftOrRight),
        MINUS => Some(Direction::Any),
        _ => None,
    }
}

/// The short form at the front.
fn short_edge_at(rest: &[Lexeme]) -> Result<(Direction, &[Lexeme]), NoFront>
    ensures { Takes result rest.now (op_at short_edge) }
{
    if let [Lexeme::Sign(place), after @ ..] = rest {
        if let Some(direction) = short_edge(*place) {
            return Ok((direction, after));
        }
    }
    Err(NoFront)
}
