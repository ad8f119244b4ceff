//! What a graph may hold.

ghost use Rattle.std.specs.Prelude.{◌≡◌, ◌<◌, ◌≤◌, length, IfOk};
ghost use Rattle.gql_front.specs.Reads.{Reads, Takes, GoesPast};
ghost use Rattle.gql_type.specs.TypeWords.{is_typed};
ghost use Rattle.gql_statements.specs.Machinery.CatalogReaders.{any_kind_of, typed_kind_of, graph_kind_of};

use crate::graph_words::past_graph;
use gql_ast::GraphKind;
use gql_front::{NoFront, ParseResult, after_word, plain_name};
use gql_lexer::Lexeme;
use gql_lexer::symbols::DOUBLE_COLON;
use gql_lexer::words::{ANY, TYPED};
use std::alloc::Global;

/// ANY with or without TYPED or `::` before it, or one of these and the name of a graph type.
#[tactic(auto, unfolding(crate::specs::Machinery::CatalogReaders::graph_kind_of))]
pub fn graph_kind<'a>(alloc: Global, rest: &'a [Lexeme]) -> ParseResult<'a, GraphKind>
    ensures { Reads result rest.now graph_kind_of }
{
    match after_typed(rest) {
        Ok(behind) => {
            let (kind, rest) = typed_kind(alloc, behind)?;
            Ok((kind, rest))
        }
        Err(NoFront) => {
            let (kind, rest) = any_kind(rest)?;
            Ok((kind, rest))
        }
    }
}

/// ANY or the name of a graph type, behind TYPED or `::`.
#[tactic(auto, unfolding(crate::specs::Machinery::CatalogReaders::typed_kind_of))]
fn typed_kind<'a>(alloc: Global, rest: &'a [Lexeme]) -> ParseResult<'a, GraphKind>
    ensures { Reads result rest.now typed_kind_of }
{
    match any_kind(rest) {
        Ok((kind, behind)) => Ok((kind, behind)),
        Err(NoFront) => {
            let (name, rest) = plain_name(rest)?;
            Ok((GraphKind::Typed(name.try_copy(alloc)?), rest))
        }
    }
}

/// ANY, with or without GRAPH or PROPERTY GRAPH behind it.
#[tactic(auto, unfolding(crate::specs::Machinery::CatalogReaders::any_kind_of))]
fn any_kind(rest: &[Lexeme]) -> Result<(GraphKind, &[Lexeme]), NoFront>
    ensures { Takes result rest.now any_kind_of }
{
    let rest = after_word(ANY, rest)?;
    Ok((GraphKind::Any, past_graph(rest)))
}

/// What is behind TYPED or `::`.
fn after_typed(rest: &[Lexeme]) -> Result<&[Lexeme], NoFront>
    ensures { GoesPast result rest.now is_typed }
{
    match rest {
        [Lexeme::Word { place: TYPED, .. }, rest @ ..] => Ok(rest),
        [Lexeme::Sign(DOUBLE_COLON), rest @ ..] => Ok(rest),
        _ => Err(NoFront),
    }
}
