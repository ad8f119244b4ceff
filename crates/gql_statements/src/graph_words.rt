//! The words that announce a graph.

ghost use Rattle.gql_statements.specs.Machinery.GraphReaders.{after_graph, past_graph};
ghost use Rattle.gql_front.specs.Reads.{GoesBehind, LeftBehind};

use crate::past_word::past_word;
use gql_front::{NoFront, after_word};
use gql_lexer::Lexeme;
use gql_lexer::words::{GRAPH, PROPERTY};

/// What is behind GRAPH, or behind PROPERTY GRAPH.
#[tactic(auto, unfolding(crate::specs::Machinery::GraphReaders::after_graph))]
pub fn after_graph(rest: &[Lexeme]) -> Result<&[Lexeme], NoFront>
    ensures { GoesBehind result rest.now (after_graph rest.now) }
{
    after_word(GRAPH, past_word(PROPERTY, rest))
}

/// The same, or all lexemes. A PROPERTY that no GRAPH follows is left.
#[tactic(auto, unfolding(crate::specs::Machinery::GraphReaders::past_graph))]
pub fn past_graph(rest: &[Lexeme]) -> &[Lexeme]
    ensures { LeftBehind result rest.now (past_graph rest.now) }
{
    match after_graph(rest) {
        Ok(behind) => behind,
        Err(NoFront) => rest,
    }
}
