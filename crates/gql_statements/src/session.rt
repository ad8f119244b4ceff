//! Statements about the session.

ghost use Rattle.std.specs.Prelude.{◌≡◌, ◌<◌, ◌≤◌, length, IfOk};
ghost use Rattle.gql_front.specs.Reads.{Reads, TakesAs};
ghost use Rattle.gql_front.specs.Reading.{op_at};
ghost use Rattle.gql_statements.specs.PartWords.{param_in};
ghost use Rattle.gql_statements.specs.Machinery.SessionReaders.{set_graph_of, set_value_of, set_of, session_of};

use crate::graph_words::after_graph;
use crate::session_word::{SessionWord, SessionWords};
use gql_ast::{ParseFault, SessionStatement};
use gql_front::{NoFront, ParseResult, after_word, plain_name, word_at};
use gql_lexer::Lexeme;
use gql_lexer::symbols::EQUAL;
use gql_lexer::words::VALUE;
use gql_parts::named_value;
use gql_values3::Text;
use std::alloc::Global;

/// A statement about the session, behind SESSION.
#[tactic(auto, unfolding(crate::specs::Machinery::SessionReaders::session_of))]
pub fn session<'a>(alloc: Global, rest: &'a [Lexeme]) -> ParseResult<'a, SessionStatement>
    ensures { Reads result rest.now session_of }
{
    let (word, rest) = word_at::<SessionWords>(rest)?;
    match word {
        SessionWord::Set => set(alloc, rest),
        SessionWord::Reset => Ok((SessionStatement::Reset, rest)),
        SessionWord::Close => Ok((SessionStatement::Close, rest)),
    }
}

/// What is set, behind SET: the graph, or the value of a parameter.
#[tactic(auto, unfolding(crate::specs::Machinery::SessionReaders::set_of))]
fn set<'a>(alloc: Global, rest: &'a [Lexeme]) -> ParseResult<'a, SessionStatement>
    ensures { Reads result rest.now set_of }
{
    match after_graph(rest) {
        Ok(behind) => {
            let (found, rest) = set_graph(alloc, behind)?;
            Ok((found, rest))
        }
        Err(NoFront) => set_value(alloc, rest),
    }
}

/// The name of a graph, behind GRAPH.
#[tactic(auto, unfolding(crate::specs::Machinery::SessionReaders::set_graph_of))]
fn set_graph<'a>(alloc: Global, rest: &'a [Lexeme]) -> ParseResult<'a, SessionStatement>
    ensures { Reads result rest.now set_graph_of }
{
    let (name, rest) = plain_name(rest)?;
    Ok((SessionStatement::SetGraph(name.try_copy(alloc)?), rest))
}

/// VALUE, a parameter and its expression.
#[tactic(auto, unfolding(crate::specs::Machinery::SessionReaders::set_value_of))]
fn set_value<'a>(alloc: Global, rest: &'a [Lexeme]) -> ParseResult<'a, SessionStatement>
    ensures { Reads result rest.now set_value_of }
{
    let rest = after_word(VALUE, rest)?;
    let (name, rest) = parameter(rest)?;
    let ((name, value), rest) = named_value(alloc, name, EQUAL, rest)?;
    Ok((SessionStatement::SetValue(name, value), rest))
}

/// The name of a parameter.
fn parameter(rest: &[Lexeme]) -> Result<(&Text, &[Lexeme]), NoFront>
    ensures { TakesAs (λ x. x.now) result rest.now (op_at param_in) }
{
    match rest {
        [Lexeme::Param(name), rest @ ..] => Ok((name, rest)),
        _ => Err(NoFront),
    }
}
