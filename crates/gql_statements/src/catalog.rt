//! Statements about the graphs and graph types.

ghost use Rattle.std.specs.Prelude.{◌≡◌, ◌<◌, ◌≤◌, length, IfOk};
ghost use Rattle.gql_front.specs.Reads.{Reads};
ghost use Rattle.gql_statements.specs.Machinery.CatalogReaders.{create_graph_of, create_type_of, create_of, drop_of};

use crate::catalog_name::{created_name, dropped_name};
use crate::graph_kind::graph_kind;
use crate::graph_words::after_graph;
use crate::past_word::past_word;
use gql_ast::CatalogStatement;
use gql_front::{NoFront, ParseResult, after_word};
use gql_lexer::Lexeme;
use gql_lexer::words::{AS, TYPE};
use gql_type::parse_type;
use std::alloc::Global;

/// The graph or graph type that is created, behind CREATE.
#[tactic(auto, unfolding(crate::specs::Machinery::CatalogReaders::create_of))]
pub fn create<'a>(alloc: Global, rest: &'a [Lexeme]) -> ParseResult<'a, CatalogStatement>
    ensures { Reads result rest.now create_of }
{
    let rest = after_graph(rest)?;
    match after_word(TYPE, rest) {
        Ok(behind) => {
            let (found, rest) = create_type(alloc, behind)?;
            Ok((found, rest))
        }
        Err(NoFront) => {
            let (found, rest) = create_graph(alloc, rest)?;
            Ok((found, rest))
        }
    }
}

/// A name, and what the graph may hold, behind GRAPH.
#[tactic(auto, unfolding(crate::specs::Machinery::CatalogReaders::create_graph_of))]
fn create_graph<'a>(alloc: Global, rest: &'a [Lexeme]) -> ParseResult<'a, CatalogStatement>
    ensures { Reads result rest.now create_graph_of }
{
    let ((lenient, name), rest) = created_name(alloc, rest)?;
    let (kind, rest) = graph_kind(alloc, rest)?;
    Ok((
        CatalogStatement::CreateGraph {
            lenient,
            name,
            kind,
        },
        rest,
    ))
}

/// A name, and the body of the graph type, behind TYPE.
#[tactic(auto, unfolding(crate::specs::Machinery::CatalogReaders::create_type_of))]
fn create_type<'a>(alloc: Global, rest: &'a [Lexeme]) -> ParseResult<'a, CatalogStatement>
    ensures { Reads result rest.now create_type_of }
{
    let ((lenient, name), rest) = created_name(alloc, rest)?;
    let (body, rest) = parse_type(alloc, past_word(AS, rest))?;
    Ok((
        CatalogStatement::CreateType {
            lenient,
            name,
            body,
        },
        rest,
    ))
}

/// The graph or graph type that is dropped, behind DROP.
#[tactic(auto, unfolding(crate::specs::Machinery::CatalogReaders::drop_of))]
pub fn drop_named<'a>(alloc: Global, rest: &'a [Lexeme]) -> ParseResult<'a, CatalogStatement>
    ensures { Reads result rest.now drop_of }
{
    let rest = after_graph(rest)?;
    match after_word(TYPE, rest) {
        Ok(behind) => {
            let ((lenient, name), rest) = dropped_name(alloc, behind)?;
            Ok((CatalogStatement::DropType { lenient, name }, rest))
        }
        Err(NoFront) => {
            let ((lenient, name), rest) = dropped_name(alloc, rest)?;
            Ok((CatalogStatement::DropGraph { lenient, name }, rest))
        }
    }
}
