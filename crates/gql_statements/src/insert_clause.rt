//! INSERT and its paths: nodes, and edges with their symbols between them.

ghost use Rattle.std.specs.Prelude.{◌≡◌, ◌<◌, ◌≤◌, length, IfOk};
ghost use Rattle.gql_front.specs.Reads.{Reads};
ghost use Rattle.gql_statements.specs.Machinery.ChangeReaders.{between_of, insert_edge_of, insert_paths_of};

use crate::clause::Clauses;
use crate::fill::fill;
use gql_ast::{Arrow, Fill, InsertPath, InsertStep};
use gql_front::{ParseResult, after_sign};
use gql_lexer::Lexeme;
use gql_lexer::symbols::{CLOSING, CLOSING_BRACKET, OPENING, OPENING_BRACKET};
use gql_parts::{Item, list, many};
use gql_type::{arrow_at, closing_of};
use gql_values3::Sequence;
use std::alloc::Global;

/// A node, and as many steps as there are.
impl Item<Clauses> for InsertPath {
    ghost use Rattle.gql_statements.specs.Machinery.ChangeReaders.{insert_path_of};

    ghost reader = { insert_path_of };

    #[tactic(auto, unfolding(crate::specs::Machinery::ChangeReaders::insert_path_of, crate::specs::Machinery::ChangeReaders::insert_steps_of))]
    fn read<'a>(alloc: Global, rest: &'a [Lexeme]) -> ParseResult<'a, InsertPath> {
        let (start, rest) = between(alloc, OPENING, CLOSING, rest)?;
        let (steps, rest) = many::<Clauses, InsertStep>(alloc, rest)?;
        Ok((InsertPath { start, steps }, rest))
    }
}

/// An edge, and the node to which it leads.
impl Item<Clauses> for InsertStep {
    ghost use Rattle.gql_statements.specs.Machinery.ChangeReaders.{insert_step_of};

    ghost reader = { insert_step_of };

    #[tactic(auto, unfolding(crate::specs::Machinery::ChangeReaders::insert_step_of))]
    fn read<'a>(alloc: Global, rest: &'a [Lexeme]) -> ParseResult<'a, InsertStep> {
        let ((arrow, edge), rest) = insert_edge(alloc, rest)?;
        let (node, rest) = between(alloc, OPENING, CLOSING, rest)?;
        Ok((InsertStep { arrow, edge, node }, rest))
    }
}

/// The paths of an INSERT, behind that word.
#[tactic(auto, unfolding(crate::specs::Machinery::ChangeReaders::insert_paths_of))]
pub fn insert_paths<'a>(alloc: Global, rest: &'a [Lexeme]) -> ParseResult<'a, Sequence<InsertPath>>
    ensures { Reads result rest.now insert_paths_of }
{
    list::<Clauses, InsertPath>(alloc, rest)
}

/// An edge in its symbols.
#[tactic(auto, unfolding(crate::specs::Machinery::ChangeReaders::insert_edge_of))]
fn insert_edge<'a>(alloc: Global, rest: &'a [Lexeme]) -> ParseResult<'a, (Arrow, Fill)>
    ensures { Reads result rest.now insert_edge_of }
{
    let (arrow, rest) = arrow_at(rest)?;
    let (edge, rest) = between(alloc, OPENING_BRACKET, CLOSING_BRACKET, rest)?;
    let rest = after_sign(closing_of(arrow), rest)?;
    Ok(((arrow, edge), rest))
}

/// What stands between two symbols.
#[tactic(auto, unfolding(crate::specs::Machinery::ChangeReaders::between_of))]
fn between<'a>(alloc: Global, first: u32, last: u32, rest: &'a [Lexeme]) -> ParseResult<'a, Fill>
    ensures { Reads result rest.now (between_of first last) }
{
    let rest = after_sign(first, rest)?;
    let (element, rest) = fill(alloc, rest)?;
    let rest = after_sign(last, rest)?;
    Ok((element, rest))
}
