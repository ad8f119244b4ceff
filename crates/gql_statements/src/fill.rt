//! What stands between the brackets of an element to be inserted.

ghost use Rattle.gql_front.specs.Reads.{MayRead};
ghost use Rattle.gql_statements.specs.Machinery.ChangeReaders.{fill_map_of, fill_of};

use gql_ast::{Fill, Map};
use gql_front::ParseResult;
use gql_lexer::Lexeme;
use gql_lexer::symbols::OPENING_BRACE;
use gql_parts::{Parts, item_behind_sign, variable};
use gql_type::optional_labels;
use std::alloc::Global;

/// The variable, the labels and the map, each if it is there.
#[tactic(auto, unfolding(crate::specs::Machinery::ChangeReaders::fill_of))]
pub fn fill<'a>(alloc: Global, rest: &'a [Lexeme]) -> ParseResult<'a, Fill>
    ensures { MayRead result rest.now fill_of }
{
    let (variable, rest) = variable(alloc, rest)?;
    let (labels, rest) = optional_labels(alloc, rest)?;
    let (map, rest) = fill_map(alloc, rest)?;
    Ok((
        Fill {
            variable,
            labels,
            map,
        },
        rest,
    ))
}

/// A map, or nothing.
#[tactic(auto, unfolding(crate::specs::Machinery::ChangeReaders::fill_map_of))]
fn fill_map<'a>(alloc: Global, rest: &'a [Lexeme]) -> ParseResult<'a, Option<Map>>
    ensures { MayRead result rest.now fill_map_of }
{
    item_behind_sign::<Parts, Map>(alloc, OPENING_BRACE, rest)
}
