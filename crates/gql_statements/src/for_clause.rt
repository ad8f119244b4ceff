//! FOR: the name of an item, the list, and a counter that may be missing.

ghost use Rattle.std.specs.Prelude.{◌≡◌, ◌<◌, ◌≤◌, length, IfOk};
ghost use Rattle.gql_front.specs.Reads.{Reads, MayRead, Takes};
ghost use Rattle.gql_front.specs.Reading.{op_at};
ghost use Rattle.gql_statements.specs.PartWords.{counting_word};
ghost use Rattle.gql_statements.specs.Machinery.ClauseReaders.{counter_of, for_of};

use crate::clause::Clauses;
use gql_ast::{Counting, For};
use gql_front::{NoFront, ParseResult, after_word, plain_name};
use gql_lexer::Lexeme;
use gql_lexer::words::{IN, OFFSET, ORDINALITY, WITH};
use gql_parts::{Item, item_behind_word, value};
use gql_values3::Text;
use std::alloc::Global;

/// An item's name, the list and the counter of a FOR, behind that word.
#[tactic(auto, unfolding(crate::specs::Machinery::ClauseReaders::for_of))]
pub fn for_items<'a>(alloc: Global, rest: &'a [Lexeme]) -> ParseResult<'a, For>
    ensures { Reads result rest.now for_of }
{
    let (name, rest) = plain_name(rest)?;
    let rest = after_word(IN, rest)?;
    let name = name.try_copy(alloc)?;
    let (list, rest) = value(alloc, rest)?;
    let (counter, rest) = counter(alloc, rest)?;
    Ok((
        For {
            name,
            list,
            counter,
        },
        rest,
    ))
}

/// WITH, how items are counted, and the counter's name; or nothing.
#[tactic(auto, unfolding(crate::specs::Machinery::ClauseReaders::counter_of))]
fn counter<'a>(alloc: Global, rest: &'a [Lexeme]) -> ParseResult<'a, Option<(Counting, Text)>>
    ensures { MayRead result rest.now counter_of }
{
    item_behind_word::<Clauses, (Counting, Text)>(alloc, WITH, rest)
}

/// How items are counted, and the counter's name.
impl Item<Clauses> for (Counting, Text) {
    ghost use Rattle.gql_statements.specs.Machinery.ClauseReaders.{counted_of};

    ghost reader = { counted_of };

    #[tactic(auto, unfolding(crate::specs::Machinery::ClauseReaders::counted_of))]
    fn read<'a>(alloc: Global, rest: &'a [Lexeme]) -> ParseResult<'a, (Counting, Text)> {
        let (counting, rest) = counting_at(rest)?;
        let (name, rest) = plain_name(rest)?;
        Ok(((counting, name.try_copy(alloc)?), rest))
    }
}

/// The word that says how items are counted.
fn counting_at(rest: &[Lexeme]) -> Result<(Counting, &[Lexeme]), NoFront>
    ensures { Takes result rest.now (op_at counting_word) }
{
    match rest {
        [
            Lexeme::Word {
                place: ORDINALITY,
                ..
            },
            rest @ ..,
        ] => Ok((Counting::Ordinality, rest)),
        [Lexeme::Word { place: OFFSET, .. }, rest @ ..] => Ok((Counting::Offset, rest)),
        _ => Err(NoFront),
    }
}
