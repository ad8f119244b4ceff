//! LET: names and the expressions whose values they get.

ghost use Rattle.std.specs.Prelude.{◌≡◌, ◌<◌, length, IfOk};
ghost use Rattle.gql_front.specs.Reads.{Reads};
ghost use Rattle.gql_statements.specs.Machinery.ClauseReaders.{let_of};

use crate::clause::Clauses;
use gql_ast::{LetItem, LetItems, ParseFault};
use gql_front::{ParseResult, plain_name};
use gql_lexer::Lexeme;
use gql_lexer::symbols::EQUAL;
use gql_parts::{Item, list, named_value};
use std::alloc::Global;

impl Item<Clauses> for LetItem {
    ghost use Rattle.gql_statements.specs.Machinery.ClauseReaders.{let_item_of};

    ghost reader = { let_item_of };

    #[tactic(auto, unfolding(crate::specs::Machinery::ClauseReaders::let_item_of))]
    fn read<'a>(alloc: Global, rest: &'a [Lexeme]) -> ParseResult<'a, LetItem> {
        let (name, rest) = plain_name(rest)?;
        let ((name, value), rest) = named_value(alloc, name, EQUAL, rest)?;
        Ok((LetItem { name, value }, rest))
    }
}

/// The names of a LET and their expressions, behind that word.
#[tactic(auto, unfolding(crate::specs::Machinery::ClauseReaders::let_of))]
pub fn let_items<'a>(alloc: Global, rest: &'a [Lexeme]) -> ParseResult<'a, LetItems>
    ensures { Reads result rest.now let_of }
{
    list::<Clauses, LetItem>(alloc, rest)
}
