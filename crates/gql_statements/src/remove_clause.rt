//! REMOVE: properties and labels of variables.

ghost use Rattle.std.specs.Prelude.{◌≡◌, ◌<◌, length, IfOk};
ghost use Rattle.gql_front.specs.Reads.{Reads};
ghost use Rattle.gql_statements.specs.Machinery.ChangeReaders.{remove_items_of};

use crate::clause::Clauses;
use gql_ast::{ParseFault, RemoveItem};
use gql_front::{NoFront, ParseResult, after_sign, any_name, plain_name};
use gql_lexer::Lexeme;
use gql_lexer::symbols::DOT;
use gql_parts::{Item, after_colon, list};
use gql_values3::Sequence;
use std::alloc::Global;

/// A property or a label of a variable.
impl Item<Clauses> for RemoveItem {
    ghost use Rattle.gql_statements.specs.Machinery.ChangeReaders.{remove_item_of};

    ghost reader = { remove_item_of };

    #[tactic(auto, unfolding(crate::specs::Machinery::ChangeReaders::remove_item_of))]
    fn read<'a>(alloc: Global, rest: &'a [Lexeme]) -> ParseResult<'a, RemoveItem> {
        let (name, rest) = plain_name(rest)?;
        match after_sign(DOT, rest) {
            Ok(behind) => {
                let (property, behind) = any_name(behind)?;
                let name = name.try_copy(alloc)?;
                Ok((
                    RemoveItem::Property(name, property.try_copy(alloc)?),
                    behind,
                ))
            }
            Err(NoFront) => {
                let behind = after_colon(rest)?;
                let (label, behind) = any_name(behind)?;
                let name = name.try_copy(alloc)?;
                Ok((RemoveItem::Label(name, label.try_copy(alloc)?), behind))
            }
        }
    }
}

/// The items of a REMOVE, behind that word.
#[tactic(auto, unfolding(crate::specs::Machinery::ChangeReaders::remove_items_of))]
pub fn remove_items<'a>(alloc: Global, rest: &'a [Lexeme]) -> ParseResult<'a, Sequence<RemoveItem>>
    ensures { Reads result rest.now remove_items_of }
{
    list::<Clauses, RemoveItem>(alloc, rest)
}
