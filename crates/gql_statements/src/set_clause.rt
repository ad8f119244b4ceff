//! SET: new values of properties, and labels that variables get.

ghost use Rattle.std.specs.Prelude.{◌≡◌, ◌<◌, ◌≤◌, length, IfOk};
ghost use Rattle.gql_front.specs.Reads.{Reads, MayRead};
ghost use Rattle.gql_statements.specs.Machinery.ChangeReaders.{set_to, set_items_of};

use crate::clause::Clauses;
use gql_ast::{ParseFault, RemoveItem, SetItem};
use gql_front::{ParseResult, after_sign};
use gql_lexer::Lexeme;
use gql_lexer::symbols::EQUAL;
use gql_parts::{Item, list, value};
use gql_values3::Sequence;
use std::alloc::Global;

/// What REMOVE would take away, and for a property its new value.
impl Item<Clauses> for SetItem {
    ghost use Rattle.gql_statements.specs.Machinery.ChangeReaders.{set_item_of};

    ghost reader = { set_item_of };

    #[tactic(auto, unfolding(crate::specs::Machinery::ChangeReaders::set_item_of))]
    fn read<'a>(alloc: Global, rest: &'a [Lexeme]) -> ParseResult<'a, SetItem> {
        let (target, rest) = RemoveItem::read(alloc, rest)?;
        set_to(alloc, target, rest)
    }
}

/// The new value of a property, or nothing behind a label.
fn set_to<'a>(alloc: Global, target: RemoveItem, rest: &'a [Lexeme]) -> ParseResult<'a, SetItem>
    ensures { MayRead result rest.now (set_to target) }
{
    match target {
        RemoveItem::Property(name, property) => {
            let rest = after_sign(EQUAL, rest)?;
            let (value, rest) = value(alloc, rest)?;
            Ok((SetItem::Property(name, property, value), rest))
        }
        RemoveItem::Label(name, label) => Ok((SetItem::Label(name, label), rest)),
    }
}

/// The items of a SET, behind that word.
#[tactic(auto, unfolding(crate::specs::Machinery::ChangeReaders::set_items_of))]
pub fn set_items<'a>(alloc: Global, rest: &'a [Lexeme]) -> ParseResult<'a, Sequence<SetItem>>
    ensures { Reads result rest.now set_items_of }
{
    list::<Clauses, SetItem>(alloc, rest)
}
