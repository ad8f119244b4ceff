//! The labels and properties of an element of a graph type: the properties between braces, and both as one content.

ghost use Rattle.std.specs.Prelude.{◌≡◌, ◌<◌, ◌≤◌, length, IfOk};
ghost use Rattle.gql_front.specs.Reads.{Reads, MayRead};
ghost use Rattle.gql_type.specs.Machinery.TypeReaders.{braced_properties_of, content_of};

use crate::label_list::optional_labels;
use gql_ast::{ElementBody, TypeProperty};
use gql_front::ParseResult;
use gql_lexer::Lexeme;
use gql_lexer::symbols::OPENING_BRACE;
use gql_parts::{Item, item_behind_sign, list_to_brace};
use gql_values3::Sequence;
use std::alloc::Global;

/// The parts of this crate, as items.
#[derive(Clone, Copy)]
pub struct TypeParts;

/// The properties and the closing brace, behind the opening one.
impl Item<TypeParts> for Sequence<TypeProperty> {
    ghost use Rattle.gql_type.specs.Machinery.TypeReaders.{properties_of};

    ghost reader = { properties_of };

    #[tactic(auto, unfolding(crate::specs::Machinery::TypeReaders::properties_of))]
    fn read<'a>(alloc: Global, rest: &'a [Lexeme]) -> ParseResult<'a, Sequence<TypeProperty>> {
        list_to_brace::<TypeParts, TypeProperty>(alloc, rest)
    }
}

/// The labels and the properties, each if they are there.
#[tactic(auto, unfolding(crate::specs::Machinery::TypeReaders::content_of))]
pub fn content<'a>(alloc: Global, rest: &'a [Lexeme]) -> ParseResult<'a, ElementBody>
    ensures { MayRead result rest.now content_of }
{
    let (labels, rest) = optional_labels(alloc, rest)?;
    let (properties, rest) = braced_properties(alloc, rest)?;
    Ok((ElementBody { labels, properties }, rest))
}

/// Properties between braces, or nothing.
#[tactic(auto, unfolding(crate::specs::Machinery::TypeReaders::braced_properties_of))]
fn braced_properties<'a>(
    alloc: Global,
    rest: &'a [Lexeme],
) -> ParseResult<'a, Option<Sequence<TypeProperty>>>
    ensures { MayRead result rest.now braced_properties_of }
{
    item_behind_sign::<TypeParts, Sequence<TypeProperty>>(alloc, OPENING_BRACE, rest)
}
