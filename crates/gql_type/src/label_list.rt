//! The labels of an element: a colon or IS, and labels between `&`.

ghost use Rattle.gql_front.specs.Reads.{MayRead};
ghost use Rattle.gql_type.specs.Machinery.LabelListReaders.{optional_labels_of};

use gql_front::{ParseResult, after_sign, any_name};
use gql_lexer::Lexeme;
use gql_lexer::symbols::AMPERSAND;
use gql_parts::{Item, item_behind_colon, many};
use gql_values3::{Names, Sequence, Text};
use std::alloc::Global;

/// The labels, as items.
#[derive(Clone, Copy)]
pub struct LabelParts;

/// A further label behind `&`.
impl Item<LabelParts> for Text {
    ghost use Rattle.gql_type.specs.Machinery.LabelListReaders.{other_label_of};

    ghost reader = { other_label_of };

    #[tactic(auto, unfolding(crate::specs::Machinery::LabelListReaders::other_label_of))]
    fn read<'a>(alloc: Global, rest: &'a [Lexeme]) -> ParseResult<'a, Text> {
        let rest = after_sign(AMPERSAND, rest)?;
        let (name, rest) = any_name(rest)?;
        let label = name.try_copy(alloc)?;
        Ok((label, rest))
    }
}

/// Labels between `&`.
impl Item<LabelParts> for Names {
    ghost use Rattle.gql_type.specs.Machinery.LabelListReaders.{label_names_of};

    ghost reader = { label_names_of };

    #[tactic(auto, unfolding(crate::specs::Machinery::LabelListReaders::label_names_of))]
    fn read<'a>(alloc: Global, rest: &'a [Lexeme]) -> ParseResult<'a, Names> {
        let (name, rest) = any_name(rest)?;
        let first = name.try_copy(alloc)?;
        let (others, rest) = many::<LabelParts, Text>(alloc, rest)?;
        let mut labels = Sequence::new(alloc);
        labels.push(first)?;
        labels.extend(others)?;
        Ok((labels, rest))
    }
}

/// A colon or IS and labels between `&`, or nothing. A colon or IS that no label follows is left, and so is such an `&`.
#[tactic(auto, unfolding(crate::specs::Machinery::LabelListReaders::optional_labels_of))]
pub fn optional_labels<'a>(alloc: Global, rest: &'a [Lexeme]) -> ParseResult<'a, Option<Names>>
    ensures { MayRead result rest.now optional_labels_of }
{
    item_behind_colon::<LabelParts, Names>(alloc, rest)
}
