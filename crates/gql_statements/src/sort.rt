//! ORDER BY: sort keys with their directions, and where nulls stand.

ghost use Rattle.std.specs.Prelude.{◌≡◌, ◌≤◌, length};
ghost use Rattle.gql_front.specs.Reads.{Takes, AlwaysReads};
ghost use Rattle.gql_front.specs.Reading.{op_at, is_word};
ghost use Rattle.gql_lexer.specs.WordPlaces.{NULLS as nulls_word};
ghost use Rattle.gql_statements.specs.PartWords.{direction_word, null_word};
ghost use Rattle.gql_parts.specs.Machinery.PartReaders.{led};
ghost use Rattle.gql_statements.specs.Machinery.PageReaders.{direction_of};

use crate::clause::Clauses;
use gql_ast::{NullOrder, SortDirection, SortItem, SortItems};
use gql_front::{NoFront, ParseResult, after_word};
use gql_lexer::Lexeme;
use gql_lexer::words::{ASC, ASCENDING, BY, DESC, DESCENDING, FIRST, LAST, NULLS};
use gql_parts::{Item, list, value};
use std::alloc::Global;

impl Item<Clauses> for SortItem {
    ghost use Rattle.gql_statements.specs.Machinery.PageReaders.{sort_item_of};

    ghost reader = { sort_item_of };

    #[tactic(auto, unfolding(crate::specs::Machinery::PageReaders::sort_item_of))]
    fn read<'a>(alloc: Global, rest: &'a [Lexeme]) -> ParseResult<'a, SortItem> {
        let (key, rest) = value(alloc, rest)?;
        let (direction, rest) = direction_of(rest);
        let (nulls, rest) = null_order(rest);
        Ok((
            SortItem {
                key,
                direction,
                nulls,
            },
            rest,
        ))
    }
}

/// BY and sort keys.
impl Item<Clauses> for SortItems {
    ghost use Rattle.gql_statements.specs.Machinery.PageReaders.{order_of};

    ghost reader = { order_of };

    #[tactic(auto, unfolding(crate::specs::Machinery::PageReaders::order_of, crate::specs::Machinery::PageReaders::sort_items_of))]
    fn read<'a>(alloc: Global, rest: &'a [Lexeme]) -> ParseResult<'a, SortItems> {
        let rest = after_word(BY, rest)?;
        list::<Clauses, SortItem>(alloc, rest)
    }
}

/// The direction at the front; no word means ascending.
#[tactic(auto, unfolding(crate::specs::Machinery::PageReaders::direction_of))]
fn direction_of(rest: &[Lexeme]) -> (SortDirection, &[Lexeme])
    ensures { AlwaysReads result rest.now (direction_of rest.now) }
{
    match direction_at(rest) {
        Ok(found) => found,
        Err(NoFront) => (SortDirection::Ascending, rest),
    }
}

/// The word of a direction.
fn direction_at(rest: &[Lexeme]) -> Result<(SortDirection, &[Lexeme]), NoFront>
    ensures { Takes result rest.now (op_at direction_word) }
{
    match rest {
        [Lexeme::Word { place: ASC, .. }, rest @ ..] => Ok((SortDirection::Ascending, rest)),
        [
            Lexeme::Word {
                place: ASCENDING,
                ..
            },
            rest @ ..,
        ] => Ok((SortDirection::Ascending, rest)),
        [Lexeme::Word { place: DESC, .. }, rest @ ..] => Ok((SortDirection::Descending, rest)),
        [
            Lexeme::Word {
                place: DESCENDING,
                ..
            },
            rest @ ..,
        ] => Ok((SortDirection::Descending, rest)),
        _ => Err(NoFront),
    }
}

/// NULLS FIRST or NULLS LAST, or nothing. A NULLS that neither word follows is left.
fn null_order(rest: &[Lexeme]) -> (Option<NullOrder>, &[Lexeme])
    ensures given { led (is_word nulls_word) (op_at null_word) rest.now ≡ Some (result.0, result.1.now) }
    ensures shorter { length result.1.now ≤ length rest.now }
{
    match after_word(NULLS, rest) {
        Ok(behind) => match null_word_at(behind) {
            Ok((order, behind)) => (Some(order), behind),
            Err(NoFront) => (None, rest),
        },
        Err(NoFront) => (None, rest),
    }
}

/// The word behind NULLS.
fn null_word_at(rest: &[Lexeme]) -> Result<(NullOrder, &[Lexeme]), NoFront>
    ensures { Takes result rest.now (op_at null_word) }
{
    match rest {
        [Lexeme::Word { place: FIRST, .. }, rest @ ..] => Ok((NullOrder::First, rest)),
        [Lexeme::Word { place: LAST, .. }, rest @ ..] => Ok((NullOrder::Last, rest)),
        _ => Err(NoFront),
    }
}
