//! Items between commas up to a closing brace.

ghost use Rattle.gql_front.specs.Reads.{Reads};
ghost use Rattle.gql_parts.specs.Machinery.PartReaders.{listed_to_brace};

use crate::item::{Item, list};
use gql_front::{ParseResult, after_sign};
use gql_lexer::Lexeme;
use gql_lexer::symbols::CLOSING_BRACE;
use gql_values3::Sequence;
use std::alloc::Global;

/// The items and the closing brace, behind the opening one; there may be none.
pub fn list_to_brace<'a, By, T: Item<By>>(
    alloc: Global,
    rest: &'a [Lexeme],
) -> ParseResult<'a, Sequence<T>>
    ensures { Reads result rest.now (listed_to_brace T.reader) }
{
    if let Ok(behind) = after_sign(CLOSING_BRACE, rest) {
        return Ok((Sequence::new(alloc), behind));
    }
    let (items, rest) = list::<By, T>(alloc, rest)?;
    let rest = after_sign(CLOSING_BRACE, rest)?;
    Ok((items, rest))
}
