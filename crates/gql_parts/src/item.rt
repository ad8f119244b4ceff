//! Items between commas, and an item that may be missing.

ghost use Rattle.std.specs.Prelude.{◌≤◌, List, Option, Some, length};
ghost use Rattle.gql_lexer.specs.declared.lexeme.Lexeme.{Lexeme as Token};
ghost use Rattle.gql_front.specs.Reading.{is_sign, is_word, opted};
ghost use Rattle.gql_front.specs.Reads.{Reads, MayRead};
ghost use Rattle.gql_parts.specs.Machinery.PartReaders.{led, listed};

use gql_ast::ParseFault;
use gql_front::{NoFront, ParseResult, after_sign, after_word};
use gql_lexer::Lexeme;
use gql_lexer::symbols::COMMA;
use gql_values3::Sequence;
use std::alloc::Global;

/// What may stand between commas, behind one another, or behind a word that announces it. `By` is a type of the crate that
/// says how it is read: so each crate can say it of trees of `gql_ast`.
pub trait Item<By>: Drop + Sized {
    /// What reading lexemes gives.
    ghost reader: { List Token → Option (Self × List Token) };

    /// The item at the front, and the lexemes behind it. `Syntax` comes exactly where none is.
    fn read<'a>(alloc: Global, rest: &'a [Lexeme]) -> ParseResult<'a, Self>
        ensures { Reads result rest.now reader };
}

/// Items between commas. A comma that no item follows is left.
#[tactic(auto, unfolding(gql_front::specs::Reading::sequence))]
pub fn list<'a, By, T: Item<By>>(alloc: Global, start: &'a [Lexeme]) -> ParseResult<'a, Sequence<T>>
    ensures { Reads result start.now (listed T.reader) }
{
    let (first, mut rest) = T::read(alloc, start)?;
    let mut items = Sequence::new(alloc);
    items.push(first)?;
    'more: while let Ok(behind) = after_sign(COMMA, rest) {
        match T::read(alloc, behind) {
            Ok((item, behind)) => {
                items.push(item)?;
                rest = behind;
            }
            Err(ParseFault::Syntax) => return Ok((items, rest)),
            Err(ParseFault::Deep) => unreachable!(),
            Err(ParseFault::OutOfMemory) => return Err(ParseFault::OutOfMemory),
        }
    }
    Ok((items, rest))
}

/// The item behind a word, which is among the lexemes `rest`; where none stands behind it, nothing, and all of `rest`.
pub fn item_or_nothing<'a, By, T: Item<By>>(
    alloc: Global,
    rest: &'a [Lexeme],
    behind: &'a [Lexeme],
) -> ParseResult<'a, Option<T>>
    requires { length behind.now ≤ length rest.now }
    ensures { MayRead result rest.now (λ ts. Some (opted ts (T.reader behind.now))) }
{
    match T::read(alloc, behind) {
        Ok((item, behind)) => Ok((Some(item), behind)),
        Err(ParseFault::Syntax) => Ok((None, rest)),
        Err(ParseFault::Deep) => unreachable!(),
        Err(ParseFault::OutOfMemory) => Err(ParseFault::OutOfMemory),
    }
}

/// The item behind the reserved word of this place; where that word or the item is missing, nothing, and all of `rest`.
pub fn item_behind_word<'a, By, T: Item<By>>(
    alloc: Global,
    word: u32,
    rest: &'a [Lexeme],
) -> ParseResult<'a, Option<T>>
    ensures { MayRead result rest.now (led (is_word word) T.reader) }
{
    match after_word(word, rest) {
        Ok(behind) => item_or_nothing::<By, T>(alloc, rest, behind),
        Err(NoFront) => Ok((None, rest)),
    }
}

/// The item behind the symbol of this place; where that symbol or the item is missing, nothing, and all of `rest`.
pub fn item_behind_sign<'a, By, T: Item<By>>(
    alloc: Global,
    sign: u32,
    rest: &'a [Lexeme],
) -> ParseResult<'a, Option<T>>
    ensures { MayRead result rest.now (led (is_sign sign) T.reader) }
{
    match after_sign(sign, rest) {
        Ok(found) => item_or_nothing::<By, T>(alloc, rest, found),
        Err(NoFront) => Ok((None, rest)),
    }
}
