//! What stands between the brackets of an element, and WHERE.

ghost use Rattle.gql_front.specs.Reads.{Reads, MayRead, GoesPast};
ghost use Rattle.gql_parts.specs.PartWords.{is_colon};
ghost use Rattle.gql_parts.specs.Machinery.PartReaders.{led};
ghost use Rattle.gql_parts.specs.Machinery.FillerReaders.{where_of, condition_of, variable_of, filler_labels_of, filler_of};

use crate::braces::list_to_brace;
use crate::item::{Item, item_behind_word, item_or_nothing};
use crate::values::{Parts, named_value};
use gql_ast::{Condition, Expr, Filler, LabelExpr, Map, MapItem};
use gql_front::{NoFront, ParseResult, after_sign, any_name, plain_name};
use gql_lexer::Lexeme;
use gql_lexer::symbols::{COLON, OPENING_BRACE};
use gql_lexer::words::{IS, WHERE};
use gql_values3::Text;
use std::alloc::Global;

impl Item<Parts> for MapItem {
    ghost use Rattle.gql_parts.specs.Machinery.FillerReaders.{map_item_of};

    ghost reader = { map_item_of };

    #[tactic(auto, unfolding(crate::specs::Machinery::FillerReaders::map_item_of))]
    fn read<'a>(alloc: Global, rest: &'a [Lexeme]) -> ParseResult<'a, MapItem> {
        let (name, rest) = any_name(rest)?;
        let ((name, value), rest) = named_value(alloc, name, COLON, rest)?;
        Ok((MapItem { name, value }, rest))
    }
}

/// The items of a map and the closing brace, behind the opening one.
impl Item<Parts> for Map {
    ghost use Rattle.gql_parts.specs.Machinery.FillerReaders.{map_of};

    ghost reader = { map_of };

    #[tactic(auto, unfolding(crate::specs::Machinery::FillerReaders::map_of))]
    fn read<'a>(alloc: Global, rest: &'a [Lexeme]) -> ParseResult<'a, Map> {
        list_to_brace::<Parts, MapItem>(alloc, rest)
    }
}

/// The variable, the labels and the condition, each if it is there.
#[tactic(auto, unfolding(crate::specs::Machinery::FillerReaders::filler_of))]
pub fn filler<'a>(alloc: Global, rest: &'a [Lexeme]) -> ParseResult<'a, Filler>
    ensures { MayRead result rest.now filler_of }
{
    let (variable, rest) = variable(alloc, rest)?;
    let (labels, rest) = filler_labels(alloc, rest)?;
    let (condition, rest) = condition(alloc, rest)?;
    Ok((
        Filler {
            variable,
            labels,
            condition,
        },
        rest,
    ))
}

/// WHERE and an expression, or nothing. A WHERE that no expression follows is left.
#[tactic(auto, unfolding(crate::specs::Machinery::FillerReaders::where_of))]
pub fn where_value<'a>(alloc: Global, rest: &'a [Lexeme]) -> ParseResult<'a, Option<Expr>>
    ensures { MayRead result rest.now where_of }
{
    item_behind_word::<Parts, Expr>(alloc, WHERE, rest)
}

/// A name, or nothing.
#[tactic(auto, unfolding(crate::specs::Machinery::FillerReaders::variable_of, gql_front::specs::Reading::maybe))]
pub fn variable<'a>(alloc: Global, rest: &'a [Lexeme]) -> ParseResult<'a, Option<Text>>
    ensures { MayRead result rest.now variable_of }
{
    match plain_name(rest) {
        Ok((name, behind)) => Ok((Some(name.try_copy(alloc)?), behind)),
        Err(NoFront) => Ok((None, rest)),
    }
}

/// A colon or IS and a label expression, or nothing. One that no label expression follows is left.
#[tactic(auto, unfolding(crate::specs::Machinery::FillerReaders::filler_labels_of))]
fn filler_labels<'a>(alloc: Global, rest: &'a [Lexeme]) -> ParseResult<'a, Option<LabelExpr>>
    ensures { MayRead result rest.now filler_labels_of }
{
    item_behind_colon::<Parts, LabelExpr>(alloc, rest)
}

/// The item behind a colon or IS; where neither stands, or no item behind it, nothing, and all of `rest`.
pub fn item_behind_colon<'a, By, T: Item<By>>(
    alloc: Global,
    rest: &'a [Lexeme],
) -> ParseResult<'a, Option<T>>
    ensures { MayRead result rest.now (led is_colon T.reader) }
{
    match after_colon(rest) {
        Ok(behind) => item_or_nothing::<By, T>(alloc, rest, behind),
        Err(NoFront) => Ok((None, rest)),
    }
}

/// What is behind a colon or IS.
pub fn after_colon(rest: &[Lexeme]) -> Result<&[Lexeme], NoFront>
    ensures { GoesPast result rest.now is_colon }
{
    match rest {
        [Lexeme::Sign(COLON), rest @ ..] => Ok(rest),
        [Lexeme::Word { place: IS, .. }, rest @ ..] => Ok(rest),
        _ => Err(NoFront),
    }
}

/// A map, or WHERE and an expression, or nothing. A brace that no map begins is left.
#[tactic(auto, unfolding(crate::specs::Machinery::FillerReaders::condition_of))]
fn condition<'a>(alloc: Global, rest: &'a [Lexeme]) -> ParseResult<'a, Option<Condition>>
    ensures { MayRead result rest.now condition_of }
{
    if let Ok(behind) = after_sign(OPENING_BRACE, rest) {
        let (items, rest) = item_or_nothing::<Parts, Map>(alloc, rest, behind)?;
        return match items {
            Some(items) => Ok((Some(Condition::Map(items)), rest)),
            None => Ok((None, rest)),
        };
    }
    let (held, rest) = where_value(alloc, rest)?;
    match held {
        Some(expr) => Ok((Some(Condition::Where(expr)), rest)),
        None => Ok((None, rest)),
    }
}
