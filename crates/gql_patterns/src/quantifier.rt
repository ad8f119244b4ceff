//! How often a part of a pattern stands.

ghost use Rattle.std.specs.Prelude.{◌≡◌, ◌<◌, ◌≤◌, length, IfOk};
ghost use Rattle.gql_front.specs.Reading.{op_at};
ghost use Rattle.gql_front.specs.Reads.{Reads, MayRead, TakesAs};
ghost use Rattle.gql_ast.specs.PatternMeaning.{pattern_of};
ghost use Rattle.gql_patterns.specs.PatternWords.{number_in};
ghost use Rattle.gql_patterns.specs.Machinery.QuantifierReaders.{number_of, upper_of, bounds_of, quantifier_of, repetition_of, repeat_by};

use gql_ast::{ParseFault, PathExpr, PathSub, Quantifier};
use gql_front::{NoFront, ParseResult, after_sign};
use gql_lexer::Lexeme;
use gql_lexer::symbols::{CLOSING_BRACE, COMMA, OPENING_BRACE, PLUS, QUESTION, STAR};
use gql_values3::{OutOfMemory, Text};
use std::alloc::Global;

/// What stands behind an element or a part and says how often it stands.
#[derive(Drop)]
pub enum Repetition {
    Times(Quantifier),
    /// `?`
    AtMostOnce,
}

/// The digits of the number at the front.
fn number_at(rest: &[Lexeme]) -> Result<(&Text, &[Lexeme]), NoFront>
    ensures { TakesAs (λ x. x.now) result rest.now (op_at number_in) }
{
    match rest {
        [Lexeme::Number(digits), rest @ ..] => Ok((digits, rest)),
        _ => Err(NoFront),
    }
}

/// A number, or nothing.
#[tactic(auto, unfolding(crate::specs::Machinery::QuantifierReaders::number_of, gql_front::specs::Reading::maybe))]
pub fn number<'a>(alloc: Global, rest: &'a [Lexeme]) -> ParseResult<'a, Option<Text>>
    ensures { MayRead result rest.now number_of }
{
    match number_at(rest) {
        Ok((digits, behind)) => Ok((Some(digits.try_copy(alloc)?), behind)),
        Err(NoFront) => Ok((None, rest)),
    }
}

/// The upper bound, if it is there, and the closing brace, behind the comma.
#[tactic(auto, unfolding(crate::specs::Machinery::QuantifierReaders::upper_of))]
fn upper<'a>(alloc: Global, least: Option<Text>, rest: &'a [Lexeme]) -> ParseResult<'a, Quantifier>
    ensures { Reads result rest.now (upper_of least) }
{
    let (most, rest) = number(alloc, rest)?;
    let rest = after_sign(CLOSING_BRACE, rest)?;
    Ok((Quantifier::Between(least, most), rest))
}

/// The bounds and the closing brace, behind the opening one.
#[tactic(auto, unfolding(crate::specs::Machinery::QuantifierReaders::bounds_of))]
fn bounds<'a>(alloc: Global, rest: &'a [Lexeme]) -> ParseResult<'a, Quantifier>
    ensures { Reads result rest.now bounds_of }
{
    let (least, rest) = number(alloc, rest)?;
    if let Ok(behind) = after_sign(COMMA, rest) {
        return upper(alloc, least, behind);
    }
    let rest = after_sign(CLOSING_BRACE, rest)?;
    match least {
        Some(times) => Ok((Quantifier::Exactly(times), rest)),
        None => Err(ParseFault::Syntax),
    }
}

#[tactic(auto, unfolding(crate::specs::Machinery::QuantifierReaders::quantifier_of))]
fn quantifier<'a>(alloc: Global, rest: &'a [Lexeme]) -> ParseResult<'a, Quantifier>
    ensures { Reads result rest.now quantifier_of }
{
    match rest {
        [Lexeme::Sign(STAR), rest @ ..] => Ok((Quantifier::Star, rest)),
        [Lexeme::Sign(PLUS), rest @ ..] => Ok((Quantifier::Plus, rest)),
        [Lexeme::Sign(OPENING_BRACE), rest @ ..] => bounds(alloc, rest),
        _ => Err(ParseFault::Syntax),
    }
}

/// A quantifier, or `?`.
#[tactic(auto, unfolding(crate::specs::Machinery::QuantifierReaders::repetition_of))]
pub fn repetition_behind<'a>(alloc: Global, rest: &'a [Lexeme]) -> ParseResult<'a, Repetition>
    ensures { Reads result rest.now repetition_of }
{
    if let Ok(behind) = after_sign(QUESTION, rest) {
        return Ok((Repetition::AtMostOnce, behind));
    }
    let (quantifier, rest) = quantifier(alloc, rest)?;
    Ok((Repetition::Times(quantifier), rest))
}

/// The part as often as the repetition says.
pub fn repeat_by(
    alloc: Global,
    part: PathExpr,
    repetition: Repetition,
) -> Result<PathExpr, OutOfMemory>
    ensures { IfOk result (λ x. pattern_of x ≡ repeat_by (pattern_of part) repetition) }
{
    let part = PathSub::new(alloc, part)?;
    Ok(match repetition {
        Repetition::Times(quantifier) => PathExpr::Repeat(part, quantifier),
        Repetition::AtMostOnce => PathExpr::Optional(part),
    })
}
