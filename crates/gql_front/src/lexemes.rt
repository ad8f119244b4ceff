//! Reading one lexeme from the front.

ghost use Rattle.std.specs.Prelude.{◌≡◌, ◌<◌, ◌≤◌, length, drop, IfOk};
ghost use Rattle.gql_front.specs.Reading.{is_sign, is_word, name_in, any_name_in, after, op_at};
ghost use Rattle.gql_front.specs.Reads.{TakesAs, GoesPast};

use crate::no_front::NoFront;
use gql_lexer::Lexeme;
use gql_values3::Text;

/// What is behind the symbol of this place.
pub fn after_sign(sign: u32, rest: &[Lexeme]) -> Result<&[Lexeme], NoFront>
    ensures { GoesPast result rest.now (is_sign sign) }
{
    match rest {
        [Lexeme::Sign(found), rest @ ..] if *found == sign => Ok(rest),
        _ => Err(NoFront),
    }
}

/// What is behind the reserved word of this place.
pub fn after_word(word: u32, rest: &[Lexeme]) -> Result<&[Lexeme], NoFront>
    ensures { GoesPast result rest.now (is_word word) }
{
    match rest {
        [Lexeme::Word { place, .. }, rest @ ..] if *place == word => Ok(rest),
        _ => Err(NoFront),
    }
}

/// A name that is no reserved word, or a delimited name.
pub fn plain_name(rest: &[Lexeme]) -> Result<(&Text, &[Lexeme]), NoFront>
    ensures { TakesAs (λ x. x.now) result rest.now (op_at name_in) }
{
    match rest {
        [Lexeme::Name(text), rest @ ..] => Ok((text, rest)),
        _ => Err(NoFront),
    }
}

/// A name or a reserved word, as it is written.
pub fn any_name(rest: &[Lexeme]) -> Result<(&Text, &[Lexeme]), NoFront>
    ensures { TakesAs (λ x. x.now) result rest.now (op_at any_name_in) }
{
    match rest {
        [Lexeme::Name(text), rest @ ..] => Ok((text, rest)),
        [Lexeme::Word { written, .. }, rest @ ..] => Ok((written, rest)),
        _ => Err(NoFront),
    }
}

/// The lexemes from a place on.
pub fn from_place(lexemes: &[Lexeme], at: u32) -> &[Lexeme]
    requires { at ≤ length lexemes.now }
    ensures { result.now ≡ drop at lexemes.now }
{
    let (_, rest) = lexemes.split_at(at as usize);
    rest
}
