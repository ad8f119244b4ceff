//! A property of an element of a graph type: its name, its kind, and whether it is NOT NULL.

ghost use Rattle.std.specs.Prelude.{◌≡◌};
ghost use Rattle.gql_front.specs.Reads.{Takes, AlwaysReads, GoesBehind, LeftBehind};
ghost use Rattle.gql_parts.specs.Machinery.PartReaders.{past};
ghost use Rattle.gql_type.specs.TypeWords.{scalar_words, is_typed};
ghost use Rattle.gql_type.specs.Machinery.TypeReaders.{not_null_of, required_of, list_kind_of, kind_of};

use crate::type_content::TypeParts;
use gql_ast::TypeProperty;
use gql_front::{NoFront, ParseResult, WordTable, after_sign, after_word, any_name, word_at};
use gql_lexer::Lexeme;
use gql_lexer::symbols::{DOUBLE_COLON, GREATER, LESS};
use gql_lexer::words::{BOOL, BOOLEAN, INT, INT64, INTEGER, LIST, NOT, NULL, STRING, TYPED};
use gql_parts::Item;
use gql_values3::{PropKind, Scalar};
use std::alloc::Global;

impl Item<TypeParts> for TypeProperty {
    ghost use Rattle.gql_type.specs.Machinery.TypeReaders.{property_of};

    ghost reader = { property_of };

    #[tactic(auto, unfolding(crate::specs::Machinery::TypeReaders::property_of))]
    fn read<'a>(alloc: Global, rest: &'a [Lexeme]) -> ParseResult<'a, TypeProperty> {
        let (name, rest) = any_name(rest)?;
        let (kind, rest) = kind(past_typed(rest))?;
        let (required, rest) = required(rest);
        let name = name.try_copy(alloc)?;
        Ok((
            TypeProperty {
                name,
                kind,
                required,
            },
            rest,
        ))
    }
}

/// What is behind TYPED or `::`, or all where neither stands.
fn past_typed(rest: &[Lexeme]) -> &[Lexeme]
    ensures { LeftBehind result rest.now (past is_typed rest.now) }
{
    match rest {
        [Lexeme::Word { place: TYPED, .. }, rest @ ..] => rest,
        [Lexeme::Sign(DOUBLE_COLON), rest @ ..] => rest,
        _ => rest,
    }
}

/// A kind of plain values, or LIST of one.
#[tactic(auto, unfolding(crate::specs::Machinery::TypeReaders::kind_of))]
fn kind(rest: &[Lexeme]) -> Result<(PropKind, &[Lexeme]), NoFront>
    ensures { Takes result rest.now kind_of }
{
    match word_at::<ScalarWords>(rest) {
        Ok((scalar, rest)) => Ok((PropKind::One(scalar), rest)),
        Err(NoFront) => list_kind(rest),
    }
}

#[tactic(auto, unfolding(crate::specs::Machinery::TypeReaders::list_kind_of))]
fn list_kind(rest: &[Lexeme]) -> Result<(PropKind, &[Lexeme]), NoFront>
    ensures { Takes result rest.now list_kind_of }
{
    let rest = after_word(LIST, rest)?;
    let rest = after_sign(LESS, rest)?;
    let (item, rest) = word_at::<ScalarWords>(rest)?;
    let (required, rest) = required(rest);
    let rest = after_sign(GREATER, rest)?;
    Ok((PropKind::Many { item, required }, rest))
}

/// Whether NOT NULL stands at the front, and what is behind it. A NOT that no NULL follows is left.
#[tactic(auto, unfolding(crate::specs::Machinery::TypeReaders::required_of))]
fn required(rest: &[Lexeme]) -> (bool, &[Lexeme])
    ensures { AlwaysReads result rest.now (required_of rest.now) }
{
    match after_not_null(rest) {
        Ok(behind) => (true, behind),
        Err(NoFront) => (false, rest),
    }
}

fn after_not_null(rest: &[Lexeme]) -> Result<&[Lexeme], NoFront>
    ensures { GoesBehind result rest.now (not_null_of rest.now) }
{
    let rest = after_word(NOT, rest)?;
    after_word(NULL, rest)
}

/// The words that say a kind of plain values.
struct ScalarWords;

impl WordTable for ScalarWords {
    type Says = Scalar;

    ghost words = { scalar_words };

    fn says(place: u32) -> Option<Scalar> {
        match place {
            BOOL => Some(Scalar::Bool),
            BOOLEAN => Some(Scalar::Bool),
            INT => Some(Scalar::Int),
            INTEGER => Some(Scalar::Int),
            INT64 => Some(Scalar::Int),
            STRING => Some(Scalar::Text),
            _ => None,
        }
    }
}
