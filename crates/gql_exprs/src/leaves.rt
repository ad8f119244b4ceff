//! Parts of atoms that hold no expression.

ghost use Rattle.gql_front.specs.Reads.{MayReadAs, Takes, TakesAs, AlwaysReads, GoesBehind};
ghost use Rattle.gql_front.specs.Reading.{op_at};
ghost use Rattle.gql_ast.specs.Meaning.{tree_of};
ghost use Rattle.gql_exprs.specs.ExprWords.{sign_op, comparison_op, quantifier_op};
ghost use Rattle.gql_exprs.specs.Machinery.LeafReaders.{field, named, quantifier_of, star_of};

use gql_ast::{Aggregate, Expr, ParseFault, SetQuantifier, Sign};
use gql_front::{NoFront, ParseResult, after_sign, any_name};
use gql_lexer::Lexeme;
use gql_lexer::symbols::{
    DOT, EQUAL, GREATER, GREATER_OR_EQUAL, LESS, LESS_OR_EQUAL, MINUS, NOT_EQUAL, PLUS, STAR,
};
use gql_lexer::words::{ALL, DISTINCT};
use gql_values3::{Comparison, Text};
use std::alloc::Global;

/// The sign at the front.
pub fn sign_at(rest: &[Lexeme]) -> Result<(Sign, &[Lexeme]), NoFront>
    ensures { Takes result rest.now (op_at sign_op) }
{
    match rest {
        [Lexeme::Sign(PLUS), rest @ ..] => Ok((Sign::Plus, rest)),
        [Lexeme::Sign(MINUS), rest @ ..] => Ok((Sign::Minus, rest)),
        _ => Err(NoFront),
    }
}

/// The sign of comparison at the front.
pub fn comparison_at(rest: &[Lexeme]) -> Result<(Comparison, &[Lexeme]), NoFront>
    ensures { Takes result rest.now (op_at comparison_op) }
{
    match rest {
        [Lexeme::Sign(EQUAL), rest @ ..] => Ok((Comparison::Eq, rest)),
        [Lexeme::Sign(NOT_EQUAL), rest @ ..] => Ok((Comparison::Ne, rest)),
        [Lexeme::Sign(LESS), rest @ ..] => Ok((Comparison::Lt, rest)),
        [Lexeme::Sign(GREATER), rest @ ..] => Ok((Comparison::Gt, rest)),
        [Lexeme::Sign(LESS_OR_EQUAL), rest @ ..] => Ok((Comparison::Le, rest)),
        [Lexeme::Sign(GREATER_OR_EQUAL), rest @ ..] => Ok((Comparison::Ge, rest)),
        _ => Err(NoFront),
    }
}

/// A variable or a property of it, behind its name.
#[tactic(auto, unfolding(crate::specs::Machinery::LeafReaders::named))]
pub fn named<'a>(alloc: Global, name: &Text, rest: &'a [Lexeme]) -> ParseResult<'a, Expr>
    ensures { MayReadAs tree_of result rest.now (named name.now) }
{
    let name = name.try_copy(alloc)?;
    match property(rest) {
        Ok((property, rest)) => Ok((Expr::Property(name, property.try_copy(alloc)?), rest)),
        Err(NoFront) => Ok((Expr::Name(name), rest)),
    }
}

/// A dot and a name.
#[tactic(auto, unfolding(crate::specs::Machinery::LeafReaders::field))]
fn property(rest: &[Lexeme]) -> Result<(&Text, &[Lexeme]), NoFront>
    ensures { TakesAs (λ x. x.now) result rest.now field }
{
    let rest = after_sign(DOT, rest)?;
    any_name(rest)
}

/// DISTINCT or ALL at the front, or nothing, which means the same as ALL.
#[tactic(auto, unfolding(crate::specs::Machinery::LeafReaders::quantifier_of))]
pub fn quantifier_of(rest: &[Lexeme]) -> (SetQuantifier, &[Lexeme])
    ensures { AlwaysReads result rest.now (quantifier_of rest.now) }
{
    match rest {
        [
            Lexeme::Word {
                place: DISTINCT,
                ..
            },
            rest @ ..,
        ] => (SetQuantifier::Distinct, rest),
        [Lexeme::Word { place: ALL, .. }, rest @ ..] => (SetQuantifier::All, rest),
        _ => (SetQuantifier::All, rest),
    }
}

/// What is behind the star of `COUNT(*)`.
pub fn star_of(kind: Aggregate, rest: &[Lexeme]) -> Result<&[Lexeme], NoFront>
    ensures { GoesBehind result rest.now (star_of kind rest.now) }
{
    match kind {
        Aggregate::Count => after_sign(STAR, rest),
        _ => Err(NoFront),
    }
}
