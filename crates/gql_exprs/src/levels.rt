//! The recursion over expressions: a function a production, where the functions of the loops read any length.

ghost use Rattle.gql_front.specs.Reads.{ReadsAs, MayReadAs, AlwaysReadsInMemory};
ghost use Rattle.gql_front.specs.Reading.{step};
ghost use Rattle.gql_ast.specs.Meaning.{tree_of};
ghost use Rattle.gql_exprs.specs.ExprWords.{comparison_op};
ghost use Rattle.gql_exprs.specs.Machinery.LeafReaders.{other_side};
ghost use Rattle.gql_exprs.specs.Machinery.Readers.{word_atom_of, atom_of, signed_of, sum_of, comparison_of, test_of, not_of, side_of, steps_of, chain_of, read_expr};

use crate::atom_word::{AtomWord, atom_word};
use crate::brackets::{aggregate, call, coalesce, listing, modulo, paren, word_listing};
use crate::chain::{Chain, chain_or_side, operator_at};
use crate::ending::{ending, tested};
use crate::leaves::{comparison_at, named, sign_at};
use crate::nodes::compare;
use gql_ast::{Expr, ParseFault, Step, Steps, Sub};
use gql_front::ParseResult;
use gql_lexer::Lexeme;
use gql_lexer::symbols::{OPENING, OPENING_BRACKET};
use gql_lexer::words::NOT;
use gql_values3::{Comparison, OutOfMemory, Value};
use std::alloc::Global;

/// The longest front of the lexemes that derives an expression, and the lexemes behind it. `Syntax` comes exactly where
/// no front does. A chain or a list may be as long as memory allows; brackets use the stack, so a caller refuses
/// lexemes that are too deep before.
#[cycle(expr)]
#[tactic(auto, using(crate::proofs::ExprRead::read_expr_is))]
pub fn expression<'a>(alloc: Global, rest: &'a [Lexeme]) -> ParseResult<'a, Expr>
    ensures { ReadsAs tree_of result rest.now read_expr }
{
    chain(alloc, Chain::Or, rest)
}

/// A chain, or its only side.
#[cycle(expr)]
#[tactic(auto, using(crate::proofs::ExprLoops::chain_is))]
fn chain<'a>(alloc: Global, kind: Chain, rest: &'a [Lexeme]) -> ParseResult<'a, Expr>
    ensures { ReadsAs tree_of result rest.now (chain_of kind read_expr) }
{
    let (first, rest) = side(alloc, kind, rest)?;
    let (steps, rest) = steps(alloc, kind, rest)?;
    Ok((chain_or_side(alloc, kind, first, steps)?, rest))
}

/// A side of a chain.
#[cycle(expr)]
fn side<'a>(alloc: Global, kind: Chain, rest: &'a [Lexeme]) -> ParseResult<'a, Expr>
    ensures { ReadsAs tree_of result rest.now (side_of kind read_expr) }
{
    match kind {
        Chain::Or => chain(alloc, Chain::And, rest),
        Chain::And => negation(alloc, rest),
        Chain::Sum => chain(alloc, Chain::Product, rest),
        Chain::Product => signed(alloc, rest),
    }
}

/// The further sides of a chain, each behind its operator. An operator that no side follows is left.
#[cycle(expr)]
fn steps<'a>(
    alloc: Global,
    kind: Chain,
    start: &'a [Lexeme],
) -> Result<(Steps, &'a [Lexeme]), OutOfMemory>
    ensures { AlwaysReadsInMemory result start.now (steps_of kind read_expr start.now) }
{
    let mut steps = Steps::new(alloc);
    let mut rest = start;
    'more: while let Ok((operator, behind)) = operator_at(kind, rest) {
        match side(alloc, kind, behind) {
            Ok((operand, behind)) => {
                steps.push(Step { operator, operand })?;
                rest = behind;
            }
            Err(ParseFault::Syntax) => return Ok((steps, rest)),
            Err(ParseFault::Deep) => unreachable!(),
            Err(ParseFault::OutOfMemory) => return Err(OutOfMemory),
        }
    }
    Ok((steps, rest))
}

/// A test, or NOT and a test.
#[cycle(expr)]
#[tactic(auto, unfolding(crate::specs::Machinery::Readers::not_of, gql_front::specs::Reading::prefix))]
fn negation<'a>(alloc: Global, rest: &'a [Lexeme]) -> ParseResult<'a, Expr>
    ensures { ReadsAs tree_of result rest.now (not_of read_expr) }
{
    match rest {
        [Lexeme::Word { place: NOT, .. }, rest @ ..] => {
            let (expr, rest) = test(alloc, rest)?;
            Ok((Expr::Not(Sub::new(alloc, expr)?), rest))
        }
        _ => test(alloc, rest),
    }
}

/// A comparison, perhaps with what makes a test of it.
#[cycle(expr)]
#[tactic(auto, unfolding(crate::specs::Machinery::Readers::test_of, gql_front::specs::Reading::suffix))]
fn test<'a>(alloc: Global, rest: &'a [Lexeme]) -> ParseResult<'a, Expr>
    ensures { ReadsAs tree_of result rest.now (test_of read_expr) }
{
    let (expr, rest) = comparison(alloc, rest)?;
    match ending(alloc, rest) {
        Ok((ending, behind)) => Ok((tested(alloc, expr, ending)?, behind)),
        Err(ParseFault::Syntax) => Ok((expr, rest)),
        Err(ParseFault::Deep) => unreachable!(),
        Err(ParseFault::OutOfMemory) => Err(ParseFault::OutOfMemory),
    }
}

/// A sum, perhaps compared with a second one.
#[cycle(expr)]
#[tactic(auto, unfolding(crate::specs::Machinery::Readers::comparison_of, gql_front::specs::Reading::suffix))]
fn comparison<'a>(alloc: Global, rest: &'a [Lexeme]) -> ParseResult<'a, Expr>
    ensures { ReadsAs tree_of result rest.now (comparison_of read_expr) }
{
    let (first, rest) = chain(alloc, Chain::Sum, rest)?;
    match second_side(alloc, rest) {
        Ok(((sign, second), behind)) => Ok((compare(alloc, sign, first, second)?, behind)),
        Err(ParseFault::Syntax) => Ok((first, rest)),
        Err(ParseFault::Deep) => unreachable!(),
        Err(ParseFault::OutOfMemory) => Err(ParseFault::OutOfMemory),
    }
}

/// A sign of comparison and a sum.
#[cycle(expr)]
#[tactic(auto, using(gql_front::proofs::Found::step_is))]
fn second_side<'a>(alloc: Global, rest: &'a [Lexeme]) -> ParseResult<'a, (Comparison, Expr)>
    ensures { ReadsAs (λ s. (s.0, tree_of s.1)) result rest.now (step comparison_op (sum_of read_expr) other_side) }
{
    let (sign, rest) = comparison_at(rest)?;
    let (expr, rest) = chain(alloc, Chain::Sum, rest)?;
    Ok(((sign, expr), rest))
}

/// An atom, or a sign and an atom.
#[cycle(expr)]
#[tactic(auto, unfolding(crate::specs::Machinery::Readers::signed_of, gql_front::specs::Reading::prefix))]
fn signed<'a>(alloc: Global, rest: &'a [Lexeme]) -> ParseResult<'a, Expr>
    ensures { ReadsAs tree_of result rest.now (signed_of read_expr) }
{
    if let Ok((sign, behind)) = sign_at(rest) {
        let (expr, behind) = atom(alloc, behind)?;
        return Ok((Expr::Signed(sign, Sub::new(alloc, expr)?), behind));
    }
    atom(alloc, rest)
}

#[cycle(expr)]
#[tactic(auto, unfolding(crate::specs::Machinery::Readers::atom_of))]
fn atom<'a>(alloc: Global, rest: &'a [Lexeme]) -> ParseResult<'a, Expr>
    ensures { ReadsAs tree_of result rest.now (atom_of read_expr) }
{
    match rest {
        [Lexeme::Number(digits), rest @ ..] => Ok((Expr::Number(digits.try_copy(alloc)?), rest)),
        [Lexeme::Chars(text), rest @ ..] => {
            Ok((Expr::Constant(Value::Text(text.try_copy(alloc)?)), rest))
        }
        [Lexeme::Param(name), rest @ ..] => Ok((Expr::Parameter(name.try_copy(alloc)?), rest)),
        [Lexeme::Name(name), rest @ ..] => named(alloc, name, rest),
        [Lexeme::Sign(OPENING), rest @ ..] => paren(alloc, rest),
        [Lexeme::Sign(OPENING_BRACKET), rest @ ..] => listing(alloc, rest),
        [Lexeme::Word { place, .. }, rest @ ..] => match atom_word(*place) {
            Some(word) => word_atom(alloc, word, rest),
            None => Err(ParseFault::Syntax),
        },
        _ => Err(ParseFault::Syntax),
    }
}

/// Behind a word that begins an atom.
#[cycle(expr)]
fn word_atom<'a>(alloc: Global, word: AtomWord, rest: &'a [Lexeme]) -> ParseResult<'a, Expr>
    ensures { MayReadAs tree_of result rest.now (word_atom_of read_expr word) }
{
    match word {
        AtomWord::True => Ok((Expr::Constant(Value::Bool(true)), rest)),
        AtomWord::False => Ok((Expr::Constant(Value::Bool(false)), rest)),
        AtomWord::Null => Ok((Expr::Constant(Value::Null), rest)),
        AtomWord::Unknown => Ok((Expr::Unknown, rest)),
        AtomWord::List => word_listing(alloc, rest),
        AtomWord::Aggregate(kind) => aggregate(alloc, kind, rest),
        AtomWord::Call(function) => call(alloc, function, rest),
        AtomWord::Mod => modulo(alloc, rest),
        AtomWord::Coalesce => coalesce(alloc, rest),
    }
}
