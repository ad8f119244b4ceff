//! The recursion over label expressions: a function a production, and a loop for the sides of a chain.

ghost use Rattle.std.specs.Prelude.{◌≡◌, IfOk};
ghost use Rattle.gql_front.specs.Reads.{ReadsAs, AlwaysReadsInMemory};
ghost use Rattle.gql_front.specs.Reading.{one_or};
ghost use Rattle.gql_ast.specs.LabelMeaning.{label_of};
ghost use Rattle.gql_exprs.specs.Machinery.LabelReaders.{paren_of, base_of, factor_of, symbol_of, chain_label, side_of, sides_of, chain_of, read_label};

use gql_ast::{LabelExpr, LabelList, LabelSub, ParseFault};
use gql_front::{ParseResult, after_sign};
use gql_lexer::{Lexeme, symbols};
use gql_values3::OutOfMemory;
use std::alloc::Global;

/// A chain of label expressions.
#[derive(Clone, Copy, Debug, PartialEq, Eq)]
enum LabelChain {
    /// Sides between `|`.
    Or,
    /// Sides between `&`, which binds more than `|`.
    And,
}

/// The longest front of the lexemes that derives a label expression, and the lexemes behind it. `Syntax` comes exactly
/// where no front does. A chain may be as long as memory allows; brackets use the stack, so a caller refuses lexemes
/// that are too deep before.
#[cycle(labels)]
#[tactic(auto, using(crate::proofs::LabelLevels::read_label_is))]
pub fn label_expression<'a>(alloc: Global, rest: &'a [Lexeme]) -> ParseResult<'a, LabelExpr>
    ensures { ReadsAs label_of result rest.now read_label }
{
    chain(alloc, LabelChain::Or, rest)
}

/// A chain, or its only side.
#[cycle(labels)]
#[tactic(auto, using(crate::proofs::LabelChains::chain_is))]
fn chain<'a>(alloc: Global, kind: LabelChain, rest: &'a [Lexeme]) -> ParseResult<'a, LabelExpr>
    ensures { ReadsAs label_of result rest.now (chain_of kind read_label) }
{
    let (first, rest) = side(alloc, kind, rest)?;
    let (others, rest) = sides(alloc, kind, rest)?;
    Ok((node(alloc, kind, first, others)?, rest))
}

/// A side of a chain.
#[cycle(labels)]
fn side<'a>(alloc: Global, kind: LabelChain, rest: &'a [Lexeme]) -> ParseResult<'a, LabelExpr>
    ensures { ReadsAs label_of result rest.now (side_of kind read_label) }
{
    match kind {
        LabelChain::Or => chain(alloc, LabelChain::And, rest),
        LabelChain::And => factor(alloc, rest),
    }
}

/// The further sides of a chain, each behind its symbol. A symbol that no side follows is left.
#[cycle(labels)]
fn sides<'a>(
    alloc: Global,
    kind: LabelChain,
    start: &'a [Lexeme],
) -> Result<(LabelList, &'a [Lexeme]), OutOfMemory>
    ensures { AlwaysReadsInMemory result start.now (sides_of kind read_label start.now) }
{
    let mut others = LabelList::new(alloc);
    let mut rest = start;
    'more: while let Ok(behind) = after_sign(symbol_of(kind), rest) {
        match side(alloc, kind, behind) {
            Ok((expr, behind)) => {
                others.push(expr)?;
                rest = behind;
            }
            Err(ParseFault::Syntax) => return Ok((others, rest)),
            Err(ParseFault::Deep) => unreachable!(),
            Err(ParseFault::OutOfMemory) => return Err(OutOfMemory),
        }
    }
    Ok((others, rest))
}

/// A base, or `!` and a base.
#[cycle(labels)]
#[tactic(auto, unfolding(crate::specs::Machinery::LabelReaders::factor_of, gql_front::specs::Reading::prefix))]
fn factor<'a>(alloc: Global, rest: &'a [Lexeme]) -> ParseResult<'a, LabelExpr>
    ensures { ReadsAs label_of result rest.now (factor_of read_label) }
{
    match rest {
        [Lexeme::Sign(symbols::BANG), rest @ ..] => {
            let (expr, rest) = base(alloc, rest)?;
            Ok((LabelExpr::Not(LabelSub::new(alloc, expr)?), rest))
        }
        _ => base(alloc, rest),
    }
}

/// A label, `%`, or a label expression in parentheses.
#[cycle(labels)]
#[tactic(auto, unfolding(crate::specs::Machinery::LabelReaders::base_of))]
fn base<'a>(alloc: Global, rest: &'a [Lexeme]) -> ParseResult<'a, LabelExpr>
    ensures { ReadsAs label_of result rest.now (base_of read_label) }
{
    match rest {
        [Lexeme::Name(text), rest @ ..] => Ok((LabelExpr::Name(text.try_copy(alloc)?), rest)),
        [Lexeme::Word { written, .. }, rest @ ..] => {
            Ok((LabelExpr::Name(written.try_copy(alloc)?), rest))
        }
        [Lexeme::Sign(symbols::PERCENT), rest @ ..] => Ok((LabelExpr::Wildcard, rest)),
        [Lexeme::Sign(symbols::OPENING), rest @ ..] => paren(alloc, rest),
        _ => Err(ParseFault::Syntax),
    }
}

/// A label expression in parentheses, behind the opening one.
#[cycle(labels)]
#[tactic(auto, unfolding(crate::specs::Machinery::LabelReaders::paren_of))]
fn paren<'a>(alloc: Global, rest: &'a [Lexeme]) -> ParseResult<'a, LabelExpr>
    ensures { ReadsAs label_of result rest.now (paren_of read_label) }
{
    let (expr, rest) = label_expression(alloc, rest)?;
    let rest = after_sign(symbols::CLOSING, rest)?;
    Ok((LabelExpr::Paren(LabelSub::new(alloc, expr)?), rest))
}

/// The symbol between the sides of a chain.
fn symbol_of(kind: LabelChain) -> u32
    ensures { result ≡ symbol_of kind }
{
    match kind {
        LabelChain::Or => symbols::BAR,
        LabelChain::And => symbols::AMPERSAND,
    }
}

/// The only side of a chain, or the chain.
fn node(
    alloc: Global,
    kind: LabelChain,
    first: LabelExpr,
    others: LabelList,
) -> Result<LabelExpr, OutOfMemory>
    ensures { IfOk result (λ e. label_of e ≡ one_or (chain_label kind) (label_of first) others) }
{
    if others.is_empty() {
        return Ok(first);
    }
    let first = LabelSub::new(alloc, first)?;
    Ok(match kind {
        LabelChain::Or => LabelExpr::Or(first, others),
        LabelChain::And => LabelExpr::And(first, others),
    })
}
