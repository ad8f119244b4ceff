//! Expressions in brackets: parentheses, lists, and the arguments of aggregates and functions.

ghost use Rattle.std.specs.Prelude.{◌≡◌, ◌<◌, ◌≤◌, length, IfOk};
ghost use Rattle.gql_front.specs.Reads.{Reads, ReadsAs};
ghost use Rattle.gql_ast.specs.Meaning.{tree_of};
ghost use Rattle.gql_exprs.specs.Machinery.Readers.{closed_of, paren_of, list_of, listing_of, word_listing_of, aggregate_of, call_of, expr_before_comma_of, modulo_of, coalesce_of, read_expr};

use crate::leaves::{quantifier_of, star_of};
use crate::levels::expression;
use crate::nodes::remainder;
use gql_ast::{Aggregate, Expr, Exprs, Function, ParseFault, Sub};
use gql_front::{ParseResult, after_sign};
use gql_lexer::Lexeme;
use gql_lexer::symbols::{CLOSING, CLOSING_BRACKET, COMMA, OPENING, OPENING_BRACKET};
use std::alloc::Global;

/// An expression and a closing parenthesis.
#[cycle(expr)]
#[tactic(auto, unfolding(crate::specs::Machinery::Readers::closed_of))]
fn closed<'a>(alloc: Global, rest: &'a [Lexeme]) -> ParseResult<'a, Expr>
    ensures { ReadsAs tree_of result rest.now (closed_of read_expr) }
{
    let (expr, rest) = expression(alloc, rest)?;
    let rest = after_sign(CLOSING, rest)?;
    Ok((expr, rest))
}

/// An expression in parentheses, behind the opening one.
#[cycle(expr)]
#[tactic(auto, unfolding(crate::specs::Machinery::Readers::paren_of))]
pub fn paren<'a>(alloc: Global, rest: &'a [Lexeme]) -> ParseResult<'a, Expr>
    ensures { ReadsAs tree_of result rest.now (paren_of read_expr) }
{
    let (expr, rest) = closed(alloc, rest)?;
    Ok((Expr::Paren(Sub::new(alloc, expr)?), rest))
}

/// Expressions between commas. A comma that no expression follows is left.
#[cycle(expr)]
#[tactic(auto, unfolding(crate::specs::Machinery::Readers::list_of, gql_front::specs::Reading::sequence))]
fn list<'a>(alloc: Global, start: &'a [Lexeme]) -> ParseResult<'a, Exprs>
    ensures { Reads result start.now (list_of read_expr) }
{
    let (first, mut rest) = expression(alloc, start)?;
    let mut exprs = Exprs::new(alloc);
    exprs.push(first)?;
    'more: while let Ok(behind) = after_sign(COMMA, rest) {
        match expression(alloc, behind) {
            Ok((expr, behind)) => {
                exprs.push(expr)?;
                rest = behind;
            }
            Err(ParseFault::Syntax) => return Ok((exprs, rest)),
            Err(ParseFault::Deep) => unreachable!(),
            Err(ParseFault::OutOfMemory) => return Err(ParseFault::OutOfMemory),
        }
    }
    Ok((exprs, rest))
}

/// The items of a list and a closing bracket.
#[cycle(expr)]
#[tactic(auto, unfolding(crate::specs::Machinery::Readers::listing_of))]
pub fn listing<'a>(alloc: Global, rest: &'a [Lexeme]) -> ParseResult<'a, Expr>
    ensures { ReadsAs tree_of result rest.now (listing_of read_expr) }
{
    if let Ok(rest) = after_sign(CLOSING_BRACKET, rest) {
        return Ok((Expr::List(Exprs::new(alloc)), rest));
    }
    let (exprs, rest) = list(alloc, rest)?;
    let rest = after_sign(CLOSING_BRACKET, rest)?;
    Ok((Expr::List(exprs), rest))
}

/// A list, behind LIST.
#[cycle(expr)]
#[tactic(auto, unfolding(crate::specs::Machinery::Readers::word_listing_of))]
pub fn word_listing<'a>(alloc: Global, rest: &'a [Lexeme]) -> ParseResult<'a, Expr>
    ensures { ReadsAs tree_of result rest.now (word_listing_of read_expr) }
{
    let rest = after_sign(OPENING_BRACKET, rest)?;
    listing(alloc, rest)
}

/// What is aggregated, in parentheses, behind the word of the aggregate.
#[cycle(expr)]
#[tactic(auto, unfolding(crate::specs::Machinery::Readers::aggregate_of))]
pub fn aggregate<'a>(alloc: Global, kind: Aggregate, rest: &'a [Lexeme]) -> ParseResult<'a, Expr>
    ensures { ReadsAs tree_of result rest.now (aggregate_of read_expr kind) }
{
    let rest = after_sign(OPENING, rest)?;
    if let Ok(rest) = star_of(kind, rest) {
        let rest = after_sign(CLOSING, rest)?;
        return Ok((Expr::CountAll, rest));
    }
    let (quantifier, rest) = quantifier_of(rest);
    let (expr, rest) = closed(alloc, rest)?;
    let item = Sub::new(alloc, expr)?;
    Ok((Expr::Aggregate(kind, quantifier, item), rest))
}

/// The argument of a function of one, in parentheses.
#[cycle(expr)]
#[tactic(auto, unfolding(crate::specs::Machinery::Readers::call_of))]
pub fn call<'a>(alloc: Global, function: Function, rest: &'a [Lexeme]) -> ParseResult<'a, Expr>
    ensures { ReadsAs tree_of result rest.now (call_of read_expr function) }
{
    let rest = after_sign(OPENING, rest)?;
    let (expr, rest) = closed(alloc, rest)?;
    Ok((Expr::Call(function, Sub::new(alloc, expr)?), rest))
}

/// An opening parenthesis, the first of several arguments, and a comma.
#[cycle(expr)]
#[tactic(auto, unfolding(crate::specs::Machinery::Readers::expr_before_comma_of))]
fn expr_before_comma<'a>(alloc: Global, rest: &'a [Lexeme]) -> ParseResult<'a, Expr>
    ensures { ReadsAs tree_of result rest.now (expr_before_comma_of read_expr) }
{
    let rest = after_sign(OPENING, rest)?;
    let (expr, rest) = expression(alloc, rest)?;
    let rest = after_sign(COMMA, rest)?;
    Ok((expr, rest))
}

/// The two arguments of MOD, in parentheses.
#[cycle(expr)]
#[tactic(auto, unfolding(crate::specs::Machinery::Readers::modulo_of))]
pub fn modulo<'a>(alloc: Global, rest: &'a [Lexeme]) -> ParseResult<'a, Expr>
    ensures { ReadsAs tree_of result rest.now (modulo_of read_expr) }
{
    let (dividend, rest) = expr_before_comma(alloc, rest)?;
    let (divisor, rest) = closed(alloc, rest)?;
    Ok((remainder(alloc, dividend, divisor)?, rest))
}

/// The arguments of COALESCE, in parentheses.
#[cycle(expr)]
#[tactic(auto, unfolding(crate::specs::Machinery::Readers::coalesce_of))]
pub fn coalesce<'a>(alloc: Global, rest: &'a [Lexeme]) -> ParseResult<'a, Expr>
    ensures { ReadsAs tree_of result rest.now (coalesce_of read_expr) }
{
    let (head, rest) = expr_before_comma(alloc, rest)?;
    let (others, rest) = list(alloc, rest)?;
    let rest = after_sign(CLOSING, rest)?;
    Ok((Expr::Coalesce(Sub::new(alloc, head)?, others), rest))
}
