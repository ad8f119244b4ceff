//! The recursion over path pattern expressions: a function a production, where the functions of the loops read any length.

ghost use Rattle.gql_front.specs.Reads.{ReadsAs, AlwaysReadsInMemory};
ghost use Rattle.gql_ast.specs.PatternMeaning.{pattern_of};
ghost use Rattle.gql_patterns.specs.Machinery.PathReaders.{node_pattern_of, closed_part_of, part_of, in_parentheses_of, primary_of, factor_of, factors_of, term_of, sides_of, read_path};

use crate::edge::edge;
use crate::mode::part_mode;
use crate::path_chain::{PathChain, chain_at, chain_or_side, row_or_part, symbol_of};
use crate::quantifier::{repeat_by, repetition_behind};
use gql_ast::{Mode, ParseFault, PathExpr, PathList, PathSub};
use gql_front::{ParseResult, after_sign};
use gql_lexer::Lexeme;
use gql_lexer::symbols::{CLOSING, OPENING};
use gql_parts::{filler, where_value};
use gql_values3::OutOfMemory;
use std::alloc::Global;

/// The longest front of the lexemes that derives a path pattern expression, and the lexemes behind it. `Syntax` comes
/// exactly where no front does. A chain or a row may be as long as memory allows; parentheses use the stack, so a caller
/// refuses lexemes that are too deep before.
#[cycle(path)]
#[tactic(auto, using(crate::proofs::PathLoops::path_is))]
pub fn path_expression<'a>(alloc: Global, rest: &'a [Lexeme]) -> ParseResult<'a, PathExpr>
    ensures { ReadsAs pattern_of result rest.now read_path }
{
    let (first, rest) = term(alloc, rest)?;
    let chain = chain_at(rest);
    let (others, rest) = sides(alloc, chain, rest)?;
    Ok((chain_or_side(alloc, chain, first, others)?, rest))
}

/// The further sides of a chain, each behind its symbol. A symbol that no side follows is left.
#[cycle(path)]
fn sides<'a>(
    alloc: Global,
    chain: PathChain,
    start: &'a [Lexeme],
) -> Result<(PathList, &'a [Lexeme]), OutOfMemory>
    ensures { AlwaysReadsInMemory result start.now (sides_of read_path chain start.now) }
{
    let mut others = PathList::new(alloc);
    let mut rest = start;
    'more: while let Ok(behind) = after_sign(symbol_of(chain), rest) {
        match term(alloc, behind) {
            Ok((expr, behind)) => {
                others.push(expr)?;
                rest = behind;
            }
            Err(ParseFault::Syntax) => return Ok((others, rest)),
            Err(ParseFault::Deep) => unreachable!(),
            Err(ParseFault::OutOfMemory) => return Err(OutOfMemory),
        }
    }
    Ok((others, rest))
}

/// Parts in a row, or the only one.
#[cycle(path)]
#[tactic(auto, using(crate::proofs::PathLoops::term_is))]
fn term<'a>(alloc: Global, rest: &'a [Lexeme]) -> ParseResult<'a, PathExpr>
    ensures { ReadsAs pattern_of result rest.now (term_of read_path) }
{
    let (first, rest) = factor(alloc, rest)?;
    let (others, rest) = factors(alloc, rest)?;
    Ok((row_or_part(alloc, first, others)?, rest))
}

/// The further parts of a row, as many as there are.
#[cycle(path)]
fn factors<'a>(alloc: Global, start: &'a [Lexeme]) -> Result<(PathList, &'a [Lexeme]), OutOfMemory>
    ensures { AlwaysReadsInMemory result start.now (factors_of read_path start.now) }
{
    let mut others = PathList::new(alloc);
    let mut rest = start;
    'more: loop {
        match factor(alloc, rest) {
            Ok((expr, behind)) => {
                others.push(expr)?;
                rest = behind;
            }
            Err(ParseFault::Syntax) => return Ok((others, rest)),
            Err(ParseFault::Deep) => unreachable!(),
            Err(ParseFault::OutOfMemory) => return Err(OutOfMemory),
        }
    }
}

/// An element or a part in parentheses, and how often it stands.
#[cycle(path)]
#[tactic(auto, unfolding(crate::specs::Machinery::PathReaders::factor_of, gql_front::specs::Reading::suffix))]
fn factor<'a>(alloc: Global, rest: &'a [Lexeme]) -> ParseResult<'a, PathExpr>
    ensures { ReadsAs pattern_of result rest.now (factor_of read_path) }
{
    let (expr, rest) = primary(alloc, rest)?;
    match repetition_behind(alloc, rest) {
        Ok((repetition, behind)) => Ok((repeat_by(alloc, expr, repetition)?, behind)),
        Err(ParseFault::Syntax) => Ok((expr, rest)),
        Err(ParseFault::Deep) => unreachable!(),
        Err(ParseFault::OutOfMemory) => Err(ParseFault::OutOfMemory),
    }
}

/// An element, or a part in parentheses.
#[cycle(path)]
#[tactic(auto, unfolding(crate::specs::Machinery::PathReaders::primary_of))]
fn primary<'a>(alloc: Global, rest: &'a [Lexeme]) -> ParseResult<'a, PathExpr>
    ensures { ReadsAs pattern_of result rest.now (primary_of read_path) }
{
    if let Ok(behind) = after_sign(OPENING, rest) {
        return in_parentheses(alloc, behind);
    }
    edge(alloc, rest)
}

/// A node or a part, behind the opening parenthesis. No front is both.
#[cycle(path)]
#[tactic(auto, unfolding(crate::specs::Machinery::PathReaders::in_parentheses_of, gql_front::specs::Reading::either))]
fn in_parentheses<'a>(alloc: Global, rest: &'a [Lexeme]) -> ParseResult<'a, PathExpr>
    ensures { ReadsAs pattern_of result rest.now (in_parentheses_of read_path) }
{
    match node(alloc, rest) {
        Ok((expr, behind)) => Ok((expr, behind)),
        Err(ParseFault::Syntax) => part(alloc, rest),
        Err(ParseFault::Deep) => unreachable!(),
        Err(ParseFault::OutOfMemory) => Err(ParseFault::OutOfMemory),
    }
}

/// A filler and the closing parenthesis.
#[tactic(auto, unfolding(crate::specs::Machinery::PathReaders::node_pattern_of))]
fn node<'a>(alloc: Global, rest: &'a [Lexeme]) -> ParseResult<'a, PathExpr>
    ensures { ReadsAs pattern_of result rest.now node_pattern_of }
{
    let (filler, rest) = filler(alloc, rest)?;
    let rest = after_sign(CLOSING, rest)?;
    Ok((PathExpr::Node(filler), rest))
}

/// A part, behind the opening parenthesis.
#[cycle(path)]
#[tactic(auto, unfolding(crate::specs::Machinery::PathReaders::part_of))]
fn part<'a>(alloc: Global, rest: &'a [Lexeme]) -> ParseResult<'a, PathExpr>
    ensures { ReadsAs pattern_of result rest.now (part_of read_path) }
{
    let (mode, rest) = part_mode(rest);
    closed_part(alloc, mode, rest)
}

/// The same behind its mode.
#[cycle(path)]
#[tactic(auto, unfolding(crate::specs::Machinery::PathReaders::closed_part_of))]
fn closed_part<'a>(
    alloc: Global,
    mode: Option<Mode>,
    rest: &'a [Lexeme],
) -> ParseResult<'a, PathExpr>
    ensures { ReadsAs pattern_of result rest.now (closed_part_of read_path mode) }
{
    let (expr, rest) = path_expression(alloc, rest)?;
    let (held, rest) = where_value(alloc, rest)?;
    let rest = after_sign(CLOSING, rest)?;
    let expr = PathSub::new(alloc, expr)?;
    Ok((PathExpr::Paren(mode, expr, held), rest))
}
