//! Expressions and label expressions as parts.

ghost use Rattle.gql_front.specs.Reads.{Reads};
ghost use Rattle.gql_parts.specs.Machinery.PartReaders.{read_value, read_labels, value_behind};

use crate::item::Item;
use gql_ast::{Expr, LabelExpr};
use gql_exprs::{expression, label_expression};
use gql_front::{ParseResult, after_sign};
use gql_lexer::Lexeme;
use gql_values3::Text;
use std::alloc::Global;

/// The parts of this crate, as items.
#[derive(Clone, Copy)]
pub struct Parts;

/// The expression at the front.
#[tactic(auto, unfolding(crate::specs::Machinery::PartReaders::read_value), using(crate::proofs::ValueLaws::value_is))]
pub fn value<'a>(alloc: Global, rest: &'a [Lexeme]) -> ParseResult<'a, Expr>
    ensures { Reads result rest.now read_value }
{
    let (expr, rest) = expression(alloc, rest)?;
    Ok((expr, rest))
}

/// The name that stood in front, and the expression behind this symbol, whose value it gets.
pub fn named_value<'a>(
    alloc: Global,
    name: &Text,
    sign: u32,
    rest: &'a [Lexeme],
) -> ParseResult<'a, (Text, Expr)>
    ensures { Reads result rest.now (value_behind sign name.now) }
{
    let rest = after_sign(sign, rest)?;
    let name = name.try_copy(alloc)?;
    let (value, rest) = value(alloc, rest)?;
    Ok(((name, value), rest))
}

/// The label expression at the front.
#[tactic(auto, unfolding(crate::specs::Machinery::PartReaders::read_labels), using(crate::proofs::ValueLaws::labels_are))]
pub fn labels<'a>(alloc: Global, rest: &'a [Lexeme]) -> ParseResult<'a, LabelExpr>
    ensures { Reads result rest.now read_labels }
{
    let (labels, rest) = label_expression(alloc, rest)?;
    Ok((labels, rest))
}

impl Item<Parts> for Expr {
    ghost use Rattle.gql_parts.specs.Machinery.PartReaders.{read_value};

    ghost reader = { read_value };

    fn read<'a>(alloc: Global, rest: &'a [Lexeme]) -> ParseResult<'a, Expr> {
        value(alloc, rest)
    }
}

impl Item<Parts> for LabelExpr {
    ghost use Rattle.gql_parts.specs.Machinery.PartReaders.{read_labels};

    ghost reader = { read_labels };

    fn read<'a>(alloc: Global, rest: &'a [Lexeme]) -> ParseResult<'a, LabelExpr> {
        labels(alloc, rest)
    }
}
