//! The chains of operators.

ghost use Rattle.std.specs.Prelude.{◌≡◌, ◌<◌, length, IfOk};
ghost use Rattle.gql_front.specs.Reading.{op_at};
ghost use Rattle.gql_front.specs.Reads.{Takes};
ghost use Rattle.gql_ast.specs.Meaning.{tree_of};
ghost use Rattle.gql_exprs.specs.Machinery.LeafReaders.{chain_or_side};
ghost use Rattle.gql_exprs.specs.Machinery.Readers.{operator_in, chain_tree};

use gql_ast::{Expr, Operator, Steps, Sub};
use gql_front::NoFront;
use gql_lexer::Lexeme;
use gql_lexer::symbols::{DOUBLE_BAR, MINUS, PLUS, SLASH, STAR};
use gql_lexer::words::{AND, OR, XOR};
use gql_values3::OutOfMemory;
use std::alloc::Global;

/// A chain of expressions with operators between them.
#[derive(Clone, Copy, Debug, PartialEq, Eq)]
pub enum Chain {
    /// Sides between OR and XOR.
    Or,
    /// Sides between AND.
    And,
    /// Sides between `+`, `-` and `||`.
    Sum,
    /// Sides between `*` and `/`.
    Product,
}

/// The operator of such a chain that the lexeme is.
fn operator_in(kind: Chain, lexeme: &Lexeme) -> Option<Operator>
    ensures { result ≡ operator_in kind lexeme.now }
{
    match (kind, lexeme) {
        (Chain::Or, Lexeme::Word { place: OR, .. }) => Some(Operator::Or),
        (Chain::Or, Lexeme::Word { place: XOR, .. }) => Some(Operator::Xor),
        (Chain::And, Lexeme::Word { place: AND, .. }) => Some(Operator::And),
        (Chain::Sum, Lexeme::Sign(PLUS)) => Some(Operator::Add),
        (Chain::Sum, Lexeme::Sign(MINUS)) => Some(Operator::Subtract),
        (Chain::Sum, Lexeme::Sign(DOUBLE_BAR)) => Some(Operator::Concatenate),
        (Chain::Product, Lexeme::Sign(STAR)) => Some(Operator::Multiply),
        (Chain::Product, Lexeme::Sign(SLASH)) => Some(Operator::Divide),
        _ => None,
    }
}

/// The operator at the front.
pub fn operator_at(kind: Chain, rest: &[Lexeme]) -> Result<(Operator, &[Lexeme]), NoFront>
    ensures { Takes result rest.now (op_at (operator_in kind)) }
{
    if let [lexeme, after @ ..] = rest {
        if let Some(operator) = operator_in(kind, lexeme) {
            return Ok((operator, after));
        }
    }
    Err(NoFront)
}

/// The only side of a chain, or the chain.
pub fn chain_or_side(
    alloc: Global,
    kind: Chain,
    first: Expr,
    steps: Steps,
) -> Result<Expr, OutOfMemory>
    ensures { IfOk result (λ e. tree_of e ≡ chain_or_side (chain_tree kind) (tree_of first) steps) }
{
    if steps.is_empty() {
        return Ok(first);
    }
    let first = Sub::new(alloc, first)?;
    Ok(match kind {
        Chain::Or => Expr::Or(first, steps),
        Chain::And => Expr::And(first, steps),
        Chain::Sum => Expr::Sum(first, steps),
        Chain::Product => Expr::Product(first, steps),
    })
}
