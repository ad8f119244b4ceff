//! The top call: an expression from a place in the lexemes on.

ghost use Rattle.std.specs.Prelude.{◌≡◌, ℕ, ◌^◌, ◌<◌, ◌≤◌, ◌⊎◌, length, false, IfOk};
ghost use Rattle.gql_front.specs.Gives.{IsSyntax, IsDeep};
ghost use Rattle.gql_ast.specs.Tree.{Tree};
ghost use Rattle.gql_ast.specs.Meaning.{tree_of};
ghost use Rattle.gql_exprs.specs.Depth.{too_deep};
ghost use Rattle.gql_exprs.specs.Grammar.{IsFront};

use crate::levels::expression;
use gql_ast::{Expr, ParseFault};
use gql_front::from_place;
use gql_lexer::Lexeme;
use std::alloc::Global;

/// The longest front of the lexemes from a place on that derives an expression, and the place behind it. Places count
/// from 0; want of memory is the one other answer. The caller refuses lexemes that are too deep before.
pub fn parse_expr(alloc: Global, lexemes: &[Lexeme], at: u32) -> Result<(Expr, u32), ParseFault>
    requires few { length lexemes.now < 2 ^ 32 }
    requires at { at ≤ length lexemes.now }
    requires shallow { too_deep lexemes.now ≡ false }
    // It derives the expression.
    ensures found { IfOk result (λ x. IsFront lexemes.now at x.1 (tree_of x.0)) }
    // No longer front derives one, and this front derives no other.
    ensures longest { IfOk result (λ x. (j : ℕ) (y : Tree) → IsFront lexemes.now at j y → (j < x.1) ⊎ ((j ≡ x.1) × (y ≡ tree_of x.0))) }
    // No front derives one.
    ensures syntax { IsSyntax result → (j : ℕ) (y : Tree) → IsFront lexemes.now at j y → ⊥ }
    // Lexemes are not too deep.
    ensures not_deep { IsDeep result → ⊥ }
{
    let rest = from_place(lexemes, at);
    match expression(alloc, rest) {
        Ok((expr, behind)) => Ok((expr, (lexemes.len() - behind.len()) as u32)),
        Err(fault) => Err(fault),
    }
}
