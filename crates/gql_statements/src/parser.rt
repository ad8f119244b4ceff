//! The top call: brackets that are too deep are refused, and a statement has to leave no lexeme.

ghost use Rattle.std.specs.Prelude.{◌≡◌, ◌^◌, ◌<◌, length, true, false, IfOk};
ghost use Rattle.gql_front.specs.Gives.{IsSyntax, IsDeep};
ghost use Rattle.gql_ast.specs.declared.statement.Statement.{Statement as Tree};
ghost use Rattle.gql_exprs.specs.Depth.{too_deep};
ghost use Rattle.gql_statements.specs.StatementGrammar.{Derives};

use crate::statement::statement;
use gql_ast::{ParseFault, Statement};
use gql_exprs::too_deep;
use gql_lexer::Lexeme;
use std::alloc::Global;

/// The statement that the lexemes as a whole derive. Reading takes time in proportion to the lexemes; brackets use the
/// stack, and are nested at most 64 deep.
pub fn parse(alloc: Global, lexemes: &[Lexeme]) -> Result<Statement, ParseFault>
    requires few { length lexemes.now < 2 ^ 32 }
    // They derive the statement, and brackets are not nested too deep.
    ensures derived { IfOk result (λ s. Derives lexemes.now s × (too_deep lexemes.now ≡ false)) }
    // Brackets are nested too deep.
    ensures deep { IsDeep result → too_deep lexemes.now ≡ true }
    // They are not nested too deep, and the lexemes derive no statement.
    ensures syntax { IsSyntax result → (too_deep lexemes.now ≡ false) × ((s : Tree) → Derives lexemes.now s → ⊥) }
{
    if too_deep(lexemes) {
        return Err(ParseFault::Deep);
    }
    match statement(alloc, lexemes) {
        Ok((statement, rest)) => {
            if rest.is_empty() {
                Ok(statement)
            } else {
                Err(ParseFault::Syntax)
            }
        }
        Err(fault) => Err(fault),
    }
}
