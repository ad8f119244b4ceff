//! What a reader answers: what it read and the lexemes behind it, or why nothing.

use gql_ast::ParseFault;
use gql_lexer::Lexeme;

/// What was read at the front of some lexemes and the lexemes behind it, or the fault.
pub type ParseResult<'a, T> = Result<(T, &'a [Lexeme]), ParseFault>;

/// No front of the lexemes derives what was asked for. It is an error of its own, apart from want of memory, so that
/// a reader that takes no memory has exactly one error.
#[derive(Clone, Copy, Debug, PartialEq, Eq)]
pub struct NoFront;

impl From<NoFront> for ParseFault {
    ghost use Rattle.std.specs.Prelude.{◌≡◌};
    ghost use Rattle.gql_ast.specs.declared.parse_fault.ParseFault.TheVariants.{Syntax as NoDerivation};

    ghost from_gives = { λ _ e. e ≡ NoDerivation };

    fn from(_error: NoFront) -> ParseFault {
        ParseFault::Syntax
    }
}
