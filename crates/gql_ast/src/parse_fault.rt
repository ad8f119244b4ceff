//! Why no tree was read.

use gql_values3::OutOfMemory;

/// Why lexemes gave no tree.
#[derive(Clone, Copy, Debug, PartialEq, Eq)]
pub enum ParseFault {
    /// Brackets are nested more than 64 deep.
    Deep,
    /// Nothing derives the lexemes.
    Syntax,
    /// There is no memory for the tree.
    OutOfMemory,
}

impl From<OutOfMemory> for ParseFault {
    ghost use Rattle.std.specs.Prelude.{◌≡◌};
    ghost use Rattle.gql_ast.specs.declared.parse_fault.ParseFault.TheVariants.{OutOfMemory as NoMemory};

    ghost from_gives = { λ _ e. e ≡ NoMemory };

    fn from(_error: OutOfMemory) -> ParseFault {
        ParseFault::OutOfMemory
    }
}
