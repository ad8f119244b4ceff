//! How a piece reads.
ghost use Rattle.std.specs.Prelude.{◌≡◌, ℕ, ◌<◌, ◌^◌, List, length, IfOk, Some};
ghost use Rattle.gql_lexer.specs.Lexemes.{lexemes_of};
ghost use Rattle.gql_machine.specs.Reading.{ReadsAs};
ghost use Rattle.gql_machine.specs.Machinery.Meaning.{reading_of};

use gql_ast::{ParseFault, Statement};
use gql_lexer::{LexFault, Lexeme, lexemes};
use gql_statements::parse;
use gql_values3::OutOfMemory;
use std::alloc::Global;

/// How a piece reads.
#[derive(Drop)]
pub enum Read {
    /// There are no lexemes.
    Blank,
    /// A lexeme is bad.
    Bad,
    /// Brackets are nested too deep.
    Deep,
    /// No statement is derived.
    Unread,
    /// This statement is derived.
    Statement(Statement),
}

/// How the piece reads. Takes time in proportion to the piece.
pub fn read_piece(alloc: Global, piece: &[u8]) -> Result<Read, OutOfMemory>
    requires { length piece.now < 2 ^ 32 }
    ensures { IfOk result (λ read. ReadsAs piece.now (reading_of read)) }
{
    match lexemes(alloc, piece) {
        Ok(found) => read_lexemes(alloc, found.as_slice()),
        Err(LexFault::Bad) => Ok(Read::Bad),
        Err(LexFault::OutOfMemory) => Err(OutOfMemory),
    }
}

/// How a piece of these lexemes reads.
fn read_lexemes(alloc: Global, lexemes: &[Lexeme]) -> Result<Read, OutOfMemory>
    requires { length lexemes.now < 2 ^ 32 }
    ensures { (piece : List ℕ) → lexemes_of piece ≡ Some lexemes.now → IfOk result (λ read. ReadsAs piece (reading_of read)) }
{
    if lexemes.is_empty() {
        return Ok(Read::Blank);
    }
    match parse(alloc, lexemes) {
        Ok(statement) => Ok(Read::Statement(statement)),
        Err(ParseFault::Deep) => Ok(Read::Deep),
        Err(ParseFault::Syntax) => Ok(Read::Unread),
        Err(ParseFault::OutOfMemory) => Err(OutOfMemory),
    }
}
