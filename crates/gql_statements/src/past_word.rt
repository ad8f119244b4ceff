//! A word that may be missing.

ghost use Rattle.gql_front.specs.Reading.{is_word};
ghost use Rattle.gql_parts.specs.Machinery.PartReaders.{past};
ghost use Rattle.gql_front.specs.Reads.{LeftBehind};

use gql_front::{NoFront, after_word};
use gql_lexer::Lexeme;

/// The lexemes behind the reserved word of this place, or all.
pub fn past_word(word: u32, rest: &[Lexeme]) -> &[Lexeme]
    ensures { LeftBehind result rest.now (past (is_word word) rest.now) }
{
    match after_word(word, rest) {
        Ok(behind) => behind,
        Err(NoFront) => rest,
    }
}
