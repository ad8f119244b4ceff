//! Tables of reserved words, and reading by them.

ghost use Rattle.std.specs.Prelude.{◌≡◌, ℕ, List};
ghost use Rattle.gql_front.specs.Reading.{op_at};
ghost use Rattle.gql_front.specs.Reads.{Takes};
ghost use Rattle.gql_front.specs.Tables.{entry, word_in};

use crate::no_front::NoFront;
use gql_lexer::Lexeme;

/// A table of reserved words.
pub trait WordTable {
    /// What a word of it says.
    type Says;

    /// The place of each word, and what the word says.
    ghost words: { List (ℕ × Self.Says) };

    /// What the reserved word of the place says, if it is in the table.
    fn says(place: u32) -> Option<Self::Says>
        ensures { result ≡ entry words place };
}

/// What the word at the front says by a table, and the lexemes behind it.
pub fn word_at<W: WordTable>(rest: &[Lexeme]) -> Result<(W::Says, &[Lexeme]), NoFront>
    ensures { Takes result rest.now (op_at (word_in W.words)) }
{
    if let [Lexeme::Word { place, .. }, after @ ..] = rest {
        if let Some(word) = W::says(*place) {
            return Ok((word, after));
        }
    }
    Err(NoFront)
}
