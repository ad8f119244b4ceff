//! The words that begin a prefix, and numbers.

ghost use Rattle.gql_patterns.specs.PatternWords.{prefix_words};

use gql_ast::Mode;
use gql_front::WordTable;
use gql_lexer::words::{ACYCLIC, ALL, ANY, SHORTEST, SIMPLE, TRAIL, WALK};

/// What the first word of a prefix says.
#[derive(Clone, Copy, Debug, PartialEq, Eq)]
pub enum PrefixWord {
    All,
    Any,
    Shortest,
    Mode(Mode),
}

/// The words that begin a prefix.
pub struct PrefixWords;

impl WordTable for PrefixWords {
    type Says = PrefixWord;

    ghost words = { prefix_words };

    fn says(place: u32) -> Option<PrefixWord> {
        match place {
            ALL => Some(PrefixWord::All),
            ANY => Some(PrefixWord::Any),
            SHORTEST => Some(PrefixWord::Shortest),
            WALK => Some(PrefixWord::Mode(Mode::Walk)),
            TRAIL => Some(PrefixWord::Mode(Mode::Trail)),
            ACYCLIC => Some(PrefixWord::Mode(Mode::Acyclic)),
            SIMPLE => Some(PrefixWord::Mode(Mode::Simple)),
            _ => None,
        }
    }
}
