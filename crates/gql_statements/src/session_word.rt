//! The words behind SESSION.

ghost use Rattle.gql_statements.specs.SessionWords.{session_words};

use gql_front::WordTable;
use gql_lexer::words::{CLOSE, RESET, SET};

/// What a reserved word behind SESSION says.
#[derive(Clone, Copy, Debug, PartialEq, Eq)]
pub enum SessionWord {
    Set,
    Reset,
    Close,
}

/// The words behind SESSION.
pub struct SessionWords;

impl WordTable for SessionWords {
    type Says = SessionWord;

    ghost words = { session_words };

    fn says(place: u32) -> Option<SessionWord> {
        match place {
            SET => Some(SessionWord::Set),
            RESET => Some(SessionWord::Reset),
            CLOSE => Some(SessionWord::Close),
            _ => None,
        }
    }
}
