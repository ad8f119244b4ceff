//! The words that begin statements other than queries.

ghost use Rattle.gql_statements.specs.StatementWords.{statement_words};

use gql_front::WordTable;
use gql_lexer::words::{COMMIT, CREATE, DROP, ROLLBACK, SESSION, START};

/// What a reserved word at the front begins a statement of.
#[derive(Clone, Copy, Debug, PartialEq, Eq)]
pub enum StatementWord {
    Session,
    Start,
    Commit,
    Rollback,
    Create,
    Drop,
}

/// The words that begin statements other than queries.
pub struct StatementWords;

impl WordTable for StatementWords {
    type Says = StatementWord;

    ghost words = { statement_words };

    fn says(place: u32) -> Option<StatementWord> {
        match place {
            SESSION => Some(StatementWord::Session),
            START => Some(StatementWord::Start),
            COMMIT => Some(StatementWord::Commit),
            ROLLBACK => Some(StatementWord::Rollback),
            CREATE => Some(StatementWord::Create),
            DROP => Some(StatementWord::Drop),
            _ => None,
        }
    }
}
