//! The words that begin a clause.

ghost use Rattle.gql_statements.specs.ClauseWords.{clause_words};

use crate::change_word::ChangeWord;
use gql_ast::Detachment;
use gql_front::WordTable;
use gql_lexer::words::{
    DELETE, DETACH, FILTER, FOR, INSERT, LET, LIMIT, MATCH, NODETACH, OFFSET, OPTIONAL, ORDER,
    REMOVE, SET, SKIP,
};

/// What a reserved word at the front begins a clause of.
#[derive(Clone, Copy, Debug, PartialEq, Eq)]
pub enum ClauseWord {
    Match,
    /// OPTIONAL, before MATCH.
    Optional,
    Let,
    Filter,
    For,
    Order,
    /// OFFSET or SKIP.
    Skip,
    Limit,
    Change(ChangeWord),
}

/// The words that begin a clause.
pub struct ClauseWords;

impl WordTable for ClauseWords {
    type Says = ClauseWord;

    ghost words = { clause_words };

    fn says(place: u32) -> Option<ClauseWord> {
        match place {
            MATCH => Some(ClauseWord::Match),
            OPTIONAL => Some(ClauseWord::Optional),
            LET => Some(ClauseWord::Let),
            FILTER => Some(ClauseWord::Filter),
            FOR => Some(ClauseWord::For),
            ORDER => Some(ClauseWord::Order),
            OFFSET => Some(ClauseWord::Skip),
            SKIP => Some(ClauseWord::Skip),
            LIMIT => Some(ClauseWord::Limit),
            INSERT => Some(ClauseWord::Change(ChangeWord::Insert)),
            SET => Some(ClauseWord::Change(ChangeWord::Set)),
            REMOVE => Some(ClauseWord::Change(ChangeWord::Remove)),
            DELETE => Some(ClauseWord::Change(ChangeWord::Delete)),
            DETACH => Some(ClauseWord::Change(ChangeWord::Detaching(Detachment::Detach))),
            NODETACH => Some(ClauseWord::Change(ChangeWord::Detaching(Detachment::NoDetach))),
            _ => None,
        }
    }
}
