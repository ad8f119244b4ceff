//! The words behind IS and IS NOT.

ghost use Rattle.gql_exprs.specs.ExprWords.{test_words};

use gql_ast::{EdgeEnd, Quality};
use gql_front::WordTable;
use gql_lexer::words::{DESTINATION, DIRECTED, FALSE, LABELED, NULL, SOURCE, TRUE, UNKNOWN};

/// What a reserved word behind IS or IS NOT asks.
#[derive(Clone, Copy, Debug, PartialEq, Eq)]
pub enum TestWord {
    Quality(Quality),
    Labeled,
    /// SOURCE or DESTINATION, before OF.
    End(EdgeEnd),
}

/// The words behind IS and IS NOT.
pub struct TestWords;

impl WordTable for TestWords {
    type Says = TestWord;

    ghost words = { test_words };

    fn says(place: u32) -> Option<TestWord> {
        match place {
            NULL => Some(TestWord::Quality(Quality::Null)),
            TRUE => Some(TestWord::Quality(Quality::True)),
            FALSE => Some(TestWord::Quality(Quality::False)),
            UNKNOWN => Some(TestWord::Quality(Quality::Unknown)),
            DIRECTED => Some(TestWord::Quality(Quality::Directed)),
            LABELED => Some(TestWord::Labeled),
            SOURCE => Some(TestWord::End(EdgeEnd::Source)),
            DESTINATION => Some(TestWord::End(EdgeEnd::Destination)),
            _ => None,
        }
    }
}
