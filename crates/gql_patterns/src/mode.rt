//! Path modes, and the words PATH and PATHS behind them.

ghost use Rattle.std.specs.Prelude.{◌≡◌};
ghost use Rattle.gql_front.specs.Reads.{Takes, AlwaysReads, LeftBehind};
ghost use Rattle.gql_patterns.specs.PatternWords.{mode_words};
ghost use Rattle.gql_patterns.specs.Machinery.PrefixReaders.{past_path_word, mode_of, part_mode_of, mode_behind};

use gql_ast::Mode;
use gql_front::{NoFront, WordTable, word_at};
use gql_lexer::Lexeme;
use gql_lexer::words::{ACYCLIC, PATH, PATHS, SIMPLE, TRAIL, WALK};

/// The words that say a mode.
struct ModeWords;

impl WordTable for ModeWords {
    type Says = Mode;

    ghost words = { mode_words };

    fn says(place: u32) -> Option<Mode> {
        match place {
            WALK => Some(Mode::Walk),
            TRAIL => Some(Mode::Trail),
            ACYCLIC => Some(Mode::Acyclic),
            SIMPLE => Some(Mode::Simple),
            _ => None,
        }
    }
}

/// What is behind PATH or PATHS, or all where neither stands.
pub fn past_path_word(rest: &[Lexeme]) -> &[Lexeme]
    ensures { LeftBehind result rest.now (past_path_word rest.now) }
{
    match rest {
        [Lexeme::Word { place: PATH, .. }, rest @ ..] => rest,
        [Lexeme::Word { place: PATHS, .. }, rest @ ..] => rest,
        _ => rest,
    }
}

/// A mode, and PATH or PATHS where one of them is there.
#[tactic(auto, unfolding(crate::specs::Machinery::PrefixReaders::mode_of))]
fn mode(rest: &[Lexeme]) -> Result<(Mode, &[Lexeme]), NoFront>
    ensures { Takes result rest.now mode_of }
{
    let (mode, rest) = word_at::<ModeWords>(rest)?;
    Ok((mode, past_path_word(rest)))
}

/// The mode of a part in parentheses, or nothing.
#[tactic(auto, unfolding(crate::specs::Machinery::PrefixReaders::part_mode_of))]
pub fn part_mode(rest: &[Lexeme]) -> (Option<Mode>, &[Lexeme])
    ensures { AlwaysReads result rest.now (part_mode_of rest.now) }
{
    match mode(rest) {
        Ok((mode, behind)) => (Some(mode), behind),
        Err(NoFront) => (None, rest),
    }
}

/// The mode behind the words of a selector, or nothing, and PATH or PATHS where one of them is there.
#[tactic(auto, unfolding(crate::specs::Machinery::PrefixReaders::mode_behind))]
pub fn mode_behind(rest: &[Lexeme]) -> (Option<Mode>, &[Lexeme])
    ensures { AlwaysReads result rest.now (mode_behind rest.now) }
{
    match word_at::<ModeWords>(rest) {
        Ok((mode, behind)) => (Some(mode), past_path_word(behind)),
        Err(NoFront) => (None, past_path_word(rest)),
    }
}
