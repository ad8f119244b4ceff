//! The prefix of a path pattern: its mode, or which of the paths are kept.

ghost use Rattle.gql_front.specs.Reads.{Reads, MayRead, GoesPast, AlwaysReads};
ghost use Rattle.gql_patterns.specs.PatternWords.{is_group_word};
ghost use Rattle.gql_patterns.specs.Machinery.PrefixReaders.{all_of, any_of, shortest_of, prefix_behind, prefix_of};

use crate::mode::{mode_behind, past_path_word};
use crate::prefix_word::{PrefixWord, PrefixWords};
use crate::quantifier::number;
use gql_ast::{ParseFault, Prefix};
use gql_front::{NoFront, ParseResult, after_word, word_at};
use gql_lexer::Lexeme;
use gql_lexer::words::{GROUP, GROUPS, SHORTEST};
use std::alloc::Global;

/// The prefix at the front.
#[tactic(auto, unfolding(crate::specs::Machinery::PrefixReaders::prefix_of))]
pub fn prefix<'a>(alloc: Global, rest: &'a [Lexeme]) -> ParseResult<'a, Prefix>
    ensures { Reads result rest.now prefix_of }
{
    let (word, rest) = word_at::<PrefixWords>(rest)?;
    prefix_behind(alloc, word, rest)
}

/// Behind its first word.
fn prefix_behind<'a>(alloc: Global, word: PrefixWord, rest: &'a [Lexeme]) -> ParseResult<'a, Prefix>
    ensures { MayRead result rest.now (prefix_behind word) }
{
    match word {
        PrefixWord::Mode(mode) => Ok((Prefix::Mode(mode), past_path_word(rest))),
        PrefixWord::All => Ok(behind_all(rest)),
        PrefixWord::Any => behind_any(alloc, rest),
        PrefixWord::Shortest => behind_shortest(alloc, rest),
    }
}

fn behind_all(rest: &[Lexeme]) -> (Prefix, &[Lexeme])
    ensures { AlwaysReads result rest.now (all_of rest.now) }
{
    match after_word(SHORTEST, rest) {
        Ok(behind) => {
            let (mode, rest) = mode_behind(behind);
            (Prefix::AllShortest(mode), rest)
        }
        Err(NoFront) => {
            let (mode, rest) = mode_behind(rest);
            (Prefix::All(mode), rest)
        }
    }
}

fn behind_any<'a>(alloc: Global, rest: &'a [Lexeme]) -> ParseResult<'a, Prefix>
    ensures { MayRead result rest.now any_of }
{
    if let Ok(behind) = after_word(SHORTEST, rest) {
        let (mode, rest) = mode_behind(behind);
        return Ok((Prefix::AnyShortest(mode), rest));
    }
    let (count, rest) = number(alloc, rest)?;
    let (mode, rest) = mode_behind(rest);
    Ok((Prefix::Any(count, mode), rest))
}

/// A number or GROUP is needed behind SHORTEST.
#[tactic(auto, unfolding(crate::specs::Machinery::PrefixReaders::shortest_of))]
fn behind_shortest<'a>(alloc: Global, rest: &'a [Lexeme]) -> ParseResult<'a, Prefix>
    ensures { MayRead result rest.now shortest_of }
{
    let (count, rest) = number(alloc, rest)?;
    let (mode, rest) = mode_behind(rest);
    if let Ok(behind) = after_group_word(rest) {
        return Ok((Prefix::ShortestGroups(count, mode), behind));
    }
    match count {
        Some(count) => Ok((Prefix::Shortest(count, mode), rest)),
        None => Err(ParseFault::Syntax),
    }
}

/// What is behind GROUP or GROUPS.
fn after_group_word(rest: &[Lexeme]) -> Result<&[Lexeme], NoFront>
    ensures { GoesPast result rest.now is_group_word }
{
    match rest {
        [Lexeme::Word { place: GROUP, .. }, rest @ ..] => Ok(rest),
        [Lexeme::Word { place: GROUPS, .. }, rest @ ..] => Ok(rest),
        _ => Err(NoFront),
    }
}
