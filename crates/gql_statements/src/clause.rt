//! A clause of a query other than RETURN, by its first word.

ghost use Rattle.std.specs.Prelude.{◌≡◌, ◌<◌, length, IfOk};
ghost use Rattle.gql_front.specs.Reads.{Reads};
ghost use Rattle.gql_statements.specs.Machinery.ClauseReaders.{clause_behind};

use crate::change_word::change_behind;
use crate::clause_word::{ClauseWord, ClauseWords};
use crate::filter_clause::filter;
use crate::for_clause::for_items;
use crate::let_clause::let_items;
use crate::match_clause::{match_behind, optional_match};
use crate::page_clause::{limit_page, order_page, skip_page};
use gql_ast::Clause;
use gql_front::{ParseResult, word_at};
use gql_lexer::Lexeme;
use gql_parts::Item;
use std::alloc::Global;

/// The items of clauses.
#[derive(Clone, Copy)]
pub struct Clauses;

/// The clause at the front, other than RETURN.
impl Item<Clauses> for Clause {
    ghost use Rattle.gql_statements.specs.Machinery.ClauseReaders.{clause_of};

    ghost reader = { clause_of };

    #[tactic(auto, unfolding(crate::specs::Machinery::ClauseReaders::clause_of))]
    fn read<'a>(alloc: Global, rest: &'a [Lexeme]) -> ParseResult<'a, Clause> {
        let (word, rest) = word_at::<ClauseWords>(rest)?;
        clause_behind(alloc, word, rest)
    }
}

/// A clause behind its first word.
fn clause_behind<'a>(alloc: Global, word: ClauseWord, rest: &'a [Lexeme]) -> ParseResult<'a, Clause>
    ensures { Reads result rest.now (clause_behind word) }
{
    match word {
        ClauseWord::Match => {
            let (found, rest) = match_behind(alloc, false, rest)?;
            Ok((Clause::Match(found), rest))
        }
        ClauseWord::Optional => {
            let (found, rest) = optional_match(alloc, rest)?;
            Ok((Clause::Match(found), rest))
        }
        ClauseWord::Let => {
            let (items, rest) = let_items(alloc, rest)?;
            Ok((Clause::Let(items), rest))
        }
        ClauseWord::Filter => {
            let (expr, rest) = filter(alloc, rest)?;
            Ok((Clause::Filter(expr), rest))
        }
        ClauseWord::For => {
            let (found, rest) = for_items(alloc, rest)?;
            Ok((Clause::For(found), rest))
        }
        ClauseWord::Order => {
            let (page, rest) = order_page(alloc, rest)?;
            Ok((Clause::Page(page), rest))
        }
        ClauseWord::Skip => {
            let (page, rest) = skip_page(alloc, rest)?;
            Ok((Clause::Page(page), rest))
        }
        ClauseWord::Limit => {
            let (page, rest) = limit_page(alloc, rest)?;
            Ok((Clause::Page(page), rest))
        }
        ClauseWord::Change(word) => {
            let (change, rest) = change_behind(alloc, word, rest)?;
            Ok((Clause::Change(change), rest))
        }
    }
}
