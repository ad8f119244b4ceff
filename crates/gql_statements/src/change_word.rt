//! The words that begin a change, and what stands behind them.

ghost use Rattle.std.specs.Prelude.{◌≡◌, ◌<◌, length, IfOk};
ghost use Rattle.gql_front.specs.Reads.{Reads};
ghost use Rattle.gql_statements.specs.Machinery.ChangeReaders.{change_behind};

use crate::delete_clause::{delete, delete_behind};
use crate::insert_clause::insert_paths;
use crate::remove_clause::remove_items;
use crate::set_clause::set_items;
use gql_ast::{ChangeClause, Detachment, ParseFault};
use gql_front::ParseResult;
use gql_lexer::Lexeme;
use std::alloc::Global;

/// What a reserved word at the front begins a change of.
#[derive(Clone, Copy, Debug, PartialEq, Eq)]
pub enum ChangeWord {
    Insert,
    Set,
    Remove,
    Delete,
    /// DETACH or NODETACH, before DELETE.
    Detaching(Detachment),
}

/// A change behind its first word.
pub fn change_behind<'a>(
    alloc: Global,
    word: ChangeWord,
    rest: &'a [Lexeme],
) -> ParseResult<'a, ChangeClause>
    ensures { Reads result rest.now (change_behind word) }
{
    match word {
        ChangeWord::Insert => {
            let (paths, rest) = insert_paths(alloc, rest)?;
            Ok((ChangeClause::Insert(paths), rest))
        }
        ChangeWord::Set => {
            let (items, rest) = set_items(alloc, rest)?;
            Ok((ChangeClause::Set(items), rest))
        }
        ChangeWord::Remove => {
            let (items, rest) = remove_items(alloc, rest)?;
            Ok((ChangeClause::Remove(items), rest))
        }
        ChangeWord::Delete => delete(alloc, Detachment::NoDetach, rest),
        ChangeWord::Detaching(detachment) => delete_behind(alloc, detachment, rest),
    }
}
