//! Statements: by the first word one on the session, on transactions, on graphs or graph types, else a query.

ghost use Rattle.std.specs.Prelude.{◌≡◌, ◌<◌, ◌≤◌, length, IfOk};
ghost use Rattle.gql_front.specs.Reads.{Reads, MayRead};
ghost use Rattle.gql_statements.specs.Machinery.StatementReaders.{statement_behind, statement_of};

use crate::catalog::{create, drop_named};
use crate::query::query;
use crate::session::session;
use crate::statement_word::{StatementWord, StatementWords};
use crate::transaction::start;
use gql_ast::{ParseFault, Statement, TransactionStatement};
use gql_front::{NoFront, ParseResult, word_at};
use gql_lexer::Lexeme;
use std::alloc::Global;

/// The statement at the front: one that its first word tells, or a query.
#[tactic(auto, unfolding(crate::specs::Machinery::StatementReaders::statement_of))]
pub fn statement<'a>(alloc: Global, rest: &'a [Lexeme]) -> ParseResult<'a, Statement>
    ensures { Reads result rest.now statement_of }
{
    match word_at::<StatementWords>(rest) {
        Ok((word, behind)) => {
            let (found, rest) = statement_behind(alloc, word, behind)?;
            Ok((found, rest))
        }
        Err(NoFront) => {
            let (found, rest) = query(alloc, rest)?;
            Ok((Statement::Query(found), rest))
        }
    }
}

/// A statement other than a query, behind its first word.
fn statement_behind<'a>(
    alloc: Global,
    word: StatementWord,
    rest: &'a [Lexeme],
) -> ParseResult<'a, Statement>
    ensures { MayRead result rest.now (statement_behind word) }
{
    match word {
        StatementWord::Session => {
            let (found, rest) = session(alloc, rest)?;
            Ok((Statement::Session(found), rest))
        }
        StatementWord::Start => {
            let (found, rest) = start(rest)?;
            Ok((Statement::Transaction(found), rest))
        }
        StatementWord::Commit => Ok((Statement::Transaction(TransactionStatement::Commit), rest)),
        StatementWord::Rollback => {
            Ok((Statement::Transaction(TransactionStatement::Rollback), rest))
        }
        StatementWord::Create => {
            let (found, rest) = create(alloc, rest)?;
            Ok((Statement::Catalog(found), rest))
        }
        StatementWord::Drop => {
            let (found, rest) = drop_named(alloc, rest)?;
            Ok((Statement::Catalog(found), rest))
        }
    }
}
