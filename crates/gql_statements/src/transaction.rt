//! Statements about transactions.

ghost use Rattle.gql_front.specs.Reads.{Takes, AlwaysReads};
ghost use Rattle.gql_front.specs.Reading.{op_at};
ghost use Rattle.gql_statements.specs.TransactionWords.{access_word};
ghost use Rattle.gql_statements.specs.Machinery.TransactionReaders.{stated_access_of, access_of, start_of};

use gql_ast::{AccessMode, TransactionStatement};
use gql_front::{NoFront, after_word};
use gql_lexer::Lexeme;
use gql_lexer::words::{ONLY, READ, TRANSACTION, WRITE};

/// TRANSACTION, and what it may do, behind START.
#[tactic(auto, unfolding(crate::specs::Machinery::TransactionReaders::start_of))]
pub fn start(rest: &[Lexeme]) -> Result<(TransactionStatement, &[Lexeme]), NoFront>
    ensures { Takes result rest.now start_of }
{
    let rest = after_word(TRANSACTION, rest)?;
    let (access, rest) = access(rest);
    Ok((TransactionStatement::Start(access), rest))
}

/// What a transaction may do; no word means READ WRITE. A READ that neither word follows is left.
#[tactic(auto, unfolding(crate::specs::Machinery::TransactionReaders::access_of))]
fn access(rest: &[Lexeme]) -> (AccessMode, &[Lexeme])
    ensures { AlwaysReads result rest.now (access_of rest.now) }
{
    match stated_access(rest) {
        Ok(found) => found,
        Err(NoFront) => (AccessMode::ReadWrite, rest),
    }
}

/// READ ONLY or READ WRITE.
#[tactic(auto, unfolding(crate::specs::Machinery::TransactionReaders::stated_access_of))]
fn stated_access(rest: &[Lexeme]) -> Result<(AccessMode, &[Lexeme]), NoFront>
    ensures { Takes result rest.now stated_access_of }
{
    let rest = after_word(READ, rest)?;
    access_word_at(rest)
}

/// The word behind READ.
fn access_word_at(rest: &[Lexeme]) -> Result<(AccessMode, &[Lexeme]), NoFront>
    ensures { Takes result rest.now (op_at access_word) }
{
    match rest {
        [Lexeme::Word { place: ONLY, .. }, rest @ ..] => Ok((AccessMode::ReadOnly, rest)),
        [Lexeme::Word { place: WRITE, .. }, rest @ ..] => Ok((AccessMode::ReadWrite, rest)),
        _ => Err(NoFront),
    }
}
