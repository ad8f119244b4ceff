//! What may stand behind a comparison and makes a test of it: IS or IS NOT and what is asked, or a colon and labels.

ghost use Rattle.std.specs.Prelude.{◌≡◌, IfOk};
ghost use Rattle.gql_front.specs.Reads.{ReadsAs, MayReadAs, AlwaysReads};
ghost use Rattle.gql_ast.specs.Meaning.{tree_of};
ghost use Rattle.gql_exprs.specs.Machinery.EndingMeaning.{ending_of};
ghost use Rattle.gql_exprs.specs.Machinery.LeafReaders.{sense_of, labels_ending, end_ending, asked_ending, is_ending, ending, tested};

use crate::labels::label_expression;
use crate::test_word::{TestWord, TestWords};
use gql_ast::{EdgeEnd, Expr, LabelExpr, ParseFault, Quality, Sense, Sub};
use gql_front::{ParseResult, after_word, plain_name, word_at};
use gql_lexer::Lexeme;
use gql_lexer::symbols::COLON;
use gql_lexer::words::{IS, NOT, OF};
use gql_values3::{OutOfMemory, Text};
use std::alloc::Global;

/// What stands behind a comparison and makes a test of it. Its meaning is `ending_of`.
#[derive(Drop)]
pub enum TestEnding {
    HasQuality(Sense, Quality),
    HasLabels(Sense, LabelExpr),
    IsEnd(Sense, EdgeEnd, Text),
}

/// The ending at the front, and the lexemes behind it. `Syntax` comes exactly where none is.
#[tactic(auto, unfolding(crate::specs::Machinery::LeafReaders::ending))]
pub fn ending<'a>(alloc: Global, rest: &'a [Lexeme]) -> ParseResult<'a, TestEnding>
    ensures { ReadsAs ending_of result rest.now ending }
{
    match rest {
        [Lexeme::Sign(COLON), rest @ ..] => labels(alloc, Sense::Is, rest),
        [Lexeme::Word { place: IS, .. }, rest @ ..] => behind_is(alloc, rest),
        _ => Err(ParseFault::Syntax),
    }
}

/// The comparison and its ending as one test.
pub fn tested(alloc: Global, expr: Expr, ending: TestEnding) -> Result<Expr, OutOfMemory>
    ensures { IfOk result (λ e. tree_of e ≡ tested (tree_of expr) (ending_of ending)) }
{
    let sub = Sub::new(alloc, expr)?;
    Ok(match ending {
        TestEnding::HasQuality(sense, quality) => Expr::Is(sub, sense, quality),
        TestEnding::HasLabels(sense, labels) => Expr::IsLabeled(sub, sense, labels),
        TestEnding::IsEnd(sense, end, name) => Expr::IsEnd(sub, sense, end, name),
    })
}

/// Behind IS.
#[tactic(auto, unfolding(crate::specs::Machinery::LeafReaders::is_ending))]
fn behind_is<'a>(alloc: Global, rest: &'a [Lexeme]) -> ParseResult<'a, TestEnding>
    ensures { ReadsAs ending_of result rest.now is_ending }
{
    let (sense, rest) = sense_of(rest);
    let (word, rest) = word_at::<TestWords>(rest)?;
    asked(alloc, sense, word, rest)
}

/// NOT at the front, or nothing.
#[tactic(auto, unfolding(crate::specs::Machinery::LeafReaders::sense_of))]
fn sense_of(rest: &[Lexeme]) -> (Sense, &[Lexeme])
    ensures { AlwaysReads result rest.now (sense_of rest.now) }
{
    match after_word(NOT, rest) {
        Ok(behind) => (Sense::IsNot, behind),
        Err(_) => (Sense::Is, rest),
    }
}

/// Behind the word that asks.
fn asked<'a>(
    alloc: Global,
    sense: Sense,
    word: TestWord,
    rest: &'a [Lexeme],
) -> ParseResult<'a, TestEnding>
    ensures { MayReadAs ending_of result rest.now (asked_ending sense word) }
{
    match word {
        TestWord::Quality(quality) => Ok((TestEnding::HasQuality(sense, quality), rest)),
        TestWord::Labeled => labels(alloc, sense, rest),
        TestWord::End(end) => end_of(alloc, sense, end, rest),
    }
}

/// A label expression, behind a colon or LABELED.
#[tactic(auto, unfolding(crate::specs::Machinery::LeafReaders::labels_ending))]
fn labels<'a>(alloc: Global, sense: Sense, rest: &'a [Lexeme]) -> ParseResult<'a, TestEnding>
    ensures { ReadsAs ending_of result rest.now (labels_ending sense) }
{
    let (labels, rest) = label_expression(alloc, rest)?;
    Ok((TestEnding::HasLabels(sense, labels), rest))
}

/// OF and a variable, behind SOURCE or DESTINATION.
#[tactic(auto, unfolding(crate::specs::Machinery::LeafReaders::end_ending))]
fn end_of<'a>(
    alloc: Global,
    sense: Sense,
    end: EdgeEnd,
    rest: &'a [Lexeme],
) -> ParseResult<'a, TestEnding>
    ensures { ReadsAs ending_of result rest.now (end_ending sense end) }
{
    let rest = after_word(OF, rest)?;
    let (name, rest) = plain_name(rest)?;
    Ok((TestEnding::IsEnd(sense, end, name.try_copy(alloc)?), rest))
}
