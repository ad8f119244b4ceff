//! Truths, and values as truths.

ghost use Rattle.std.specs.Prelude.{◌≡◌, Ok, Err};
ghost use Rattle.gql_values3.specs.declared.truth.Truth.{Truth};
ghost use Rattle.gql_values3.specs.Meaning.{datum_of};
ghost use Rattle.gql_ast.specs.TruthValues.{truth_in, datum_of_truth};
ghost use Rattle.gql_ast.specs.Evaluation.{sensed, is_truth};
ghost use Rattle.gql_eval.specs.Machinery.JoinedTruth.{joined_truth};
ghost use Rattle.gql_eval.specs.Gives.{GivesExactly};

use gql_ast::{DataFault, Operator, Quality, Sense};
use gql_values3::{Truth, Value, or3, xor3};

/// The truth of a condition: a boolean or NULL.
pub fn truth_of_value(value: &Value) -> Result<Truth, DataFault>
    ensures { GivesExactly (λ t. t) result (truth_in (datum_of value.now)) }
{
    match value {
        Value::Null => Ok(Truth::Unknown),
        Value::Bool(true) => Ok(Truth::True),
        Value::Bool(false) => Ok(Truth::False),
        _ => Err(DataFault::WrongKind),
    }
}

/// A truth as a value: Unknown is NULL.
pub fn truth_value(truth: Truth) -> Value
    ensures { datum_of result ≡ datum_of_truth truth }
{
    match truth {
        Truth::False => Value::Bool(false),
        Truth::Unknown => Value::Null,
        Truth::True => Value::Bool(true),
    }
}

/// IS or IS NOT of an answer; None is NULL, and stays it.
pub fn sensed_value(sense: Sense, answer: Option<bool>) -> Value
    ensures { datum_of result ≡ sensed sense answer }
{
    match (sense, answer) {
        (_, None) => Value::Null,
        (Sense::Is, Some(holds)) => Value::Bool(holds),
        (Sense::IsNot, Some(holds)) => Value::Bool(!holds),
    }
}

/// Whether the truth is the one that the word names; NULL and DIRECTED name none.
pub fn names_truth(quality: Quality, truth: Truth) -> bool
    ensures { result ≡ is_truth quality truth }
{
    match (quality, truth) {
        (Quality::True, Truth::True) => true,
        (Quality::False, Truth::False) => true,
        (Quality::Unknown, Truth::Unknown) => true,
        _ => false,
    }
}

/// OR or XOR of the sides so far and one more.
pub fn join_truths(operator: Operator, truth: Truth, side: Truth) -> Truth
    ensures { result ≡ joined_truth operator truth side }
{
    match operator {
        Operator::Xor => xor3(truth, side),
        _ => or3(truth, side),
    }
}
