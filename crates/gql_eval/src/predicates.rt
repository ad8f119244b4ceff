//! Comparisons and tests as values.

ghost use Rattle.std.specs.Prelude.{Ok};
ghost use Rattle.gql_values3.specs.Comparison.{compared};
ghost use Rattle.gql_values3.specs.Truth.{negated};
ghost use Rattle.gql_values3.specs.Meaning.{datum_of};
ghost use Rattle.gql_ast.specs.LabelMeaning.{label_of};
ghost use Rattle.gql_ast.specs.TruthValues.{truth_in, datum_of_truth};
ghost use Rattle.gql_ast.specs.ElementTests.{labeled_value, end_value};
ghost use Rattle.gql_ast.specs.Evaluation.{comparison_value, quality_value, sensed};
ghost use Rattle.gql_eval.specs.Gives.{GivesExactly};
ghost use Rattle.gql_eval.specs.Machinery.Next.{next};

use crate::elements::{end, labeled, quality};
use crate::truths::{sensed_value, truth_of_value, truth_value};
use gql_ast::{DataFault, EdgeEnd, LabelExpr, Quality, Sense};
use gql_values3::{Comparison, Value, View, compare3, not3};

pub fn compare(comparison: Comparison, a: &Value, b: &Value) -> Result<Value, DataFault>
    ensures { GivesExactly datum_of result (comparison_value (compared comparison (datum_of a.now) (datum_of b.now))) }
{
    match compare3(comparison, a, b) {
        Ok(truth) => Ok(truth_value(truth)),
        Err(_) => Err(DataFault::NotComparable),
    }
}

/// NOT.
pub fn negate(value: &Value) -> Result<Value, DataFault>
    ensures { GivesExactly datum_of result (next (truth_in (datum_of value.now)) (λ t. Ok (datum_of_truth (negated t)))) }
{
    let truth = truth_of_value(value)?;
    Ok(truth_value(not3(truth)))
}

/// IS and IS NOT by one word.
pub fn is_quality<V: View>(
    view: &V,
    sense: Sense,
    word: Quality,
    value: &Value,
) -> Result<Value, DataFault>
    ensures { GivesExactly datum_of result (next (quality_value (V.graph view.now) word (datum_of value.now)) (λ b. Ok (sensed sense b))) }
{
    let answer = quality(view, word, value)?;
    Ok(sensed_value(sense, answer))
}

/// IS LABELED and IS NOT LABELED.
pub fn is_labeled<V: View>(
    view: &V,
    sense: Sense,
    labels: &LabelExpr,
    value: &Value,
) -> Result<Value, DataFault>
    ensures { GivesExactly datum_of result (next (labeled_value (V.graph view.now) (datum_of value.now) (label_of labels.now)) (λ b. Ok (sensed sense b))) }
{
    let answer = labeled(view, value, labels)?;
    Ok(sensed_value(sense, answer))
}

/// IS and IS NOT SOURCE OF and DESTINATION OF.
pub fn is_end<V: View>(
    view: &V,
    sense: Sense,
    which: EdgeEnd,
    value: &Value,
    edge: &Value,
) -> Result<Value, DataFault>
    ensures { GivesExactly datum_of result (next (end_value (V.graph view.now) which (datum_of value.now) (datum_of edge.now)) (λ b. Ok (sensed sense b))) }
{
    let answer = end(view, which, value, edge)?;
    Ok(sensed_value(sense, answer))
}
