//! The words and signs of expressions, with the spaces and brackets that belong to them.

ghost use Rattle.std.specs.Prelude.{◌≡◌, ◌++◌, codes};
ghost use Rattle.gql_ast.specs.ExprText.{comparison_text, operator_text, sign_text, aggregate_text, quantifier_text, function_text, sense_text, quality_text, end_text};

use crate::words::{Aggregate, EdgeEnd, Function, Operator, Quality, Sense, SetQuantifier, Sign};
use gql_values3::Comparison;

pub fn comparison_words(comparison: Comparison) -> &'static str
    ensures { result.now ≡ codes " " ++ comparison_text comparison ++ codes " " }
{
    match comparison {
        Comparison::Eq => " = ",
        Comparison::Ne => " <> ",
        Comparison::Lt => " < ",
        Comparison::Gt => " > ",
        Comparison::Le => " <= ",
        Comparison::Ge => " >= ",
    }
}

pub fn operator_words(operator: Operator) -> &'static str
    ensures { result.now ≡ codes " " ++ operator_text operator ++ codes " " }
{
    match operator {
        Operator::Or => " OR ",
        Operator::Xor => " XOR ",
        Operator::And => " AND ",
        Operator::Add => " + ",
        Operator::Subtract => " - ",
        Operator::Concatenate => " || ",
        Operator::Multiply => " * ",
        Operator::Divide => " / ",
    }
}

pub fn sign_words(sign: Sign) -> &'static str
    ensures { result.now ≡ sign_text sign }
{
    match sign {
        Sign::Plus => "+",
        Sign::Minus => "-",
    }
}

/// An aggregate up to its argument. ALL is dropped.
pub fn aggregate_words(word: Aggregate, quantifier: SetQuantifier) -> &'static str
    ensures { result.now ≡ aggregate_text word ++ codes "(" ++ quantifier_text quantifier }
{
    match (word, quantifier) {
        (Aggregate::Count, SetQuantifier::All) => "COUNT(",
        (Aggregate::Count, SetQuantifier::Distinct) => "COUNT(DISTINCT ",
        (Aggregate::Sum, SetQuantifier::All) => "SUM(",
        (Aggregate::Sum, SetQuantifier::Distinct) => "SUM(DISTINCT ",
        (Aggregate::Min, SetQuantifier::All) => "MIN(",
        (Aggregate::Min, SetQuantifier::Distinct) => "MIN(DISTINCT ",
        (Aggregate::Max, SetQuantifier::All) => "MAX(",
        (Aggregate::Max, SetQuantifier::Distinct) => "MAX(DISTINCT ",
        (Aggregate::CollectList, SetQuantifier::All) => "COLLECT_LIST(",
        (Aggregate::CollectList, SetQuantifier::Distinct) => "COLLECT_LIST(DISTINCT ",
    }
}

/// A function up to its argument.
pub fn function_words(function: Function) -> &'static str
    ensures { result.now ≡ function_text function ++ codes "(" }
{
    match function {
        Function::Abs => "ABS(",
        Function::CharLength => "CHAR_LENGTH(",
        Function::Cardinality => "CARDINALITY(",
        Function::PathLength => "PATH_LENGTH(",
        Function::Elements => "ELEMENTS(",
    }
}

/// A test by one word.
pub fn quality_words(sense: Sense, quality: Quality) -> &'static str
    ensures { result.now ≡ sense_text sense ++ quality_text quality }
{
    match (sense, quality) {
        (Sense::Is, Quality::Null) => " IS NULL",
        (Sense::Is, Quality::True) => " IS TRUE",
        (Sense::Is, Quality::False) => " IS FALSE",
        (Sense::Is, Quality::Unknown) => " IS UNKNOWN",
        (Sense::Is, Quality::Directed) => " IS DIRECTED",
        (Sense::IsNot, Quality::Null) => " IS NOT NULL",
        (Sense::IsNot, Quality::True) => " IS NOT TRUE",
        (Sense::IsNot, Quality::False) => " IS NOT FALSE",
        (Sense::IsNot, Quality::Unknown) => " IS NOT UNKNOWN",
        (Sense::IsNot, Quality::Directed) => " IS NOT DIRECTED",
    }
}

/// A test of labels up to the label expression.
pub fn labeled_words(sense: Sense) -> &'static str
    ensures { result.now ≡ sense_text sense ++ codes "LABELED " }
{
    match sense {
        Sense::Is => " IS LABELED ",
        Sense::IsNot => " IS NOT LABELED ",
    }
}

/// A test of an end up to the name of the edge.
pub fn end_words(sense: Sense, end: EdgeEnd) -> &'static str
    ensures { result.now ≡ sense_text sense ++ end_text end }
{
    match (sense, end) {
        (Sense::Is, EdgeEnd::Source) => " IS SOURCE OF ",
        (Sense::Is, EdgeEnd::Destination) => " IS DESTINATION OF ",
        (Sense::IsNot, EdgeEnd::Source) => " IS NOT SOURCE OF ",
        (Sense::IsNot, EdgeEnd::Destination) => " IS NOT DESTINATION OF ",
    }
}
