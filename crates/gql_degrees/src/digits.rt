//! The numbers of quantifiers and selectors, which a tree keeps by their digits.

ghost use Rattle.std.specs.Prelude.{◌≡◌, option_map};
ghost use Rattle.gql_values3.specs.Integers.{value_of_digits};
ghost use Rattle.gql_norm.specs.NormalForm.{fewest_copies, most_copies, number_or_one};
ghost use Rattle.gql_degrees.specs.FirstFaults.{at_most_largest};

use gql_ast::Quantifier;
use gql_values3::{Text, number_within};

/// The largest integer.
const LARGEST: u64 = 9_223_372_036_854_775_807;

/// The number that digits write, or the largest integer where it is larger.
pub fn number_of(digits: &Text) -> u64
    ensures { result ≡ at_most_largest (value_of_digits digits.now) }
{
    number_within(LARGEST, digits.as_str().as_bytes()).unwrap_or(LARGEST)
}

/// A number that may be missing and then is 1.
pub fn number_or_one(digits: &Option<Text>) -> u64
    ensures { result ≡ at_most_largest (number_or_one digits.now) }
{
    match digits {
        Some(digits) => number_of(digits),
        None => 1,
    }
}

/// How often a quantified part stands at least.
pub fn fewest_copies(quantifier: &Quantifier) -> u64
    ensures { result ≡ at_most_largest (fewest_copies quantifier.now) }
{
    match quantifier {
        Quantifier::Star | Quantifier::Between(None, _) => 0,
        Quantifier::Plus => 1,
        Quantifier::Exactly(digits) | Quantifier::Between(Some(digits), _) => number_of(digits),
    }
}

/// How often a quantified part stands at most, if there is an upper bound.
pub fn most_copies(quantifier: &Quantifier) -> Option<u64>
    ensures { result ≡ option_map at_most_largest (most_copies quantifier.now) }
{
    match quantifier {
        Quantifier::Star | Quantifier::Plus | Quantifier::Between(_, None) => None,
        Quantifier::Exactly(digits) | Quantifier::Between(_, Some(digits)) => {
            Some(number_of(digits))
        }
    }
}
