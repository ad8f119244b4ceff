//! The numbers of quantifiers and selectors, which a tree keeps by their digits.

ghost use Rattle.std.specs.Prelude.{◌≡◌, pos, IfOk};
ghost use Rattle.gql_values3.specs.Integers.{value_of_digits};
ghost use Rattle.gql_norm.specs.NormalForm.{fewest_copies, most_copies, number_or_one};

use gql_ast::Quantifier;
use gql_eval::are_digits;
use gql_values3::{OutOfMemory, Text, int_of};

/// The number that digits write. A statement with one beyond 32 bits is refused before; here it is answered as want of
/// memory.
pub fn number_of(digits: &Text) -> Result<u32, OutOfMemory>
    ensures { IfOk result (λ number. number ≡ value_of_digits digits.now) }
{
    let text = digits.as_str();
    if text.is_empty() || !are_digits(text.as_bytes()) {
        return Err(OutOfMemory);
    }
    match int_of(text) {
        Some(number) => in_32_bits(number),
        None => Err(OutOfMemory),
    }
}

fn in_32_bits(number: i64) -> Result<u32, OutOfMemory>
    ensures { IfOk result (λ n. pos n ≡ number) }
{
    match u32::try_from(number) {
        Ok(number) => Ok(number),
        Err(_) => Err(OutOfMemory),
    }
}

/// A number that may be missing and then is 1.
pub fn number_or_one(digits: &Option<Text>) -> Result<u32, OutOfMemory>
    ensures { IfOk result (λ number. number ≡ number_or_one digits.now) }
{
    match digits {
        Some(digits) => number_of(digits),
        None => Ok(1),
    }
}

/// How often a quantified part stands at least.
pub fn fewest_copies(quantifier: &Quantifier) -> Result<u32, OutOfMemory>
    ensures { IfOk result (λ number. number ≡ fewest_copies quantifier.now) }
{
    match quantifier {
        Quantifier::Star | Quantifier::Between(None, _) => Ok(0),
        Quantifier::Plus => Ok(1),
        Quantifier::Exactly(digits) | Quantifier::Between(Some(digits), _) => number_of(digits),
    }
}

/// How often a quantified part stands at most, if there is an upper bound.
pub fn most_copies(quantifier: &Quantifier) -> Result<Option<u32>, OutOfMemory>
    ensures { IfOk result (λ number. number ≡ most_copies quantifier.now) }
{
    match quantifier {
        Quantifier::Star | Quantifier::Plus | Quantifier::Between(_, None) => Ok(None),
        Quantifier::Exactly(digits) | Quantifier::Between(_, Some(digits)) => {
            Ok(Some(number_of(digits)?))
        }
    }
}
