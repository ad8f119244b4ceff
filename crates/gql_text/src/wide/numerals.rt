//! Whether digits write a number that is too large for an integer.

ghost use Rattle.std.specs.Prelude.{◌≡◌, [], ◌∷◌, find};
ghost use Rattle.std.specs.Option.{option_copied};
ghost use Rattle.gql_ast.specs.NumberLiterals.{is_wide, numeral};

use gql_values3::{Text, number_within};

/// The largest integer.
const LARGEST: u64 = 9_223_372_036_854_775_807;

/// The number where it is too large.
pub fn if_wide(digits: &Text) -> Option<&Text>
    ensures { option_copied result ≡ find is_wide (digits.now ∷ []) }
{
    if is_wide(digits.as_str().as_bytes()) {
        Some(digits)
    } else {
        None
    }
}

/// The number where it is there and too large.
pub fn if_there(digits: &Option<Text>) -> Option<&Text>
    ensures { option_copied result ≡ find is_wide (numeral digits.now) }
{
    match digits {
        Some(digits) => if_wide(digits),
        None => None,
    }
}

/// Whether the number that the digits write is too large.
fn is_wide(digits: &[u8]) -> bool
    ensures { result ≡ is_wide digits.now }
{
    number_within(LARGEST, digits).is_none()
}
