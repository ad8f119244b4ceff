//! The texts of numbers, by their value or by the digits that were written.

ghost use Rattle.std.specs.Prelude.{◌≡◌, ◌<◌, ◌^◌, ◌++◌, ◌==◌, not, ℕ, List, IsTrue, OnOk};
ghost use Rattle.std.specs.List.{position};
ghost use Rattle.std.specs.Fmt.{decimal, signed_decimal};
ghost use Rattle.std.specs.Str.{all_ascii_digits};
ghost use Rattle.gql_values3.specs.Integers.{value_of_digits};
ghost use Rattle.gql_ast.specs.ExprText.{number_text};

use gql_values3::{OutOfMemory, Text};
use itoa::Buffer;

/// Adds a number in decimal.
pub fn push_number(text: &mut Text, number: u64) -> Result<(), OutOfMemory>
    ensures { OnOk result (text.new ≡ text.old ++ decimal number) }
{
    let mut buffer = Buffer::new();
    text.push_str(buffer.format(number))
}

/// Adds an integer in decimal, with its sign where it is negative.
pub fn push_integer(text: &mut Text, integer: i64) -> Result<(), OutOfMemory>
    ensures { OnOk result (text.new ≡ text.old ++ signed_decimal integer) }
{
    let mut buffer = Buffer::new();
    text.push_str(buffer.format(integer))
}

/// Adds a number by its digits, without the zeros that stand first; one digit stays.
pub fn push_digits(text: &mut Text, digits: &str) -> Result<(), OutOfMemory>
    ensures { OnOk result (text.new ≡ text.old ++ number_text digits.now) }
{
    text.push_str(without_zeros(digits))
}

/// A law of the definition, for all digits: a number of at most 64 bits prints in decimal.
pub fn a_number_prints_in_decimal()
    ensures { (digits : List ℕ) → IsTrue (all_ascii_digits digits) → value_of_digits digits < 2 ^ 64 → number_text digits ≡ decimal (value_of_digits digits) }
{}

/// The digits from the first one on that is no zero; `0` where there is none.
fn without_zeros(digits: &str) -> &str
    ensures { result.now ≡ number_text digits.now }
{
    match first_beyond_zeros(digits) {
        Some(at) => digits.split_at(at).1,
        None => "0",
    }
}

/// The place of the first byte that is no zero.
fn first_beyond_zeros(digits: &str) -> Option<usize>
    ensures { result ≡ position (λ b. not (b == 48)) digits.now }
{
    digits.as_bytes().iter().position(|digit| *digit != b'0')
}
