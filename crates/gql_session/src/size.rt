//! Numbers that stand among the words.
ghost use Rattle.std.specs.Prelude.{◌≡◌};
ghost use Rattle.gql_session.specs.Words.{number_up_to};
ghost use Rattle.gql_session.specs.Machinery.Seen.{is_short};

use gql_eval::are_digits;
use gql_values3::number_within;

/// The number that one to five digits write, where it is from 1 to the limit.
pub fn number_up_to(most: u32, digits: &str) -> Option<u32>
    ensures { result ≡ number_up_to most digits.now }
{
    if !is_short(digits) {
        return None;
    }
    match number_within(u64::from(most), digits.as_bytes()) {
        Some(0) | None => None,
        Some(value) => Some(value as u32),
    }
}

/// Whether these are one to five digits.
fn is_short(digits: &str) -> bool
    ensures { result ≡ is_short digits.now }
{
    let size = digits.len();
    (1 <= size) & (size <= 5) & are_digits(digits.as_bytes())
}
