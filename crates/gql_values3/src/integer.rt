//! The integer that digits write.

ghost use Rattle.std.specs.Prelude.{◌≡◌, ◌<◌, IsTrue, length, nat_le, pos, if◌then◌else◌};
ghost use Rattle.std.specs.Str.{all_ascii_digits};
ghost use Rattle.gql_values3.specs.Integers.{value_of_digits};

/// The number that one or more ASCII digits write, or None where it is above 9,223,372,036,854,775,807. Zeros may
/// stand first. It takes no memory.
pub fn int_of(digits: &str) -> Option<i64>
    requires some { 0 < length digits.now }
    requires digits { IsTrue (all_ascii_digits digits.now) }
    ensures { let value = value_of_digits digits.now in result ≡ (if nat_le value 9223372036854775807 then Some (pos value) else None) }
{
    digits.parse::<i64>().ok()
}

/// The number that these bytes write, or None where it is above the limit. Nothing is asked of the bytes, and it takes no
/// memory. A number never falls as digits come behind it, so the first that is above the limit decides.
pub fn number_within(most: u64, digits: &[u8]) -> Option<u64>
    ensures { let value = value_of_digits digits.now in result ≡ (if nat_le value most then Some value else None) }
{
    let limit = u128::from(most);
    let mut value = 0u128;
    for digit in digits {
        value = value * 10 + u128::from(digit.saturating_sub(b'0'));
        if value > limit {
            return None;
        }
    }
    Some(value as u64)
}
