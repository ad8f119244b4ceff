//! The three truths of the language, and what NOT, AND, OR and XOR make of them.

ghost use Rattle.std.specs.Prelude.{◌≡◌, ◌+◌, min, max};
ghost use Rattle.gql_values3.specs.Truth.{rank_of, negated, both, either, one_of, truth_of};

/// A truth of three-valued logic. As a value, Unknown is NULL.
#[derive(Clone, Copy, Debug, PartialEq, Eq)]
pub enum Truth {
    False,
    Unknown,
    True,
}

/// NOT swaps True and False.
pub fn not3(a: Truth) -> Truth
    ensures value { result ≡ negated a }
    ensures other { rank_of result + rank_of a ≡ 2 }
{
    match a {
        Truth::False => Truth::True,
        Truth::Unknown => Truth::Unknown,
        Truth::True => Truth::False,
    }
}

/// AND is the lesser of its sides.
pub fn and3(a: Truth, b: Truth) -> Truth
    ensures value { result ≡ both a b }
    ensures lesser { rank_of result ≡ min (rank_of a) (rank_of b) }
{
    match (a, b) {
        (Truth::False, _) | (_, Truth::False) => Truth::False,
        (Truth::True, Truth::True) => Truth::True,
        _ => Truth::Unknown,
    }
}

/// OR is the greater of its sides.
pub fn or3(a: Truth, b: Truth) -> Truth
    ensures value { result ≡ either a b }
    ensures greater { rank_of result ≡ max (rank_of a) (rank_of b) }
{
    match (a, b) {
        (Truth::True, _) | (_, Truth::True) => Truth::True,
        (Truth::False, Truth::False) => Truth::False,
        _ => Truth::Unknown,
    }
}

/// XOR is Unknown where a side is, else whether the sides differ.
pub fn xor3(a: Truth, b: Truth) -> Truth
    ensures { result ≡ one_of a b }
{
    match (a, b) {
        (Truth::Unknown, _) | (_, Truth::Unknown) => Truth::Unknown,
        (Truth::True, Truth::True) | (Truth::False, Truth::False) => Truth::False,
        _ => Truth::True,
    }
}

/// The truth of a test.
pub fn truth_from(holds: bool) -> Truth
    ensures { result ≡ truth_of holds }
{
    if holds { Truth::True } else { Truth::False }
}
