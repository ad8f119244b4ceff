//! How deep brackets of all kinds are nested, counted from the left.

ghost use Rattle.std.specs.Prelude.{◌≡◌, ◌≤◌};
ghost use Rattle.gql_exprs.specs.Depth.{is_opening, is_closing, count_behind, too_deep};

use gql_lexer::{Lexeme, symbols};

/// How deep brackets may be nested.
pub const MOST_DEEP: u32 = 64;

/// Whether brackets are nested more than 64 deep somewhere in the lexemes. Takes no memory.
pub fn too_deep(lexemes: &[Lexeme]) -> bool
    ensures { result ≡ too_deep lexemes.now }
{
    let mut count = 0;
    for lexeme in lexemes {
        count = count_behind(count, lexeme);
        if count > MOST_DEEP {
            return true;
        }
    }
    false
}

/// What the bracket count is behind a lexeme.
fn count_behind(count: u32, lexeme: &Lexeme) -> u32
    requires { count ≤ MOST_DEEP }
    ensures { result ≡ count_behind count lexeme.now }
{
    if is_opening(lexeme) {
        count + 1
    } else if is_closing(lexeme) {
        count.saturating_sub(1)
    } else {
        count
    }
}

/// Whether the lexeme is an opening bracket of any kind.
fn is_opening(lexeme: &Lexeme) -> bool
    ensures { result ≡ is_opening lexeme.now }
{
    match lexeme {
        Lexeme::Sign(place) => matches!(
            *place,
            symbols::OPENING | symbols::OPENING_BRACKET | symbols::OPENING_BRACE
        ),
        _ => false,
    }
}

/// Whether the lexeme is a closing bracket of any kind.
fn is_closing(lexeme: &Lexeme) -> bool
    ensures { result ≡ is_closing lexeme.now }
{
    match lexeme {
        Lexeme::Sign(place) => matches!(
            *place,
            symbols::CLOSING | symbols::CLOSING_BRACKET | symbols::CLOSING_BRACE
        ),
        _ => false,
    }
}
