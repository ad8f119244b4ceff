//! The text that stands between two quotes or backticks.

ghost use Rattle.std.specs.Prelude.{◌≡◌, ◌≢◌, ◌+◌, ◌<◌, ◌≤◌, ◌==◌, ◌&&◌, ◌||◌, not, [], ◌∷◌, drop, length, MatchOption, ℕ, ◌*◌};
ghost use Rattle.std.specs.Option.{option_map};
ghost use Rattle.std.specs.List.{list_all};
ghost use Rattle.std.specs.Str.{IsUtf8, chars, encode_utf8_all};
ghost use Rattle.gql_lexer.specs.Quotes.{short_escape, hex_value, coded, escape, part, unescaped, text_between};
ghost use Rattle.gql_lexer.specs.Gives.{Gives};

use crate::fault::LexFault;
use gql_values3::Text;
use std::alloc::Global;
use std::str;

/// The text that stands between two quotes.
pub fn text_between(alloc: Global, bytes: &[u8], quote: u8) -> Result<Text, LexFault>
    ensures { Gives result (text_between quote bytes.now) }
{
    match str::from_utf8(bytes) {
        Ok(text) => undone(alloc, text, quote as char),
        Err(_) => Err(LexFault::Bad),
    }
}

/// The text with its escapes and doubled quotes undone.
fn undone(alloc: Global, text: &str, quote: char) -> Result<Text, LexFault>
    ensures { Gives result (option_map encode_utf8_all (unescaped quote 0 (chars text.now))) }
{
    if is_plain(text, quote) {
        copied(alloc, text)
    } else {
        unescaped(alloc, text, quote)
    }
}

/// A copy of a text with no escapes and no quotes.
fn copied(alloc: Global, text: &str) -> Result<Text, LexFault>
    ensures { Gives result (Some text.now) }
{
    Ok(Text::from_str(alloc, text)?)
}

/// Whether no character of the text is a backslash or the quote.
fn is_plain(text: &str, quote: char) -> bool
    ensures { result ≡ list_all (λ c. not (c == 92) && not (c == quote)) (chars text.now) }
{
    text.chars().all(|c| (c != '\\') & (c != quote))
}

/// The text that the characters stand for, each by itself.
fn unescaped(alloc: Global, text: &str, quote: char) -> Result<Text, LexFault>
    ensures { Gives result (option_map encode_utf8_all (unescaped quote 0 (chars text.now))) }
{
    let mut made = String::new(alloc);
    let mut rest = text;
    while let Some((first, behind)) = first_char(rest) {
        match part_of(first, behind, quote) {
            Some(part) => {
                made.push(part.meant)?;
                rest = without(behind, part.size);
            }
            None => return Err(LexFault::Bad),
        }
    }
    Ok(Text::from_string(alloc, made)?)
}

/// The first character, and the text behind it.
fn first_char(text: &str) -> Option<(char, &str)>
    ensures { MatchOption result (chars text.now ≡ []) (λ x. (chars text.now ≡ x.0 ∷ chars x.1.now) × (length x.1.now < length text.now) × IsUtf8 x.1.now) }
{
    let mut rest = text.chars();
    match rest.next() {
        Some(first) => Some((first, rest.as_str())),
        None => None,
    }
}

/// The text without its first characters.
fn without(text: &str, size: usize) -> &str
    ensures chars { chars result.now ≡ drop size (chars text.now) }
    ensures utf8 { IsUtf8 result.now }
    ensures length { length result.now ≤ length text.now }
{
    let mut rest = text;
    for place in 0..size {
        match first_char(rest) {
            Some((_, behind)) => rest = behind,
            None => return rest,
        }
    }
    rest
}

/// A character that stands for itself or, with those behind it, for another.
#[derive(Clone, Copy)]
struct Part {
    meant: char,
    size: usize,
}

/// What a character stands for with the text behind it, and how many characters of that text belong to it.
fn part_of(first: char, behind: &str, quote: char) -> Option<Part>
    ensures { result ≡ part quote first (chars behind.now) }
{
    if first == '\\' {
        return escape(behind);
    }
    Some(Part {
        meant: first,
        size: if first == quote { 1 } else { 0 },
    })
}

/// What stands behind a backslash.
fn escape(text: &str) -> Option<Part>
    ensures { result ≡ escape (chars text.now) }
{
    match first_char(text) {
        Some((letter, behind)) => escape_by(letter, behind),
        None => None,
    }
}

/// The escape that begins with a letter.
fn escape_by(letter: char, behind: &str) -> Option<Part>
    ensures { result ≡ escape (letter ∷ chars behind.now) }
{
    if letter == 'u' {
        return coded(behind, 4);
    }
    if letter == 'U' {
        return coded(behind, 6);
    }
    match short_escape(letter) {
        Some(meant) => Some(Part { meant, size: 1 }),
        None => None,
    }
}

/// What one letter behind a backslash stands for.
fn short_escape(letter: char) -> Option<char>
    ensures { result ≡ short_escape letter }
{
    match letter {
        '\\' => Some('\\'),
        '\'' => Some('\''),
        '"' => Some('"'),
        'n' => Some('\n'),
        'r' => Some('\r'),
        't' => Some('\t'),
        'b' => Some('\u{8}'),
        'f' => Some('\u{C}'),
        _ => None,
    }
}

/// A scalar value by so many hexadecimal digits.
fn coded(text: &str, count: usize) -> Option<Part>
    requires { count ≤ 6 }
    ensures { result ≡ coded count (chars text.now) }
{
    match hex_value(text, count) {
        Some(value) => match char::from_u32(value) {
            Some(meant) => Some(Part {
                meant,
                size: count + 1,
            }),
            None => None,
        },
        None => None,
    }
}

/// The number that so many hexadecimal digits write.
fn hex_value(text: &str, count: usize) -> Option<u32>
    requires { count ≤ 6 }
    ensures { result ≡ hex_value 0 count (chars text.now) }
{
    let mut value = 0;
    let mut rest = text;
    for place in 0..count {
        match first_digit(rest) {
            Some((digit, behind)) => {
                value = value * 16 + digit;
                rest = behind;
            }
            None => return None,
        }
    }
    Some(value)
}

/// The value of the hexadecimal digit at the front, and the text behind it.
fn first_digit(text: &str) -> Option<(u32, &str)>
    ensures { MatchOption result ((value n : ℕ) → hex_value value (n + 1) (chars text.now) ≡ None) (λ x. (x.0 < 16) × ((value n : ℕ) → hex_value value (n + 1) (chars text.now) ≡ hex_value (value * 16 + x.0) n (chars x.1.now)) × IsUtf8 x.1.now) }
{
    match first_char(text) {
        Some((letter, behind)) => match letter.to_digit(16) {
            Some(digit) => Some((digit, behind)),
            None => None,
        },
        None => None,
    }
}
