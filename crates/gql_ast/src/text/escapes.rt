//! Characters that cannot stand as they are, and the escapes that stand for them.

ghost use Rattle.std.specs.Prelude.{◌≡◌, ◌<◌, ◌+◌, [], ◌∷◌, ◌++◌, OnOk, MatchOption, IsTrue, length, take, drop, slice_index};
ghost use Rattle.std.specs.List.{flat_map, position};
ghost use Rattle.gql_ast.specs.ValueText.{hex_digit, control};
ghost use Rattle.gql_ast.specs.Machinery.Escapes.{escaped, is_control, is_escaped};
ghost use Rattle.std.specs.Str.{IsUtf8};

use gql_values3::{OutOfMemory, Text};

/// Where characters stand, which decides which of them have an escape.
#[derive(Clone, Copy, Debug, PartialEq, Eq)]
pub enum Setting {
    /// Between the quotes of a string.
    String,
    /// Between the backticks of a name.
    Name,
    /// Above the column of a table, between no quotes.
    Header,
}

/// Adds the characters, with an escape for each that cannot stand there as it is.
pub fn push_escaped(text: &mut Text, setting: Setting, characters: &str) -> Result<(), OutOfMemory>
    ensures { OnOk result (text.new ≡ text.old ++ flat_map (escaped setting) characters.now) }
{
    let mut rest = characters;
    while let Some(cut) = first_escaped(setting, rest) {
        text.push_str(cut.before)?;
        push_escape(text, setting, cut.byte)?;
        rest = cut.behind;
    }
    text.push_str(rest)
}

/// A text around a byte of it.
#[derive(Clone, Copy)]
struct Cut<'a> {
    before: &'a str,
    byte: u8,
    behind: &'a str,
}

/// The first byte that has an escape, and what stands around it.
fn first_escaped(setting: Setting, characters: &str) -> Option<Cut>
    ensures { MatchOption result
        (flat_map (escaped setting) characters.now ≡ characters.now)
        (λ cut. (flat_map (escaped setting) characters.now ≡ cut.before.now ++ (escaped setting cut.byte ++ flat_map (escaped setting) cut.behind.now))
        × IsTrue (is_escaped setting cut.byte) × (length cut.behind.now < length characters.now) × IsUtf8 cut.behind.now) }
{
    match first_place(setting, characters) {
        Some(at) => Some(cut_at(characters, at)),
        None => None,
    }
}

/// The place of the first byte that has an escape.
fn first_place(setting: Setting, characters: &str) -> Option<usize>
    ensures { result ≡ position (is_escaped setting) characters.now }
{
    characters
        .as_bytes()
        .iter()
        .position(|byte| is_escaped(setting, *byte))
}

/// The text around a byte of ASCII.
fn cut_at(characters: &str, at: usize) -> Cut
    requires within { at < length characters.now }
    requires ascii { slice_index characters.now at < 128 }
    ensures before { result.before.now ≡ take at characters.now }
    ensures byte { result.byte ≡ slice_index characters.now at }
    ensures behind { result.behind.now ≡ drop (at + 1) characters.now }
    ensures utf8 { IsUtf8 result.behind.now }
{
    Cut {
        before: characters.split_at(at).0,
        byte: characters.as_bytes()[at],
        behind: characters.split_at(at + 1).1,
    }
}

/// Whether the byte does not print as it is. Bytes of characters beyond ASCII do.
fn is_escaped(setting: Setting, byte: u8) -> bool
    ensures { result ≡ is_escaped setting byte }
{
    match setting {
        Setting::String => byte == b'\'' || byte == b'\\' || is_control(byte),
        Setting::Name => byte == b'`' || byte == b'\\' || is_control(byte),
        Setting::Header => is_control(byte),
    }
}

fn is_control(byte: u8) -> bool
    ensures { result ≡ is_control byte }
{
    byte < 32 || byte == 127
}

/// Adds the escape of a byte.
fn push_escape(text: &mut Text, setting: Setting, byte: u8) -> Result<(), OutOfMemory>
    requires { IsTrue (is_escaped setting byte) }
    ensures { OnOk result (text.new ≡ text.old ++ escaped setting byte) }
{
    match byte {
        b'\\' => text.push_str("\\\\"),
        b'\n' => text.push_str("\\n"),
        b'\r' => text.push_str("\\r"),
        b'\t' => text.push_str("\\t"),
        8 => text.push_str("\\b"),
        12 => text.push_str("\\f"),
        b'\'' => text.push_str("\\'"),
        b'`' => text.push_str("``"),
        _ => push_control(text, byte),
    }
}

/// Adds a control character as `\u` and four digits.
fn push_control(text: &mut Text, byte: u8) -> Result<(), OutOfMemory>
    ensures { OnOk result (text.new ≡ text.old ++ control byte) }
{
    text.push_str("\\u00")?;
    text.push_str(hex_digit(byte / 16))?;
    text.push_str(hex_digit(byte % 16))
}

/// An upper-case hexadecimal digit.
fn hex_digit(digit: u8) -> &'static str
    requires { digit < 16 }
    ensures { result.now ≡ hex_digit digit ∷ [] }
{
    match digit {
        0 => "0",
        1 => "1",
        2 => "2",
        3 => "3",
        4 => "4",
        5 => "5",
        6 => "6",
        7 => "7",
        8 => "8",
        9 => "9",
        10 => "A",
        11 => "B",
        12 => "C",
        13 => "D",
        14 => "E",
        _ => "F",
    }
}
