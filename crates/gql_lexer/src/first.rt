//! What the first byte tells.

ghost use Rattle.gql_lexer.specs.Machinery.Firsts.{Told};

use crate::symbols::{
    AMPERSAND, BANG, CLOSING, CLOSING_BRACE, CLOSING_BRACKET, COMMA, DOT, EQUAL, OPENING,
    OPENING_BRACE, OPENING_BRACKET, PERCENT, PLUS, QUESTION, SEMICOLON, STAR,
};

/// What the first byte tells of the form that stands there.
#[derive(Clone, Copy, Debug, PartialEq, Eq)]
pub enum First {
    /// It is a symbol, by its place, and begins nothing else.
    Alone(u32),
    /// It is `<`.
    Less,
    /// It is `>`.
    Greater,
    /// It is `~`.
    Tilde,
    /// It is `:`.
    Colon,
    /// It is `|`.
    Bar,
    /// It is `-`.
    Minus,
    /// It is `/`.
    Slash,
    /// It is white space.
    Blank,
    /// It is an ASCII letter or `_`, with which a name begins.
    Letter,
    /// It is any other: neither white space nor an ASCII letter, and no symbol begins with it.
    Other,
}

/// What a byte tells that stands first.
#[inline(always)]
pub fn told_by(byte: u8) -> First
    ensures { Told byte result }
{
    match byte {
        b'=' => First::Alone(EQUAL),
        b'+' => First::Alone(PLUS),
        b'*' => First::Alone(STAR),
        b'%' => First::Alone(PERCENT),
        b'(' => First::Alone(OPENING),
        b')' => First::Alone(CLOSING),
        b'[' => First::Alone(OPENING_BRACKET),
        b']' => First::Alone(CLOSING_BRACKET),
        b'{' => First::Alone(OPENING_BRACE),
        b'}' => First::Alone(CLOSING_BRACE),
        b',' => First::Alone(COMMA),
        b'.' => First::Alone(DOT),
        b'&' => First::Alone(AMPERSAND),
        b'!' => First::Alone(BANG),
        b'?' => First::Alone(QUESTION),
        b';' => First::Alone(SEMICOLON),
        b'<' => First::Less,
        b'>' => First::Greater,
        b'~' => First::Tilde,
        b':' => First::Colon,
        b'|' => First::Bar,
        b'-' => First::Minus,
        b'/' => First::Slash,
        b' ' | b'\t' | b'\n' | b'\r' | 12 => First::Blank,
        b'a'..=b'z' | b'A'..=b'Z' | b'_' => First::Letter,
        _ => First::Other,
    }
}
