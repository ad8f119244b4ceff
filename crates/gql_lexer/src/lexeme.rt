//! Lexemes: what the forms mean.

ghost use Rattle.std.specs.Prelude.{◌≡◌, ◌<◌, ◌≤◌, ◌^◌, length, [], ◌∷◌, if◌then◌else◌};
ghost use Rattle.std.specs.Option.{option_map};
ghost use Rattle.std.specs.Vec.{vec_len, vec_capacity};
ghost use Rattle.std.specs.Bool.{MatchBool};
ghost use Rattle.std.specs.Str.{IsUtf8};
ghost use Rattle.gql_lexer.specs.declared.front.Shape.TheVariants.{Dollar};
ghost use Rattle.gql_lexer.specs.Lengths.{begins};
ghost use Rattle.gql_lexer.specs.Machinery.Shapes.{Tells};
ghost use Rattle.gql_lexer.specs.Lexemes.{name_or_word, inside, ticked_text, quoted_text, dollar_text, lexeme_of, is_gap, lexemes_of};
ghost use Rattle.gql_lexer.specs.Gives.{Gives, Adds};

use crate::fault::LexFault;
use crate::front::{Shape, longest_form};
use crate::quotes::text_between;
use gql_values3::{Sequence, Text, reserved_place};
use std::alloc::Global;
use std::str;

/// A lexeme. Texts are in UTF-8 and without quotes, backticks, `$` and escapes.
#[derive(Debug, Drop)]
pub enum Lexeme {
    /// A reserved word: its place among the reserved words, and how it is written.
    Word { place: u32, written: Text },
    /// A name, delimited or not.
    Name(Text),
    /// A string.
    Chars(Text),
    /// The digits of a number as they are written.
    Number(Text),
    /// The name of a parameter.
    Param(Text),
    /// A symbol, by its place in the list of symbols.
    Sign(u32),
}

/// The lexemes of a text.
pub type Lexemes = Sequence<Lexeme>;

/// How many lexemes there is room for at first: some for a short statement, and few enough that the memory is got fast.
const FIRST_ROOM: usize = 42;

/// The lexemes of a piece, or a fault where one of them is bad.
pub fn lexemes(alloc: Global, piece: &[u8]) -> Result<Lexemes, LexFault>
    requires { length piece.now < 2 ^ 32 }
    ensures { Gives result (lexemes_of piece.now) }
{
    let mut all = Vec::with_capacity(alloc, FIRST_ROOM)?;
    let mut at = 0;
    while at < piece.len() {
        let rest = &piece[at..];
        let found = longest_form(rest);
        if is_gap(found.shape) {
            at += found.size;
            continue;
        }
        add(alloc, &mut all, found.shape, &rest[..found.size])?;
        at += found.size;
    }
    Ok(Sequence::from_vec(all))
}

/// Whether the form is white space or a comment.
fn is_gap(shape: Shape) -> bool
    ensures { result ≡ is_gap shape }
{
    match shape {
        Shape::Gap => true,
        _ => false,
    }
}

/// Adds the lexeme that bytes of a shape mean.
#[inline(always)]
fn add(alloc: Global, all: &mut Vec<Lexeme>, shape: Shape, bytes: &[u8]) -> Result<(), LexFault>
    requires { Tells shape bytes.now }
    ensures { Adds result all.old.items all.new.items (lexeme_of shape bytes.now) }
{
    // The room is made first: then nothing is dropped for want of it, and a symbol is written as its place alone.
    all.reserve(1)?;
    match shape {
        Shape::Symbol(place) => {
            all.push_reserved(Lexeme::Sign(place));
            Ok(())
        }
        _ => add_with_text(alloc, all, shape, bytes),
    }
}

/// The same for a lexeme with a text, where there is room.
#[inline(never)]
fn add_with_text(
    alloc: Global,
    all: &mut Vec<Lexeme>,
    shape: Shape,
    bytes: &[u8],
) -> Result<(), LexFault>
    requires tells { Tells shape bytes.now }
    requires room { vec_len all.old < vec_capacity all.old }
    ensures { Adds result all.old.items all.new.items (lexeme_of shape bytes.now) }
{
    let next = meaning(alloc, shape, bytes)?;
    all.push_reserved(next);
    Ok(())
}

/// What bytes of a shape mean that are no gap.
fn meaning(alloc: Global, shape: Shape, bytes: &[u8]) -> Result<Lexeme, LexFault>
    requires { Tells shape bytes.now }
    ensures { Gives result (lexeme_of shape bytes.now) }
{
    match shape {
        Shape::Plain => plain(alloc, as_text(bytes)),
        Shape::Ticked => ticked(alloc, bytes),
        Shape::Quoted => quoted(alloc, bytes),
        Shape::Digits => number(alloc, as_text(bytes)),
        Shape::Dollar => dollar(alloc, bytes),
        Shape::Symbol(place) => Ok(Lexeme::Sign(place)),
        Shape::Gap | Shape::Bad => Err(LexFault::Bad),
    }
}

/// The text of bytes that are UTF-8.
fn as_text(bytes: &[u8]) -> &str
    requires { IsUtf8 bytes.now }
    ensures { result.now ≡ bytes.now }
{
    // They are, as the `requires` says.
    unsafe { str::from_utf8_unchecked(bytes) }
}

/// A name, or the reserved word that it is.
fn plain(alloc: Global, text: &str) -> Result<Lexeme, LexFault>
    ensures { Gives result (Some (name_or_word text.now)) }
{
    let copy = Text::from_str(alloc, text)?;
    match reserved_place(text) {
        Some(place) => Ok(Lexeme::Word {
            place,
            written: copy,
        }),
        None => Ok(Lexeme::Name(copy)),
    }
}

/// A number.
fn number(alloc: Global, text: &str) -> Result<Lexeme, LexFault>
    ensures { Gives result (Some (Lexeme.Number text.now)) }
{
    Ok(Lexeme::Number(Text::from_str(alloc, text)?))
}

/// A delimited name.
fn ticked(alloc: Global, bytes: &[u8]) -> Result<Lexeme, LexFault>
    requires { 2 ≤ length bytes.now }
    ensures { Gives result (option_map Lexeme.Name (ticked_text bytes.now)) }
{
    Ok(Lexeme::Name(ticked_text(alloc, bytes)?))
}

/// The text of a delimited name.
fn ticked_text(alloc: Global, bytes: &[u8]) -> Result<Text, LexFault>
    requires { 2 ≤ length bytes.now }
    ensures { Gives result (ticked_text bytes.now) }
{
    let text = text_between(alloc, inside(bytes), b'`')?;
    if text.len() == 0 {
        Err(LexFault::Bad)
    } else {
        Ok(text)
    }
}

/// The bytes without the first and the last.
fn inside(bytes: &[u8]) -> &[u8]
    requires { 2 ≤ length bytes.now }
    ensures { result.now ≡ inside bytes.now }
{
    &bytes[1..bytes.len() - 1]
}

/// A string.
fn quoted(alloc: Global, bytes: &[u8]) -> Result<Lexeme, LexFault>
    requires { 2 ≤ length bytes.now }
    ensures { Gives result (option_map Lexeme.Chars (quoted_text bytes.now)) }
{
    Ok(Lexeme::Chars(text_between(alloc, inside(bytes), bytes[0])?))
}

/// A parameter.
fn dollar(alloc: Global, bytes: &[u8]) -> Result<Lexeme, LexFault>
    requires { Tells Dollar bytes.now }
    ensures { Gives result (option_map Lexeme.Param (dollar_text bytes.now)) }
{
    Ok(Lexeme::Param(dollar_text(alloc, bytes)?))
}

/// The name of a parameter.
fn dollar_text(alloc: Global, bytes: &[u8]) -> Result<Text, LexFault>
    requires { Tells Dollar bytes.now }
    ensures { Gives result (dollar_text bytes.now) }
{
    name_text(alloc, &bytes[1..])
}

/// The text of a name, delimited or not.
fn name_text(alloc: Global, bytes: &[u8]) -> Result<Text, LexFault>
    requires some_bytes { 1 ≤ length bytes.now }
    requires tells { MatchBool (begins (96 ∷ []) bytes.now) (2 ≤ length bytes.now) (IsUtf8 bytes.now) }
    ensures { Gives result (if begins (96 ∷ []) bytes.now then ticked_text bytes.now else Some bytes.now) }
{
    if begins_tick(bytes) {
        return ticked_text(alloc, bytes);
    }
    plain_text(alloc, as_text(bytes))
}

/// Whether a backtick stands first.
fn begins_tick(bytes: &[u8]) -> bool
    requires { 1 ≤ length bytes.now }
    ensures { result ≡ begins (96 ∷ []) bytes.now }
{
    bytes[0] == b'`'
}

/// A copy of a text.
fn plain_text(alloc: Global, text: &str) -> Result<Text, LexFault>
    ensures { Gives result (Some text.now) }
{
    Ok(Text::from_str(alloc, text)?)
}
