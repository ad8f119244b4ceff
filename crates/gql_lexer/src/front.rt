//! The form that stands at the front of some bytes.

ghost use Rattle.std.specs.Prelude.{◌≡◌, ◌≢◌, ◌⊎◌, ◌+◌, ◌<◌, ◌≤◌, length, take, drop, slice_index, false, true, IfSome};
ghost use Rattle.std.specs.Option.{option_map, option_or};
ghost use Rattle.gql_lexer.specs.declared.front.Shape.TheVariants.{Gap};
ghost use Rattle.gql_lexer.specs.Lengths.{line_length, quoted_length};
ghost use Rattle.gql_lexer.specs.Forms.{form, closed, is_blank, plain, ticked, dollar_shape, symbols, front};
ghost use Rattle.gql_lexer.specs.Machinery.Shapes.{Tells};
ghost use Rattle.gql_lexer.specs.Machinery.Firsts.{is_ascii_start, none_begins};

use crate::first::{First, told_by};
use crate::lengths::{
    block_length, continue_length, digits_length, line_length, name_length, quoted_length,
};
use crate::symbol::{bar, byte_at, colon, greater, less, sign, tilde};
use crate::symbols::{MINUS, RIGHT_ARROW, SLASH};

/// Which form of the language some bytes are.
#[derive(Clone, Copy, Debug, PartialEq, Eq)]
pub enum Shape {
    /// White space or a comment.
    Gap,
    /// A name or a reserved word.
    Plain,
    /// A name between backticks.
    Ticked,
    /// A string.
    Quoted,
    /// A number.
    Digits,
    /// A parameter.
    Dollar,
    /// A symbol, by its place in the list of symbols.
    Symbol(u32),
    /// No form of the language.
    Bad,
}

/// The form that stands at the front of some bytes, and how many bytes it takes.
#[derive(Clone, Copy, Debug, PartialEq, Eq)]
pub struct Front {
    pub shape: Shape,
    pub size: usize,
}

impl Front {
    fn new(shape: Shape, size: usize) -> Front
        ensures { result ≡ form shape size }
    {
        Front { shape, size }
    }
}

/// The longest form that stands at the front, or one bad byte. The first byte tells which forms it can be.
#[inline(always)]
pub fn longest_form(rest: &[u8]) -> Front
    requires { 0 < length rest.now }
    ensures value { result ≡ front rest.now }
    ensures bounds { (1 ≤ result.size) × (result.size ≤ length rest.now) }
    ensures tells { Tells result.shape (take result.size rest.now) }
{
    by_first(rest)
}

/// The longest form, by what the first byte tells.
#[inline(always)]
fn by_first(rest: &[u8]) -> Front
    requires { 0 < length rest.now }
    ensures { result ≡ front rest.now }
{
    match told_by(rest[0]) {
        First::Alone(place) => Front::new(Shape::Symbol(place), 1),
        First::Less => less(rest),
        First::Greater => greater(rest),
        First::Tilde => tilde(rest),
        First::Colon => colon(rest),
        First::Bar => bar(rest),
        First::Minus => minus(rest),
        First::Slash => slash(rest),
        First::Blank => Front::new(Shape::Gap, 1),
        First::Letter => Front::new(Shape::Plain, continue_length(rest, 1)),
        First::Other => other(rest),
    }
}

/// The form at a byte that is neither white space nor an ASCII letter, and with which no symbol begins. It is built anew
/// from the answer of a call out of line, which lets the loops above keep it in registers.
#[inline(always)]
fn other(rest: &[u8]) -> Front
    requires some_bytes { 0 < length rest.now }
    requires no_blank { is_blank (slice_index rest.now 0) ≡ false }
    requires no_letter { is_ascii_start (slice_index rest.now 0) ≡ false }
    requires no_symbol { none_begins (slice_index rest.now 0) symbols ≡ true }
    ensures { result ≡ front rest.now }
{
    let found = by_sort(rest);
    Front::new(found.shape, found.size)
}

/// The same, by the sort of the byte.
#[inline(never)]
fn by_sort(rest: &[u8]) -> Front
    requires some_bytes { 0 < length rest.now }
    requires no_blank { is_blank (slice_index rest.now 0) ≡ false }
    requires no_letter { is_ascii_start (slice_index rest.now 0) ≡ false }
    requires no_symbol { none_begins (slice_index rest.now 0) symbols ≡ true }
    ensures { result ≡ front rest.now }
{
    let first = rest[0];
    if first >= 128 {
        return beyond_ascii(rest);
    }
    if first.is_ascii_digit() {
        return Front::new(Shape::Digits, digits_length(rest));
    }
    if first == b'\'' {
        return quoted(rest);
    }
    if first == b'"' {
        return quoted(rest);
    }
    if first == b'`' {
        return ticked(rest);
    }
    if first == b'$' {
        return dollar(rest);
    }
    Front::new(Shape::Bad, 1)
}

/// A name that begins beyond ASCII, or a bad byte.
fn beyond_ascii(rest: &[u8]) -> Front
    requires some_bytes { 0 < length rest.now }
    requires first { 128 ≤ slice_index rest.now 0 }
    ensures { result ≡ front rest.now }
{
    match name_length(rest) {
        Some(size) => Front::new(Shape::Plain, size),
        None => Front::new(Shape::Bad, 1),
    }
}

/// A form that has to be closed and takes more bytes than stand before its close: where it is not closed, all bytes up
/// to the end are bad.
fn closed(shape: Shape, size: Option<usize>, more: usize, rest: &[u8]) -> Front
    requires { IfSome size (λ n. n + more ≤ length rest.now) }
    ensures { result ≡ closed shape (option_map (λ n. n + more) size) rest.now }
{
    match size {
        Some(size) => Front::new(shape, size + more),
        None => Front::new(Shape::Bad, rest.len()),
    }
}

/// A text from its opening quote or backtick.
fn between(shape: Shape, rest: &[u8]) -> Front
    requires some_bytes { 0 < length rest.now }
    requires no_backslash { slice_index rest.now 0 ≢ 92 }
    ensures { result ≡ closed shape (option_map (λ n. n + 2) (quoted_length (slice_index rest.now 0) (drop 1 rest.now))) rest.now }
{
    closed(shape, quoted_length(&rest[1..], rest[0]), 2, rest)
}

/// A string, from its opening quote.
fn quoted(rest: &[u8]) -> Front
    requires some_bytes { 0 < length rest.now }
    requires first { (slice_index rest.now 0 ≡ 39) ⊎ (slice_index rest.now 0 ≡ 34) }
    ensures { result ≡ front rest.now }
{
    between(Shape::Quoted, rest)
}

/// A delimited name, from its opening backtick.
fn ticked(rest: &[u8]) -> Front
    requires some_bytes { 0 < length rest.now }
    requires first { slice_index rest.now 0 ≡ 96 }
    ensures { result ≡ front rest.now }
{
    between(Shape::Ticked, rest)
}

/// A parameter, from its `$`.
#[inline(never)]
fn dollar(rest: &[u8]) -> Front
    requires some_bytes { 0 < length rest.now }
    requires first { slice_index rest.now 0 ≡ 36 }
    ensures { result ≡ front rest.now }
{
    match named(&rest[1..]) {
        Some(name) => Front::new(dollar_shape(name.shape), name.size + 1),
        None => Front::new(Shape::Bad, 1),
    }
}

/// The shape of a `$` with what stands behind it.
fn dollar_shape(name: Shape) -> Shape
    ensures { result ≡ dollar_shape name }
{
    match name {
        Shape::Bad => Shape::Bad,
        _ => Shape::Dollar,
    }
}

/// The name at the front, delimited or not.
fn named(rest: &[u8]) -> Option<Front>
    ensures value { result ≡ option_or (plain rest.now) (ticked rest.now) }
    ensures bounds { IfSome result (λ f. f.size ≤ length rest.now) }
{
    match name_length(rest) {
        Some(size) => Some(Front::new(Shape::Plain, size)),
        None => delimited(rest),
    }
}

/// The delimited name at the front.
fn delimited(rest: &[u8]) -> Option<Front>
    ensures value { result ≡ ticked rest.now }
    ensures bounds { IfSome result (λ f. f.size ≤ length rest.now) }
{
    if rest.is_empty() {
        return None;
    }
    if rest[0] == b'`' {
        Some(between(Shape::Ticked, rest))
    } else {
        None
    }
}

/// A comment, or the symbol `/`.
fn slash(rest: &[u8]) -> Front
    requires some_bytes { 0 < length rest.now }
    requires first { slice_index rest.now 0 ≡ 47 }
    ensures { result ≡ front rest.now }
{
    let second = byte_at(rest, 1);
    if second == b'/' {
        return line_comment(rest);
    }
    if second == b'*' {
        return closed(Shape::Gap, block_length(&rest[2..]), 4, rest);
    }
    sign(SLASH, 1)
}

/// A comment, or one of the symbols `->` and `-`.
fn minus(rest: &[u8]) -> Front
    requires some_bytes { 0 < length rest.now }
    requires first { slice_index rest.now 0 ≡ 45 }
    ensures { result ≡ front rest.now }
{
    let second = byte_at(rest, 1);
    if second == b'-' {
        return line_comment(rest);
    }
    if second == b'>' {
        sign(RIGHT_ARROW, 2)
    } else {
        sign(MINUS, 1)
    }
}

/// A comment up to the end of the line, from its two first bytes.
fn line_comment(rest: &[u8]) -> Front
    requires { 2 ≤ length rest.now }
    ensures { result ≡ form Gap (line_length (drop 2 rest.now) + 2) }
{
    Front::new(Shape::Gap, line_length(&rest[2..]) + 2)
}
