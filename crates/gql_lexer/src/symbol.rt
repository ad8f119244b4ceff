//! The symbols that begin with a byte with which others begin too.

ghost use Rattle.std.specs.Prelude.{◌≡◌, ◌<◌, length, slice_index};
ghost use Rattle.gql_lexer.specs.declared.front.Shape.TheVariants.{Symbol};
ghost use Rattle.gql_lexer.specs.Forms.{form, front};

use crate::front::{Front, Shape};
use crate::symbols::{
    BAR, COLON, DOUBLE_BAR, DOUBLE_COLON, GREATER, GREATER_OR_EQUAL, LEFT_ARROW, LEFT_RIGHT_ARROW,
    LEFT_TILDE, LESS, LESS_OR_EQUAL, MULTISET_BAR, NOT_EQUAL, RIGHT_TILDE, TILDE,
};

/// A symbol of some bytes, by its place in the list of symbols.
pub fn sign(place: u32, size: usize) -> Front
    ensures { result ≡ form (Symbol place) size }
{
    Front {
        shape: Shape::Symbol(place),
        size,
    }
}

/// The byte at a place, or NUL where there is none, which is in no symbol.
#[inline(always)]
pub fn byte_at(rest: &[u8], place: usize) -> u8
    ensures { result ≡ slice_index rest.now place }
{
    if place < rest.len() { rest[place] } else { 0 }
}

/// `<->`, `<-`, `<~`, `<>`, `<=` or `<`.
pub fn less(rest: &[u8]) -> Front
    requires some_bytes { 0 < length rest.now }
    requires first { slice_index rest.now 0 ≡ 60 }
    ensures { result ≡ front rest.now }
{
    let second = byte_at(rest, 1);
    if second == b'-' {
        return if byte_at(rest, 2) == b'>' {
            sign(LEFT_RIGHT_ARROW, 3)
        } else {
            sign(LEFT_ARROW, 2)
        };
    }
    if second == b'~' {
        return sign(LEFT_TILDE, 2);
    }
    if second == b'>' {
        return sign(NOT_EQUAL, 2);
    }
    if second == b'=' {
        return sign(LESS_OR_EQUAL, 2);
    }
    sign(LESS, 1)
}

/// `>=` or `>`.
pub fn greater(rest: &[u8]) -> Front
    requires some_bytes { 0 < length rest.now }
    requires first { slice_index rest.now 0 ≡ 62 }
    ensures { result ≡ front rest.now }
{
    if byte_at(rest, 1) == b'=' {
        sign(GREATER_OR_EQUAL, 2)
    } else {
        sign(GREATER, 1)
    }
}

/// `~>` or `~`.
pub fn tilde(rest: &[u8]) -> Front
    requires some_bytes { 0 < length rest.now }
    requires first { slice_index rest.now 0 ≡ 126 }
    ensures { result ≡ front rest.now }
{
    if byte_at(rest, 1) == b'>' {
        sign(RIGHT_TILDE, 2)
    } else {
        sign(TILDE, 1)
    }
}

/// `::` or `:`.
pub fn colon(rest: &[u8]) -> Front
    requires some_bytes { 0 < length rest.now }
    requires first { slice_index rest.now 0 ≡ 58 }
    ensures { result ≡ front rest.now }
{
    if byte_at(rest, 1) == b':' {
        sign(DOUBLE_COLON, 2)
    } else {
        sign(COLON, 1)
    }
}

/// `|+|`, `||` or `|`.
pub fn bar(rest: &[u8]) -> Front
    requires some_bytes { 0 < length rest.now }
    requires first { slice_index rest.now 0 ≡ 124 }
    ensures { result ≡ front rest.now }
{
    let second = byte_at(rest, 1);
    if second == b'|' {
        return sign(DOUBLE_BAR, 2);
    }
    if second == b'+' {
        return if byte_at(rest, 2) == b'|' {
            sign(MULTISET_BAR, 3)
        } else {
            sign(BAR, 1)
        };
    }
    sign(BAR, 1)
}
