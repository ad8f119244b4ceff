//! Pieces: the bytes of a session, cut at each symbol `;`.

ghost use Rattle.std.specs.Prelude.{◌≡◌, ◌≤◌, [], ◌∷◌, ◌++◌, length, IfOk, OnOk};
ghost use Rattle.gql_lexer.specs.Pieces.{is_end, piece, pieces_of, NoEndFrom};

use crate::front::{Shape, longest_form};
use crate::symbols::SEMICOLON;
use gql_values3::{Bytes, OutOfMemory, Sequence};
use memchr::memrchr;
use std::alloc::Global;

/// Some bytes of a session, without the `;` that ended them.
#[derive(Debug, Drop)]
pub struct Piece {
    pub bytes: Bytes,
    /// Whether a `;` ended it.
    pub ended: bool,
}

/// The pieces of a session.
pub type Pieces = Sequence<Piece>;

/// Cuts the bytes of a session at each `;` that is a symbol. A `;` within a string, a delimited name, a comment or
/// bad bytes ends nothing. No bytes have no piece, and an empty rest behind the last `;` is none.
pub fn pieces(alloc: Global, bytes: &[u8]) -> Result<Pieces, OutOfMemory>
    ensures { IfOk result (λ ps. ps ≡ pieces_of bytes.now) }
{
    let mut all = Sequence::new(alloc);
    let read = up_to_last(bytes);
    let mut start = 0;
    let mut at = 0;
    while at < read {
        let found = longest_form(&bytes[at..]);
        if !is_end(found.shape) {
            at += found.size;
            continue;
        }
        cut(alloc, &mut all, &bytes[start..at], true)?;
        at += found.size;
        start = at;
    }
    if start < bytes.len() {
        cut(alloc, &mut all, &bytes[start..], false)?;
    }
    Ok(all)
}

/// How many bytes stand up to the last `;` and with it. Behind it nothing ends a piece, whatever the forms there are.
fn up_to_last(bytes: &[u8]) -> usize
    ensures bound { result ≤ length bytes.now }
    ensures behind { NoEndFrom result bytes.now }
{
    match memrchr(b';', bytes) {
        Some(place) => place + 1,
        None => 0,
    }
}

/// Whether the form is the symbol `;`.
fn is_end(shape: Shape) -> bool
    ensures { result ≡ is_end shape }
{
    match shape {
        Shape::Symbol(place) => place == SEMICOLON,
        _ => false,
    }
}

/// Adds a piece.
fn cut(alloc: Global, all: &mut Pieces, bytes: &[u8], ended: bool) -> Result<(), OutOfMemory>
    ensures { OnOk result (all.new ≡ all.old ++ piece bytes.now ended ∷ []) }
{
    let mut copy = Sequence::new(alloc);
    copy.append(bytes)?;
    all.push(Piece { bytes: copy, ended })?;
    Ok(())
}
