//! The lexemes of the language, and the pieces of a session.
//!
//! `pieces` cuts the bytes of a session at each `;` that is a symbol, and `lexemes` reads the bytes of a piece. The
//! crate's promise is that both answer exactly what `specs/` says: at each place, from the left, the longest form
//! counts. It stands on `unicode_ident` and `bstr` for the characters of names, on `memchr` for the last `;`, and on
//! `gql_values3` for texts and reserved words.
#![tactic(auto)]

mod fault;
mod first;
mod front;
mod laws;
mod lengths;
mod lexeme;
mod piece;
mod quotes;
mod symbol;
pub mod symbols;
#[cfg(test)]
mod tests;
pub mod words;

pub use fault::LexFault;
pub use laws::{
    lexemes_are_one_list, pieces_are_read_one_by_one, pieces_join, spans_join,
    the_longest_form_counts, what_is_open_is_bad,
};
pub use lexeme::{Lexeme, Lexemes, lexemes};
pub use piece::{Piece, Pieces, pieces};
