//! Expressions and label expressions, read from lexemes.
//!
//! The promise: `parse_expr`, `expression` and `label_expression` read the longest front of some lexemes that derives an expression
//! or a label expression (`specs/Grammar.antt`, `specs/LabelGrammar.antt`), with its one tree, and `too_deep` says whether brackets
//! are nested more than 64 deep.
#![tactic(auto)]

mod atom_word;
mod brackets;
mod chain;
mod depth;
mod ending;
mod labels;
mod laws;
mod leaves;
mod levels;
mod nodes;
mod parse;
mod test_word;

pub use depth::too_deep;
pub use labels::label_expression;
pub use laws::{expressions_derive_once, labels_derive_once, the_longest_label_is_read};
pub use leaves::quantifier_of;
pub use levels::expression;
pub use parse::parse_expr;
