//! Graph patterns, read from lexemes.
//!
//! The promise: `parse_pattern` reads the longest front of some lexemes that derives a graph pattern (`specs/PatternGrammar.antt`,
//! with the grammars of paths, edges, quantifiers and prefixes beside it), and gives its one tree.
#![tactic(auto)]

mod edge;
mod laws;
mod levels;
mod mode;
mod path_chain;
mod path_pattern;
mod pattern;
mod prefix;
mod prefix_word;
mod quantifier;

pub use laws::{patterns_derive_once, the_longest_pattern_is_read};
pub use pattern::parse_pattern;
