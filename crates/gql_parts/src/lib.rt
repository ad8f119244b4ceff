//! The parts that several grammars share: lists between commas, optional parts, fillers, maps, WHERE.
//!
//! The promise: each of its readers gives the longest front of some lexemes that derives the part (`specs/FillerGrammar.antt`,
//! `specs/Values.antt`, `specs/Parts.antt`), with its one tree; a word or a symbol that nothing follows with which the part could
//! go on is left.
#![tactic(auto)]

mod braces;
mod fillers;
mod item;
mod laws;
mod repeated;
mod values;

pub use braces::list_to_brace;
pub use fillers::{after_colon, filler, item_behind_colon, variable, where_value};
pub use item::{Item, item_behind_sign, item_behind_word, item_or_nothing, list};
pub use laws::the_longest_part_is_read;
pub use repeated::many;
pub use values::{Parts, named_value, value};
