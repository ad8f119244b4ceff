//! Canonical texts: how values, names, label expressions and expressions print.
//!
//! Each function adds to the end of a text. Where it is an `Err` there was no memory, and the text may hold a
//! beginning of what was to be added: it is of no further use.

mod escapes;
mod expressions;
mod labels;
mod names;
mod numbers;
mod values;
mod words;

pub use escapes::{Setting, push_escaped};
pub use expressions::expr_text;
pub use labels::push_label;
pub use names::{push_any_name, push_header, push_name, push_parameter, push_property};
pub use numbers::{a_number_prints_in_decimal, push_digits, push_integer, push_number};
pub use values::{push_edge, push_node, push_value};
