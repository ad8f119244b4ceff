//! What is refused of a pattern for its expressions.
//!
//! A call for each code, which answers the first fault in the text exactly as `gql_norm` defines it: names that may not be named
//! (E08), misuses (E15), properties that a map names twice (E16), and parameters that aren't set (E23). What an expression does wrong
//! is asked of `gql_expr_checks`; here stand the walks over a pattern that ask it.
#![tactic(auto)]

mod misuses;
mod names;
mod parameters;
mod properties;
mod scope;
mod scope_walk;
mod scoped;
mod scoped_paths;
mod seen;
mod variables;
mod walk;

pub use misuses::check_pattern_misuse;
pub use names::check_pattern_names;
pub use parameters::check_pattern_parameters;
pub use properties::check_pattern_properties;
