//! What lets a path pattern have endlessly many matches, and is therefore refused before it runs.
//!
//! Three questions of a normal pattern, which its promise answers exactly as `gql_norm` defines them: whether some quantifier
//! repeats a part that may pass no edge, whether some quantifier without an upper bound is unprotected, and which reference is
//! the first to cross such a quantifier. None of them takes memory. It stands on the normal patterns of `gql_norm`.
#![tactic(auto)]

mod before;
mod lengths;
mod names;
mod open_ends;
mod references;

pub use lengths::empty_loop;
pub use open_ends::unbounded;
pub use references::group_ref;
