//! Graph types: whether a property graph conforms to one, and which one a type's text means.
//!
//! The promise: `fits` tells the first element of a graph that fits no type, nodes before edges, or that there is none. `parse_type`
//! reads the longest front of some lexemes that derives a type, `graph_type` gives the type that it means, and `wrong_alias` and
//! `repeated_property` what is refused of it. It stands on gql_graph, gql_ast, gql_parts, gql_front, gql_lexer and gql_eval.
#![tactic(auto)]

mod aliases;
mod content;
mod element;
mod ends;
mod kinds;
mod label_list;
mod laws;
mod matching;
mod meaning;
mod misfit;
mod nodes;
mod order;
mod places;
mod repeated;
mod segment;
mod sets;
mod type_content;
mod type_element;
mod type_property;

pub use aliases::wrong_alias;
pub use element::{edge_fits, node_fits};
pub use label_list::optional_labels;
pub use laws::the_longest_type_is_read;
pub use meaning::graph_type;
pub use misfit::{Misfit, fits};
pub use order::is_graph_type;
pub use repeated::repeated_property;
pub use segment::{arrow_at, closing_of};
pub use type_element::parse_type;
