//! The bytes that a graph type is kept as, read and written.
//!
//! The promise: a type is read where all of the bytes spell it, and what is written is its spelling, which
//! `specs/TypeSpelling.antt` says. It stands on gql_fields (texts, numbers, label sets), gql_graph (graph types) and gql_values3.
#![tactic(auto)]

mod body;
mod byte;
mod counted;
mod edge_type;
mod graph_type;
mod kind;
mod node_type;
mod property_type;
mod type_ends;

pub use graph_type::{graph_type_of_bytes, put_graph_type};
