//! The records that a catalog is kept as, and how they are read and written.
//!
//! The promise of `read`: the catalog is the one that the records stand for, each byte of them, and a fault is the first
//! record that cannot stand where it stands. That of `records`: they stand for the catalog; each of the other calls makes
//! one record, or its key. Which records a catalog has is said in `specs/`, by a spelling of each record. It stands on
//! gql_graph, gql_type, gql_fields, gql_typecode and gql_ports.
#![tactic(auto)]

mod catalog;
mod fault;
mod form;
mod joining;
mod noting;
mod parts;
mod places;
mod reading;
mod seen;
mod writing;
mod writing_elements;
mod writing_keys;
mod writing_parts;

pub use fault::ReadFault;
pub use reading::read;
pub use writing::records;
pub use writing_elements::{edge_record, node_record};
pub use writing_keys::{edge_key, node_key};
pub use writing_parts::graph_record;
