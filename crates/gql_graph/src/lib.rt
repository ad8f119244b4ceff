//! The property graph in memory, and the catalog of graphs and graph types by name.
//!
//! A `Graph` is two lists of records and two numbers, seen as the `PropertyGraph` of gql_values3. The promise: every
//! `Graph` is one, since `Graph::of` gives one exactly where `is_graph` holds, and each look-up answers what `View` says
//! of it. It stands on gql_values3 alone.
#![tactic(auto)]

mod catalog;
mod change;
mod copies;
mod edge_steps;
mod edit;
mod edits;
mod graph;
mod graph_type;
mod held;
mod lookup;
mod named;
mod names;
mod node_steps;
mod numbered;
mod numbers;
mod records;
mod storable;
mod type_copies;
mod view;

pub use catalog::Catalog;
pub use change::{Change, Changes};
pub use edit::Edit;
pub use gql_values3::{EdgeRecord, NodeRecord};
pub use graph::{EdgeRecords, Graph, NodeRecords};
pub use graph_type::{EdgeType, EdgeTypes, GraphType, NodeType, NodeTypes, PropType, PropTypes};
pub use held::Held;
pub use lookup::find_node;
pub use storable::is_property;
