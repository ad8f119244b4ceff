//! Changes of data: INSERT, SET, REMOVE and DELETE over one graph.
//!
//! `plan` answers what the definition `change_of` of `specs/Changing.antt` says of a clause over a graph, rows and
//! parameters: the changes that lead to its graph, and its columns and rows, or its refusal. `reserve` takes all memory
//! that the changes need, and `apply` makes them without any. It stands on `gql_eval` and `gql_graph`.
#![tactic(auto)]

mod acting;
mod assigned;
mod assigning;
mod assignment;
mod basis;
mod columns;
mod conflict;
mod copying;
mod deleted_numbers;
mod deletion;
mod fault;
mod filling;
mod given_properties;
mod insert;
mod insert_state;
mod laws;
mod leftover;
mod list;
mod making;
mod making_fault;
mod naming;
mod new_edge;
mod new_node;
mod planning;
mod prepared_item;
mod prepared_property;
mod prepared_spot;
mod questions;
mod remaining;
mod role;
mod row_spots;
mod set_clause;
mod spot_question;
mod spot_values;
mod storing;
mod swapping;
mod target;

pub use acting::{apply, reserve, undo};
pub use assignment::{Act, Assignment};
pub use fault::ChangeFault;
pub use laws::accepted_inserts_have_endpoints;
pub use list::{ChangeList, Undo};
pub use planning::{Planned, plan};
