//! Normal patterns, and what a match of one is: the definitions that path patterns are proved against.
//!
//! `specs/` leads from a graph pattern as it was written to its normal form, its expansions, their matches on a graph, reduced
//! bindings, selection and the rows of MATCH, and says what is refused of a pattern before it runs. The laws tell that these
//! definitions are sane. It stands on the trees of gql_ast, the scopes of gql_eval and what gql_expr_checks says of one expression.
#![tactic(auto)]

mod copies;
mod declaration;
mod declared;
mod degree;
mod element;
mod element_forms;
mod item;
mod laws;
mod match_fault;
mod normal_form;
mod normal_parts;
mod numbers;
mod part;
mod path;
mod places;
mod reduced;
mod selectors;
mod sizes;
mod starts;

pub use copies::{copied_condition, copied_element, copied_name};
pub use declaration::{Declarations, Declared, visible};
pub use declared::{add_declared, declared_in};
pub use degree::{Degree, wider};
pub use element::{ElementPattern, Predicate, Predicates};
pub use item::Item;
pub use laws::{
    acyclic_is_simple, acyclic_is_trail, acyclic_matches_stay, bindings_are_finite,
    cells_fit_columns, match_tables_are_one, match_tables_grow, members_are_paths,
    modes_admit_beginnings, row_order_has_no_duplicates, row_order_is_total, rows_fit_columns,
};
pub use match_fault::MatchFault;
pub use normal_form::normal;
pub use part::{Part, PartList, PartSub};
pub use path::{NormalPath, NormalPaths, NormalPattern, Selector};
pub use places::plus;
pub use reduced::{NameList, Reduced, ReducedList};
pub use sizes::{next_entry, size};
pub use starts::{RowOnGraph, StartLists, StartListsOfEach, StartNodes};
