//! The values of the database, the property graph, and how a graph is looked at.
//!
//! Everything above stands on these types. A value has one plain meaning, the `Datum` of `specs/Datum.antt`,
//! which `datum_of` gives; a graph means the `PropertyGraph` of `specs/PropertyGraph.antt`. The crate's promise is
//! that each function answers exactly what the definitions in `specs/` say of these meanings. It stands on std and `unicode_ident`,
//! which tells the characters of names.
#![tactic(auto)]

mod comparison;
mod element;
mod integer;
mod keyed;
mod memory;
mod names;
mod order;
mod path;
mod prop_kind;
mod properties;
mod records;
mod sequence;
mod short_text;
mod table;
#[cfg(test)]
mod tests;
mod text;
mod truth;
mod value;
mod view;

pub use comparison::{Comparison, NotComparable, compare3};
pub use element::{EdgeId, Elem, Ends, NodeId};
pub use integer::{int_of, number_within};
pub use keyed::{Keyed, keys_ascend};
pub use memory::OutOfMemory;
pub use names::{plain_name, reserved_place, spells_name};
pub use order::{items_cmp, total_cmp};
pub use path::PathValue;
pub use prop_kind::{PropKind, Scalar};
pub use properties::Properties;
pub use records::{EdgeRecord, NodeRecord};
pub use sequence::{Bytes, Names, Numbers, Sequence};
pub use table::{Binding, Bound, ColumnKind, Columns, Elems, Params, Row, Rows, Table};
pub use text::Text;
pub use truth::{Truth, and3, not3, or3, xor3};
pub use value::{List, Value};
pub use view::View;
