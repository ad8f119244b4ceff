//! The fields that the records of a store are made of: numbers, texts, labels, values and properties, read and written.
//!
//! The promise: what is read is what the bytes spell, to the byte; what is written is the spelling. Both are said in
//! `specs/Spelling.antt`. It stands on gql_values3.
#![tactic(auto)]

mod bytes;
mod flag;
mod labels;
mod misread;
mod properties;
mod property_writing;
mod room;
mod value_writing;
mod values;
mod writing;

pub use bytes::{str_at, text_of, u32_at, u64_at};
pub use flag::{flag_of, put_flag};
pub use labels::label_set_of;
pub use misread::Misread;
pub use properties::properties_of;
pub use property_writing::put_properties;
pub use writing::{put_labels, put_text, put_u32, put_u64};
