//! The kept graph `home` that sessions named `kept_..` begin with, as the records of its store.
//!
//! It has five nodes, without properties and without edges, since records of these are not read yet:
//!
//! | Node | Labels |
//! |---|---|
//! | 2 | `A` |
//! | 3 | `A`, `B` |
//! | 5 | none |
//! | 8 | `B`, `match`, `two words` |
//! | 9 | `A`, `C`, `Ä` |
//!
//! Its next node is 12 and its next edge 7, as of a graph whose nodes 1, 4, 6, 7, 10 and 11 and edges 1 to 6 were deleted.

use gql_ports::{Record, Records};
use gql_values3::{Bytes, OutOfMemory};
use std::alloc::Global;

const NEXT_NODE: u32 = 12;

const NEXT_EDGE: u32 = 7;

/// The bytes that begin the records of a graph and of a node, and stand for a graph without a type.
const GRAPH: u8 = 2;

const NODE: u8 = 3;

const UNTYPED: u8 = 0;

pub fn kept_records(alloc: Global) -> Result<Records, OutOfMemory> {
    let mut records = Records::new(alloc);
    records.put(version(alloc)?)?;
    records.put(home(alloc)?)?;
    records.put(node(alloc, 2, &["A"])?)?;
    records.put(node(alloc, 3, &["A", "B"])?)?;
    records.put(node(alloc, 5, &[])?)?;
    records.put(node(alloc, 8, &["B", "match", "two words"])?)?;
    records.put(node(alloc, 9, &["A", "C", "Ä"])?)?;
    Ok(records)
}

/// The record of the version, 1.
fn version(alloc: Global) -> Result<Record, OutOfMemory> {
    let mut key = Bytes::new(alloc);
    key.push(0)?;
    let mut value = Bytes::new(alloc);
    value.push(1)?;
    Ok(Record { key, value })
}

/// The record of the graph.
fn home(alloc: Global) -> Result<Record, OutOfMemory> {
    let key = key_of_home(alloc, GRAPH)?;
    let mut value = Bytes::new(alloc);
    value.push(UNTYPED)?;
    value.append(&NEXT_NODE.to_be_bytes())?;
    value.append(&NEXT_EDGE.to_be_bytes())?;
    Ok(Record { key, value })
}

/// The record of a node with these labels, which strictly ascend by bytes, and without properties.
fn node(alloc: Global, number: u32, labels: &[&str]) -> Result<Record, OutOfMemory> {
    let mut key = key_of_home(alloc, NODE)?;
    key.append(&number.to_be_bytes())?;
    let mut value = Bytes::new(alloc);
    append_count(&mut value, labels.len())?;
    for label in labels {
        append_text(&mut value, label)?;
    }
    append_count(&mut value, 0)?;
    Ok(Record { key, value })
}

/// What the keys of this kind begin with in the graph home.
fn key_of_home(alloc: Global, kind: u8) -> Result<Bytes, OutOfMemory> {
    let mut key = Bytes::new(alloc);
    key.push(kind)?;
    append_text(&mut key, "home")?;
    Ok(key)
}

/// A text is the count of its bytes, and these.
fn append_text(bytes: &mut Bytes, text: &str) -> Result<(), OutOfMemory> {
    append_count(bytes, text.len())?;
    bytes.append(text.as_bytes())
}

fn append_count(bytes: &mut Bytes, count: usize) -> Result<(), OutOfMemory> {
    bytes.append(&(count as u64).to_be_bytes())
}
