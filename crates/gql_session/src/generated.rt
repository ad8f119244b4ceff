//! The text of a selftest's session.
ghost use Rattle.std.specs.Prelude.{◌≡◌, ◌<◌, ◌^◌, ◌++◌, map, codes, IfOk, OnOk};
ghost use Rattle.std.specs.List.{flat_map};
ghost use Rattle.gql_session.specs.GeneratedText.{edge_text, edge_texts, generated, insert_text, listed, node_text, numbers_below};
ghost use Rattle.gql_session.specs.Machinery.Listing.{behind_comma, comma_before};

use gql_ast::push_number;
use gql_values3::{Bytes, OutOfMemory, Text};
use std::alloc::Global;

/// What is asked of the ring.
const MATCH: &str =
    "MATCH p = ANY SHORTEST (x:N WHERE x.i < 4)-[:R]->*(y:N) RETURN COUNT(*) AS pairs, SUM(PATH_LENGTH(p)) AS hops;\n";

/// The session of a ring of so many nodes.
pub fn generate(alloc: Global, n: u32) -> Result<Bytes, OutOfMemory>
    ensures { IfOk result (λ bytes. bytes ≡ generated n) }
{
    let mut text = Text::new(alloc);
    push_insert(&mut text, u64::from(n))?;
    text.push_str(MATCH)?;
    let mut bytes = Bytes::new(alloc);
    bytes.append(text.as_str().as_bytes())?;
    Ok(bytes)
}

/// Adds the statement that makes the ring.
fn push_insert(text: &mut Text, n: u64) -> Result<(), OutOfMemory>
    requires { n < 2 ^ 32 }
    ensures { OnOk result (text.new ≡ text.old ++ insert_text n) }
{
    text.push_str("INSERT ")?;
    push_nodes(text, n)?;
    push_edges(text, n)?;
    text.push_str(";\n")?;
    Ok(())
}

/// Adds the nodes, each behind a comma but for the first.
fn push_nodes(text: &mut Text, n: u64) -> Result<(), OutOfMemory>
    ensures { OnOk result (text.new ≡ text.old ++ listed (map node_text (numbers_below n))) }
{
    for i in 0..n {
        push_comma_before(text, i)?;
        push_node(text, i)?;
    }
    Ok(())
}

/// Adds the edges, each behind a comma.
fn push_edges(text: &mut Text, n: u64) -> Result<(), OutOfMemory>
    requires { n < 2 ^ 32 }
    ensures { OnOk result (text.new ≡ text.old ++ flat_map behind_comma (flat_map (edge_texts n) (numbers_below n))) }
{
    for i in 0..n {
        push_edge(text, i, (i + 1) % n)?;
        push_edge(text, i, (i + 10) % n)?;
    }
    Ok(())
}

fn push_comma_before(text: &mut Text, i: u64) -> Result<(), OutOfMemory>
    ensures { OnOk result (text.new ≡ text.old ++ comma_before i) }
{
    if i == 0 {
        return Ok(());
    }
    text.push_str(", ")
}

fn push_node(text: &mut Text, i: u64) -> Result<(), OutOfMemory>
    ensures { OnOk result (text.new ≡ text.old ++ node_text i) }
{
    text.push_str("(v")?;
    push_number(text, i)?;
    text.push_str(":N {i: ")?;
    push_number(text, i)?;
    text.push_str("})")
}

/// Adds a comma and an edge.
fn push_edge(text: &mut Text, i: u64, j: u64) -> Result<(), OutOfMemory>
    ensures { OnOk result (text.new ≡ text.old ++ behind_comma (edge_text i j)) }
{
    text.push_str(", ")?;
    push_bare_edge(text, i, j)
}

fn push_bare_edge(text: &mut Text, i: u64, j: u64) -> Result<(), OutOfMemory>
    ensures { OnOk result (text.new ≡ text.old ++ edge_text i j) }
{
    text.push_str("(v")?;
    push_number(text, i)?;
    text.push_str(")-[:R]->(v")?;
    push_number(text, j)?;
    text.push_str(")")
}
