//! The texts of values: strings between quotes, lists between brackets, and nodes, edges and paths by their numbers.

ghost use Rattle.std.specs.Prelude.{◌≡◌, ◌++◌, OnOk, map};
ghost use Rattle.std.specs.List.{flat_map};
ghost use Rattle.gql_values3.specs.Datum.{data_of};
ghost use Rattle.gql_values3.specs.Meaning.{datum_of};
ghost use Rattle.gql_ast.specs.ValueText.{value_text, items_text, more_items_text, string_text, node_text, edge_text, step_text, path_text};

use super::escapes::{Setting, push_escaped};
use super::numbers::{push_integer, push_number};
use gql_values3::{EdgeId, NodeId, OutOfMemory, PathValue, Text, Value};

/// Adds the text of a value.
#[cycle(value_text)]
pub fn push_value(text: &mut Text, value: &Value) -> Result<(), OutOfMemory>
    ensures { OnOk result (text.new ≡ text.old ++ value_text (datum_of value.now)) }
{
    match value {
        Value::Null => text.push_str("NULL"),
        Value::Bool(true) => text.push_str("TRUE"),
        Value::Bool(false) => text.push_str("FALSE"),
        Value::Int(integer) => push_integer(text, *integer),
        Value::Text(string) => push_string(text, string.as_str()),
        Value::List(list) => {
            text.push_str("[")?;
            push_items(text, list.as_slice())?;
            text.push_str("]")
        }
        Value::Node(node) => push_node(text, *node),
        Value::Edge(edge) => push_edge(text, *edge),
        Value::Path(path) => push_path(text, path),
    }
}

/// Adds the items of a list, with a comma and a space between two.
#[cycle(value_text)]
fn push_items(text: &mut Text, items: &[Value]) -> Result<(), OutOfMemory>
    ensures { OnOk result (text.new ≡ text.old ++ items_text (data_of (map datum_of items.now))) }
{
    match items.split_first() {
        None => Ok(()),
        Some((first, rest)) => {
            push_value(text, first)?;
            push_more_items(text, rest)
        }
    }
}

/// Adds items, each behind a comma and a space.
#[cycle(value_text)]
fn push_more_items(text: &mut Text, items: &[Value]) -> Result<(), OutOfMemory>
    ensures { OnOk result (text.new ≡ text.old ++ more_items_text (data_of (map datum_of items.now))) }
{
    for i in 0..items.len() {
        text.push_str(", ")?;
        push_value(text, &items[i])?;
    }
    Ok(())
}

/// Adds a string between its quotes.
fn push_string(text: &mut Text, string: &str) -> Result<(), OutOfMemory>
    ensures { OnOk result (text.new ≡ text.old ++ string_text string.now) }
{
    text.push_str("'")?;
    push_escaped(text, Setting::String, string)?;
    text.push_str("'")
}

/// Adds a node, by its number in parentheses.
pub fn push_node(text: &mut Text, node: NodeId) -> Result<(), OutOfMemory>
    ensures { OnOk result (text.new ≡ text.old ++ node_text node.0) }
{
    text.push_str("(")?;
    push_number(text, u64::from(node.0))?;
    text.push_str(")")
}

/// Adds an edge, by its number in brackets.
pub fn push_edge(text: &mut Text, edge: EdgeId) -> Result<(), OutOfMemory>
    ensures { OnOk result (text.new ≡ text.old ++ edge_text edge.0) }
{
    text.push_str("[")?;
    push_number(text, u64::from(edge.0))?;
    text.push_str("]")
}

/// Adds the nodes and edges of a path in order.
fn push_path(text: &mut Text, path: &PathValue) -> Result<(), OutOfMemory>
    ensures { OnOk result (text.new ≡ text.old ++ path_text path.now) }
{
    push_node(text, path.start())?;
    push_steps(text, path.steps())
}

fn push_steps(text: &mut Text, steps: &[(EdgeId, NodeId)]) -> Result<(), OutOfMemory>
    ensures { OnOk result (text.new ≡ text.old ++ flat_map step_text (map (λ s. (s.0.0, s.1.0)) steps.now)) }
{
    for step in steps {
        let (edge, node) = *step;
        push_edge(text, edge)?;
        push_node(text, node)?;
    }
    Ok(())
}
