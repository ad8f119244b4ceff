//! Whether two graphs are the same, found without a copy and without memory.

ghost use Rattle.std.specs.Prelude.{◌≡◌, map};
ghost use Rattle.gql_graph.specs.Edits.{same_ends};
ghost use Rattle.gql_graph.specs.Machinery.Shown.{shown};
ghost use Rattle.gql_txn.specs.Machinery.Same.{same_texts, same_property, same_properties, same_node, same_edge, same_nodes, same_edges, same_numbers, same_graph};

use gql_graph::Graph;
use gql_values3::{EdgeRecord, Ends, NodeRecord, Text, Value, total_cmp};

/// Whether both have the same elements with the same content, and the same next numbers.
pub fn same_graph(some: &Graph, other: &Graph) -> bool
    ensures { result ≡ same_graph some.now.graph other.now.graph }
{
    same_numbers(some, other)
        && same_nodes(some.nodes(), other.nodes())
        && same_edges(some.edges(), other.edges())
}

/// Whether the next node and the next edge of both take the same numbers.
pub fn same_numbers(some: &Graph, other: &Graph) -> bool
    ensures { result ≡ same_numbers some.now.graph other.now.graph }
{
    some.next_node() == other.next_node() && some.next_edge() == other.next_edge()
}

fn same_nodes(some: &[NodeRecord], others: &[NodeRecord]) -> bool
    ensures { result ≡ same_nodes some.now others.now }
{
    if some.len() != others.len() {
        return false;
    }
    for i in 0..some.len() {
        if !same_node(&some[i], &others[i]) {
            return false;
        }
    }
    true
}

fn same_edges(some: &[EdgeRecord], others: &[EdgeRecord]) -> bool
    ensures { result ≡ same_edges some.now others.now }
{
    if some.len() != others.len() {
        return false;
    }
    for i in 0..some.len() {
        if !same_edge(&some[i], &others[i]) {
            return false;
        }
    }
    true
}

/// Whether both have the same number, labels and properties.
pub fn same_node(a: &NodeRecord, b: &NodeRecord) -> bool
    ensures { result ≡ same_node a.now b.now }
{
    a.number.0 == b.number.0
        && (same_texts(a.labels.as_slice(), b.labels.as_slice())
            && same_properties(a.properties.as_slice(), b.properties.as_slice()))
}

/// Whether both have the same number, ends, labels and properties.
pub fn same_edge(a: &EdgeRecord, b: &EdgeRecord) -> bool
    ensures { result ≡ same_edge a.now b.now }
{
    a.number.0 == b.number.0
        && (same_ends(a.ends, b.ends)
            && (same_texts(a.labels.as_slice(), b.labels.as_slice())
                && same_properties(a.properties.as_slice(), b.properties.as_slice())))
}

fn same_ends(a: Ends, b: Ends) -> bool
    ensures { result ≡ same_ends a b }
{
    match (a, b) {
        (
            Ends::Directed { source, target },
            Ends::Directed {
                source: other_source,
                target: other_target,
            },
        ) => source.0 == other_source.0 && target.0 == other_target.0,
        (
            Ends::Undirected { low, high },
            Ends::Undirected {
                low: other_low,
                high: other_high,
            },
        ) => low.0 == other_low.0 && high.0 == other_high.0,
        _ => false,
    }
}

fn same_texts(some: &[Text], others: &[Text]) -> bool
    ensures { result ≡ same_texts some.now others.now }
{
    if some.len() != others.len() {
        return false;
    }
    for i in 0..some.len() {
        if some[i].as_str() != others[i].as_str() {
            return false;
        }
    }
    true
}

fn same_properties(some: &[(Text, Value)], others: &[(Text, Value)]) -> bool
    ensures { result ≡ same_properties (map shown some.now) (map shown others.now) }
{
    if some.len() != others.len() {
        return false;
    }
    for i in 0..some.len() {
        if !same_property(&some[i], &others[i]) {
            return false;
        }
    }
    true
}

fn same_property(a: &(Text, Value), b: &(Text, Value)) -> bool
    ensures { result ≡ same_property (shown a.now) (shown b.now) }
{
    a.0.as_str() == b.0.as_str() && total_cmp(&a.1, &b.1).is_eq()
}
