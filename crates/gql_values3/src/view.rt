//! How a graph is looked at: what can be asked of its nodes and edges.

ghost use Rattle.std.specs.Prelude.{◌≡◌, ◌≢◌, [], IsTrue, ◌↔◌, option_map, slice_get, length};
ghost use Rattle.std.specs.Option.{option_copied};
ghost use Rattle.gql_values3.specs.PropertyGraph.{PropertyGraph, is_graph};
ghost use Rattle.gql_values3.specs.Meaning.{datum_of};
ghost use Rattle.gql_values3.specs.Lookup.{has_node, ends_of, node_at, labels_of, has_label, labelled_nodes, property_of, names_of, touching_edges};

use crate::element::{EdgeId, Elem, Ends, NodeId};
use crate::text::Text;
use crate::value::Value;

/// What can be looked up in a property graph. No call takes memory, and each answer is that of a filter of the
/// graph's two lists, whatever index the implementation keeps.
pub trait View: Sync {
    /// The graph that is looked at.
    ghost graph: { Self → PropertyGraph };

    fn has_node(&self, node: NodeId) -> bool
        ensures { result ≡ has_node (graph self.now) node };

    /// None exactly where there is no such edge.
    fn ends(&self, edge: EdgeId) -> Option<Ends>
        ensures { result ≡ ends_of (graph self.now) edge };

    /// How many nodes there are. What is looked at is a graph.
    fn node_count(&self) -> u32
        ensures count { result ≡ length (graph self.now).nodes }
        ensures graph { IsTrue (is_graph (graph self.now)) };

    /// The node of that place, from 0, by ascending number.
    fn node_at(&self, index: u32) -> Option<NodeId>
        ensures { result ≡ node_at (graph self.now) index };

    fn has_label(&self, elem: Elem, label: &str) -> bool
        ensures { result ≡ has_label (graph self.now) elem label.now };

    /// The node of that place, from 0, among the nodes with the label, by ascending number.
    fn labelled(&self, label: &str, index: u32) -> Option<NodeId>
        ensures { result ≡ slice_get (labelled_nodes (graph self.now) label.now) index };

    /// Whether the element is there and has a label.
    fn any_label(&self, elem: Elem) -> bool
        ensures { IsTrue result ↔ (labels_of (graph self.now) elem ≢ []) };

    fn property(&self, elem: Elem, name: &str) -> Option<&Value>
        ensures { option_map datum_of (option_copied result) ≡ property_of (graph self.now) elem name.now };

    /// The edge of that place, from 0, among the edges that touch the node, by ascending number. A loop stands once.
    fn touching(&self, node: NodeId, index: u32) -> Option<EdgeId>
        ensures { result ≡ slice_get (touching_edges (graph self.now) node) index };

    /// The label of that place, from 0, by ascending bytes.
    fn label_at(&self, elem: Elem, index: u64) -> Option<&Text>
        ensures { option_copied result ≡ slice_get (labels_of (graph self.now) elem) index };

    /// The property name of that place, from 0, by ascending bytes.
    fn name_at(&self, elem: Elem, index: u64) -> Option<&Text>
        ensures { option_copied result ≡ slice_get (names_of (graph self.now) elem) index };

    /// The number that the next new node takes.
    fn next_node(&self) -> u32
        ensures { result ≡ (graph self.now).next_node };

    /// The number that the next new edge takes.
    fn next_edge(&self) -> u32
        ensures { result ≡ (graph self.now).next_edge };
}
