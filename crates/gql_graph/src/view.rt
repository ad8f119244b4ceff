//! A graph as what queries look at.

use crate::graph::Graph;
use crate::lookup::{nth_labelled, nth_touching};
use crate::names::{contains_name, key_of_place, name_of_place};
use gql_values3::{EdgeId, Elem, Ends, NodeId, Text, Value, View};

impl View for Graph {
    ghost graph = { λ g. g.graph };

    fn has_node(&self, node: NodeId) -> bool {
        self.node(node).is_some()
    }

    fn ends(&self, edge: EdgeId) -> Option<Ends> {
        Some(self.edge(edge)?.ends)
    }

    fn node_count(&self) -> u32 {
        self.count_nodes()
    }

    fn node_at(&self, index: u32) -> Option<NodeId> {
        Some(self.nodes().get(index as usize)?.number)
    }

    fn has_label(&self, elem: Elem, label: &str) -> bool {
        match self.labels(elem) {
            None => false,
            Some(labels) => contains_name(labels.as_slice(), label),
        }
    }

    fn labelled(&self, label: &str, index: u32) -> Option<NodeId> {
        nth_labelled(self.nodes(), label, index)
    }

    fn any_label(&self, elem: Elem) -> bool {
        match self.labels(elem) {
            None => false,
            Some(labels) => !labels.is_empty(),
        }
    }

    fn property(&self, elem: Elem, name: &str) -> Option<&Value> {
        self.properties(elem)?.get(name)
    }

    fn touching(&self, node: NodeId, index: u32) -> Option<EdgeId> {
        nth_touching(self.edges(), node, index)
    }

    fn label_at(&self, elem: Elem, index: u64) -> Option<&Text> {
        name_of_place(self.labels(elem)?.as_slice(), index)
    }

    fn name_at(&self, elem: Elem, index: u64) -> Option<&Text> {
        key_of_place(self.properties(elem)?, index)
    }

    fn next_node(&self) -> u32 {
        self.next_node()
    }

    fn next_edge(&self) -> u32 {
        self.next_edge()
    }
}
