//! A graph as what can be edited: the room that changes need, and each change as it acts.

ghost use Rattle.std.specs.Prelude.{◌≡◌, count_by};
ghost use Rattle.gql_graph.specs.Machinery.AfterChange.{adds_node, adds_edge};

use crate::change::{Change, Changes};
use crate::edit::Edit;
use crate::graph::Graph;
use gql_values3::OutOfMemory;
use std::alloc::Global;

impl Edit for Graph {
    ghost use Rattle.gql_graph.specs.Room.{has_room};

    ghost has_room = { has_room };

    fn holds_itself(&self) {
        // No list is longer than its capacity; the proof reads this off the lists' type.
        let _lengths = (self.nodes.len(), self.edges.len());
    }

    fn make_room(&mut self, _alloc: Global, changes: &Changes) -> Result<(), OutOfMemory> {
        self.nodes.reserve(new_nodes(changes.as_slice()))?;
        self.edges.reserve(new_edges(changes.as_slice()))?;
        Ok(())
    }

    fn make(&mut self, change: Change) -> Change {
        match change {
            Change::NewNode(node) => self.add_node(node),
            Change::UnNode(node) => self.unadd_node(node),
            Change::NewEdge(edge) => self.add_edge(edge),
            Change::UnEdge(edge) => self.unadd_edge(edge),
            Change::OutNode(node) => self.out_node(node),
            Change::BackNode(node) => self.back_node(node),
            Change::OutEdge(edge) => self.out_edge(edge),
            Change::BackEdge(edge) => self.back_edge(edge),
            Change::SwapNode(node) => self.swap_node(node),
            Change::SwapEdge(edge) => self.swap_edge(edge),
        }
    }
}

fn new_nodes(changes: &[Change]) -> usize
    ensures { result ≡ count_by adds_node changes.now }
{
    let mut count = 0;
    for change in changes {
        if adds_node(change) {
            count += 1;
        }
    }
    count
}

fn new_edges(changes: &[Change]) -> usize
    ensures { result ≡ count_by adds_edge changes.now }
{
    let mut count = 0;
    for change in changes {
        if adds_edge(change) {
            count += 1;
        }
    }
    count
}

fn adds_node(change: &Change) -> bool
    ensures { result ≡ adds_node change.now }
{
    matches!(change, Change::NewNode(_) | Change::BackNode(_))
}

fn adds_edge(change: &Change) -> bool
    ensures { result ≡ adds_edge change.now }
{
    matches!(change, Change::NewEdge(_) | Change::BackEdge(_))
}
