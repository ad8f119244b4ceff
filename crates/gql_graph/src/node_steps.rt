//! The changes of a graph's nodes, each with the one that undoes it.

ghost use Rattle.std.specs.Prelude.{IsTrue};
ghost use Rattle.gql_graph.specs.Edits.{changed, can_act};
ghost use Rattle.gql_graph.specs.Room.{has_room};
ghost use Rattle.gql_graph.specs.Machinery.AfterChange.{AfterChange};

use crate::change::Change;
use crate::graph::Graph;
use crate::numbered::{put_numbered, swap_numbered, take_numbered};
use gql_values3::{NodeId, NodeRecord};

impl Graph {
    /// Adds a node of the next number.
    pub(crate) fn add_node(&mut self, node: NodeRecord) -> Change
        requires acts { IsTrue (can_act (Change.NewNode node) self.old.graph) }
        requires room { IsTrue (has_room self.old (changed (Change.NewNode node) self.old.graph)) }
        ensures { AfterChange self.old (Change.NewNode node) self.new result }
    {
        let number = node.number;
        self.nodes.push_reserved(node);
        self.next_node += 1;
        Change::UnNode(number)
    }

    /// Takes the newest node back, and its number.
    pub(crate) fn unadd_node(&mut self, node: NodeId) -> Change
        requires { IsTrue (can_act (Change.UnNode node) self.old.graph) }
        ensures { AfterChange self.old (Change.UnNode node) self.new result }
    {
        let record = take_numbered(&mut self.nodes, node.0);
        self.next_node -= 1;
        Change::NewNode(record)
    }

    /// Takes a node out.
    pub(crate) fn out_node(&mut self, node: NodeId) -> Change
        requires { IsTrue (can_act (Change.OutNode node) self.old.graph) }
        ensures { AfterChange self.old (Change.OutNode node) self.new result }
    {
        Change::BackNode(take_numbered(&mut self.nodes, node.0))
    }

    /// Puts a node in at the place of its number.
    pub(crate) fn back_node(&mut self, node: NodeRecord) -> Change
        requires acts { IsTrue (can_act (Change.BackNode node) self.old.graph) }
        requires room { IsTrue (has_room self.old (changed (Change.BackNode node) self.old.graph)) }
        ensures { AfterChange self.old (Change.BackNode node) self.new result }
    {
        let number = node.number;
        put_numbered(&mut self.nodes, node);
        Change::OutNode(number)
    }

    /// Puts a node in the place of the one of its number.
    pub(crate) fn swap_node(&mut self, node: NodeRecord) -> Change
        requires { IsTrue (can_act (Change.SwapNode node) self.old.graph) }
        ensures { AfterChange self.old (Change.SwapNode node) self.new result }
    {
        Change::SwapNode(swap_numbered(&mut self.nodes, node))
    }
}
