//! The changes of a graph's edges, each with the one that undoes it.

ghost use Rattle.std.specs.Prelude.{IsTrue};
ghost use Rattle.gql_graph.specs.Edits.{changed, can_act};
ghost use Rattle.gql_graph.specs.Room.{has_room};
ghost use Rattle.gql_graph.specs.Machinery.AfterChange.{AfterChange};

use crate::change::Change;
use crate::graph::Graph;
use crate::numbered::{put_numbered, swap_numbered, take_numbered};
use gql_values3::{EdgeId, EdgeRecord};

impl Graph {
    /// Adds an edge of the next number.
    pub(crate) fn add_edge(&mut self, edge: EdgeRecord) -> Change
        requires acts { IsTrue (can_act (Change.NewEdge edge) self.old.graph) }
        requires room { IsTrue (has_room self.old (changed (Change.NewEdge edge) self.old.graph)) }
        ensures { AfterChange self.old (Change.NewEdge edge) self.new result }
    {
        let number = edge.number;
        self.edges.push_reserved(edge);
        self.next_edge += 1;
        Change::UnEdge(number)
    }

    /// Takes the newest edge back, and its number.
    pub(crate) fn unadd_edge(&mut self, edge: EdgeId) -> Change
        requires { IsTrue (can_act (Change.UnEdge edge) self.old.graph) }
        ensures { AfterChange self.old (Change.UnEdge edge) self.new result }
    {
        let record = take_numbered(&mut self.edges, edge.0);
        self.next_edge -= 1;
        Change::NewEdge(record)
    }

    /// Takes an edge out.
    pub(crate) fn out_edge(&mut self, edge: EdgeId) -> Change
        requires { IsTrue (can_act (Change.OutEdge edge) self.old.graph) }
        ensures { AfterChange self.old (Change.OutEdge edge) self.new result }
    {
        Change::BackEdge(take_numbered(&mut self.edges, edge.0))
    }

    /// Puts an edge in at the place of its number.
    pub(crate) fn back_edge(&mut self, edge: EdgeRecord) -> Change
        requires acts { IsTrue (can_act (Change.BackEdge edge) self.old.graph) }
        requires room { IsTrue (has_room self.old (changed (Change.BackEdge edge) self.old.graph)) }
        ensures { AfterChange self.old (Change.BackEdge edge) self.new result }
    {
        let number = edge.number;
        put_numbered(&mut self.edges, edge);
        Change::OutEdge(number)
    }

    /// Puts an edge in the place of the one of its number.
    pub(crate) fn swap_edge(&mut self, edge: EdgeRecord) -> Change
        requires { IsTrue (can_act (Change.SwapEdge edge) self.old.graph) }
        ensures { AfterChange self.old (Change.SwapEdge edge) self.new result }
    {
        Change::SwapEdge(swap_numbered(&mut self.edges, edge))
    }
}
