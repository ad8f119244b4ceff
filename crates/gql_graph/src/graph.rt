//! The property graph: its nodes and edges by number, and the numbers that the next ones take.

ghost use Rattle.std.specs.Prelude.{◌≡◌, [], length, IfOk, IfSome, is_some, IsTrue};
ghost use Rattle.std.specs.Option.{option_copied};
ghost use Rattle.gql_values3.specs.PropertyGraph.{is_graph, are_edges};
ghost use Rattle.gql_values3.specs.Lookup.{node_of, edge_of, has_element, labels_in, labels_of, properties_in, properties_of};
ghost use Rattle.gql_graph.specs.Machinery.Ascending.{AscendsBy};

use crate::copies::{copy_edges, copy_nodes};
use crate::numbered::find_numbered;
use crate::numbers::numbers_fit;
use crate::records::{edge_records_fit, node_records_fit};
use gql_values3::{
    EdgeId, EdgeRecord, Elem, Names, NodeId, NodeRecord, OutOfMemory, Properties, Sequence,
};
use std::alloc::Global;
use std::marker::Model;

/// The nodes of a graph, by ascending number.
pub type NodeRecords = Sequence<NodeRecord>;

/// The edges of a graph, by ascending number.
pub type EdgeRecords = Sequence<EdgeRecord>;

/// A property graph. Every value of this type is one: numbers ascend, endpoints are there, labels and properties are in order.
#[derive(Debug, Drop)]
pub struct Graph {
    pub(crate) nodes: Vec<NodeRecord>,
    pub(crate) edges: Vec<EdgeRecord>,
    pub(crate) next_node: u32,
    pub(crate) next_edge: u32,
}

impl Model for Graph {
    ghost use Rattle.std.specs.Prelude.{◌≡◌, true, vec_capacity};
    ghost use Rattle.gql_values3.specs.PropertyGraph.{is_graph};
    ghost use Rattle.gql_graph.specs.Room.{GraphInMemory};

    ghost Value = { GraphInMemory };

    ghost use Rattle.std.specs.Coded.{codes};
    ghost use Rattle.gql_values3.specs.Datum.{coded_datum};

    ghost coded = { Prim.hlevel (codes, coded_datum) };

    ghost view = { λ g. record { graph = record { nodes = g.nodes.items; edges = g.edges.items; next_node = g.next_node; next_edge = g.next_edge }; node_room = vec_capacity g.nodes; edge_room = vec_capacity g.edges } };

    ghost invariant = { λ g. is_graph (record { nodes = g.nodes.items; edges = g.edges.items; next_node = g.next_node; next_edge = g.next_edge }) ≡ true };
}

impl Graph {
    /// The graph without elements.
    pub fn new(alloc: Global) -> Graph
        ensures { result.graph ≡ record { nodes = []; edges = []; next_node = 1; next_edge = 1 } }
    {
        Graph {
            nodes: Vec::new(alloc),
            edges: Vec::new(alloc),
            next_node: 1,
            next_edge: 1,
        }
    }

    /// The graph of these lists and numbers, exactly where they are one. Takes n log n look-ups and no memory.
    pub fn of(
        nodes: NodeRecords,
        edges: EdgeRecords,
        next_node: u32,
        next_edge: u32,
    ) -> Option<Graph>
        ensures some { IfSome result (λ graph. graph.graph ≡ record { nodes = nodes; edges = edges; next_node = next_node; next_edge = next_edge }) }
        ensures exact { is_some result ≡ is_graph (record { nodes = nodes; edges = edges; next_node = next_node; next_edge = next_edge }) }
    {
        if are_graph(nodes.as_slice(), edges.as_slice(), next_node, next_edge) {
            Some(Graph {
                nodes: nodes.into_vec(),
                edges: edges.into_vec(),
                next_node,
                next_edge,
            })
        } else {
            None
        }
    }

    /// An equal graph.
    pub fn try_copy(&self, alloc: Global) -> Result<Graph, OutOfMemory>
        ensures { IfOk result (λ copy. copy.graph ≡ self.now.graph) }
    {
        Ok(Graph {
            nodes: copy_nodes(alloc, self.nodes.as_slice())?,
            edges: copy_edges(alloc, self.edges.as_slice())?,
            next_node: self.next_node,
            next_edge: self.next_edge,
        })
    }

    /// The nodes, by ascending number.
    pub fn nodes(&self) -> &[NodeRecord]
        ensures { result.now ≡ self.now.graph.nodes }
    {
        self.nodes.as_slice()
    }

    /// The edges, by ascending number.
    pub fn edges(&self) -> &[EdgeRecord]
        ensures { result.now ≡ self.now.graph.edges }
    {
        self.edges.as_slice()
    }

    /// The number that the next new node takes.
    pub fn next_node(&self) -> u32
        ensures { result ≡ self.now.graph.next_node }
    {
        self.next_node
    }

    /// The number that the next new edge takes.
    pub fn next_edge(&self) -> u32
        ensures { result ≡ self.now.graph.next_edge }
    {
        self.next_edge
    }

    /// How many nodes there are: fewer than there are numbers. It also says what every graph is.
    pub fn count_nodes(&self) -> u32
        ensures count { result ≡ length self.now.graph.nodes }
        ensures graph { IsTrue (is_graph self.now.graph) }
    {
        self.nodes.len() as u32
    }

    /// The node of that number.
    pub fn node(&self, node: NodeId) -> Option<&NodeRecord>
        ensures { option_copied result ≡ node_of self.now.graph node }
    {
        find_numbered(self.nodes.as_slice(), node.0)
    }

    /// The edge of that number.
    pub fn edge(&self, edge: EdgeId) -> Option<&EdgeRecord>
        ensures { option_copied result ≡ edge_of self.now.graph edge }
    {
        find_numbered(self.edges.as_slice(), edge.0)
    }

    /// The labels of the element, where it is there.
    pub fn labels(&self, elem: Elem) -> Option<&Names>
        ensures there { is_some result ≡ has_element self.now.graph elem }
        ensures exact { labels_in (option_copied result) ≡ labels_of self.now.graph elem }
    {
        match elem {
            Elem::Node(node) => Some(&self.node(node)?.labels),
            Elem::Edge(edge) => Some(&self.edge(edge)?.labels),
        }
    }

    /// The properties of the element, where it is there.
    pub fn properties(&self, elem: Elem) -> Option<&Properties>
        ensures there { is_some result ≡ has_element self.now.graph elem }
        ensures exact { properties_in (option_copied result) ≡ properties_of self.now.graph elem }
    {
        match elem {
            Elem::Node(node) => Some(&self.node(node)?.properties),
            Elem::Edge(edge) => Some(&self.edge(edge)?.properties),
        }
    }
}

fn are_graph(nodes: &[NodeRecord], edges: &[EdgeRecord], next_node: u32, next_edge: u32) -> bool
    ensures { result ≡ is_graph (record { nodes = nodes.now; edges = edges.now; next_node = next_node; next_edge = next_edge }) }
{
    // The endpoints of the edges are searched in the nodes, so the nodes' order is found first.
    if numbers_fit(nodes, next_node) && node_records_fit(nodes) {
        edges_fit(nodes, edges, next_edge)
    } else {
        false
    }
}

fn edges_fit(nodes: &[NodeRecord], edges: &[EdgeRecord], next: u32) -> bool
    requires { AscendsBy (λ r. r.number.0) nodes.now }
    ensures { result ≡ are_edges nodes.now edges.now next }
{
    numbers_fit(edges, next) && edge_records_fit(nodes, edges)
}
