//! A graph in the making.

use gql_graph::{EdgeRecords, Graph, NodeRecords};
use gql_values3::{
    EdgeId, EdgeRecord, Ends, Names, NodeId, NodeRecord, OutOfMemory, Properties, Sequence, Text,
    Value,
};
use std::alloc::Global;

/// Nodes and edges, each numbered from 1 on.
#[derive(Drop)]
pub struct GraphMaker {
    nodes: NodeRecords,
    edges: EdgeRecords,
    next_node: u32,
    next_edge: u32,
}

impl GraphMaker {
    pub fn new(alloc: Global) -> GraphMaker {
        GraphMaker {
            nodes: Sequence::new(alloc),
            edges: Sequence::new(alloc),
            next_node: 1,
            next_edge: 1,
        }
    }

    /// One node more, whose property `n` is its number. It is labelled `First`, `Last`, or both.
    pub fn node(
        &mut self,
        alloc: Global,
        is_first: bool,
        is_last: bool,
    ) -> Result<(), OutOfMemory> {
        let number = self.next_node;
        self.nodes.push(NodeRecord {
            number: NodeId(number),
            labels: labels(alloc, is_first, is_last)?,
            properties: numbered(alloc, number)?,
        })?;
        self.next_node = number.saturating_add(1);
        Ok(())
    }

    /// One edge more, labelled `T`.
    pub fn edge(&mut self, alloc: Global, source: u32, target: u32) -> Result<(), OutOfMemory> {
        let mut labels = Names::new(alloc);
        labels.push(Text::from_str(alloc, "T")?)?;
        self.edges.push(EdgeRecord {
            number: EdgeId(self.next_edge),
            ends: Ends::Directed {
                source: NodeId(source),
                target: NodeId(target),
            },
            labels,
            properties: Properties::from_vec(Vec::new(alloc)),
        })?;
        self.next_edge = self.next_edge.saturating_add(1);
        Ok(())
    }

    /// The graph, where each edge has its ends.
    pub fn graph(self) -> Option<Graph> {
        let GraphMaker {
            nodes,
            edges,
            next_node,
            next_edge,
        } = self;
        Graph::of(nodes, edges, next_node, next_edge)
    }
}

fn labels(alloc: Global, is_first: bool, is_last: bool) -> Result<Names, OutOfMemory> {
    let mut labels = Names::new(alloc);
    if is_first {
        labels.push(Text::from_str(alloc, "First")?)?;
    }
    if is_last {
        labels.push(Text::from_str(alloc, "Last")?)?;
    }
    Ok(labels)
}

fn numbered(alloc: Global, number: u32) -> Result<Properties, OutOfMemory> {
    let mut items = Vec::new(alloc);
    items.push((Text::from_str(alloc, "n")?, Value::Int(i64::from(number))))?;
    Ok(Properties::from_vec(items))
}
