//! A graph as a catalog holds it, beside the name of its type.

ghost use Rattle.std.specs.Prelude.{◌≡◌, None, IfOk};

use crate::graph::Graph;
use gql_values3::{OutOfMemory, Text};
use std::alloc::Global;

/// A graph of a catalog, and the name of its graph type where it has one.
#[derive(Debug, Drop)]
pub struct Held {
    pub graph: Graph,
    pub kind: Option<Text>,
}

impl Held {
    /// The graph without a type.
    pub fn untyped(graph: Graph) -> Held
        ensures { result ≡ record { graph = graph; kind = None } }
    {
        Held { graph, kind: None }
    }

    /// An equal graph of the same type; what room it has for more is its own.
    pub fn try_copy(&self, alloc: Global) -> Result<Held, OutOfMemory>
        ensures graph { IfOk result (λ copy. copy.graph.graph ≡ self.now.graph.graph) }
        ensures kind { IfOk result (λ copy. copy.kind ≡ self.now.kind) }
    {
        Ok(Held {
            graph: self.graph.try_copy(alloc)?,
            kind: copy_name(alloc, &self.kind)?,
        })
    }
}

fn copy_name(alloc: Global, name: &Option<Text>) -> Result<Option<Text>, OutOfMemory>
    ensures { IfOk result (λ copy. copy ≡ name.now) }
{
    match name {
        Some(name) => Ok(Some(name.try_copy(alloc)?)),
        None => Ok(None),
    }
}
