//! Paths as values: a node, and the edges that lead on from it.

ghost use Rattle.std.specs.Prelude.{◌≡◌, map, IfOk};
ghost use Rattle.gql_values3.specs.ValueOrder.{path_cmp};

use crate::element::{EdgeId, NodeId};
use crate::memory::OutOfMemory;
use std::alloc::Global;
use std::cmp::Ordering;
use std::marker::Model;

/// A path: its first node, and for each step the edge and the node that it leads to.
#[derive(Debug, Drop)]
pub struct PathValue {
    start: NodeId,
    steps: Vec<(EdgeId, NodeId)>,
}

impl Model for PathValue {
    ghost use Rattle.std.specs.Prelude.{map};
    ghost use Rattle.gql_values3.specs.Datum.{PathData};

    ghost Value = { PathData };

    ghost view = { λ p. record { start = p.start.0; steps = map (λ s. (s.0.0, s.1.0)) p.steps.items } };
}

impl PathValue {
    pub fn from_steps(start: NodeId, steps: Vec<(EdgeId, NodeId)>) -> PathValue
        ensures { result ≡ record { start = start.0; steps = map (λ s. (s.0.0, s.1.0)) steps.items } }
    {
        PathValue { start, steps }
    }

    pub fn start(&self) -> NodeId
        ensures { result.0 ≡ self.now.start }
    {
        self.start
    }

    pub fn steps(&self) -> &[(EdgeId, NodeId)]
        ensures { map (λ s. (s.0.0, s.1.0)) result.now ≡ self.now.steps }
    {
        self.steps.as_slice()
    }

    pub fn try_copy(&self, alloc: Global) -> Result<PathValue, OutOfMemory>
        ensures { IfOk result (λ copy. copy ≡ self.now) }
    {
        Ok(PathValue {
            start: self.start,
            steps: Vec::from_slice(alloc, self.steps.as_slice())?,
        })
    }

    /// By the first node, and then element by element; a beginning is less.
    pub fn cmp(&self, other: &PathValue) -> Ordering
        ensures { result ≡ path_cmp self.now other.now }
    {
        self.start
            .cmp(&other.start)
            .then(self.steps.as_slice().cmp(other.steps.as_slice()))
    }
}
