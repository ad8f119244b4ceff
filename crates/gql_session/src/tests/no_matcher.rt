//! A matcher for sessions without path patterns: it has no memory for any.

use gql_fan::Serial;
use gql_graph::Graph;
use gql_norm::{NormalPath, ReducedList, RowOnGraph, StartLists, StartNodes};
use gql_rigid::PathPredicates;
use gql_starts::Matcher;
use gql_values3::{Columns, NodeId, OutOfMemory, Params};
use std::alloc::Global;
use std::marker::Sync;
use std::thread;

#[derive(Drop)]
pub struct NoMatcher<R> {
    fan: Serial<R>,
}

impl<R> NoMatcher<R> {
    pub fn new() -> NoMatcher<R> {
        NoMatcher { fan: Serial::new() }
    }
}

impl<R: thread::Threads + Sync> Matcher<Graph> for NoMatcher<R> {
    ghost use Rattle.std.specs.Prelude.{None, []};
    ghost use Rattle.gql_norm.specs.NormalPattern.{Node, anonymous};

    type Fan = Serial<R>;

    type Prepared = bool;

    ghost path_of = { λ _. record { name = None; selector = None; body = Node anonymous } };

    ghost asked_of = { λ _ _ _ _. [] };

    fn fan(&self) -> &Serial<R> {
        &self.fan
    }

    fn workers(&self) -> u32 {
        1
    }

    fn prepare(&self, _alloc: Global, _path: &NormalPath) -> Result<bool, OutOfMemory> {
        Err(OutOfMemory)
    }

    fn predicates<'p>(
        &self,
        _alloc: Global,
        _prepared: &'p bool,
        _columns: &'p Columns,
        _params: &'p Params,
    ) -> Result<PathPredicates<'p>, OutOfMemory> {
        Err(OutOfMemory)
    }

    fn at_once(
        &self,
        _alloc: Global,
        _over: &RowOnGraph<Graph>,
        _prepared: &bool,
        _predicates: &PathPredicates,
    ) -> Result<Option<StartLists>, OutOfMemory> {
        Err(OutOfMemory)
    }

    fn starts(
        &self,
        _alloc: Global,
        _over: &RowOnGraph<Graph>,
        _prepared: &bool,
    ) -> Result<StartNodes, OutOfMemory> {
        Err(OutOfMemory)
    }

    fn from_start(
        &self,
        _alloc: Global,
        _over: &RowOnGraph<Graph>,
        _prepared: &bool,
        _predicates: &PathPredicates,
        _start: NodeId,
    ) -> Result<ReducedList, OutOfMemory> {
        Err(OutOfMemory)
    }
}
