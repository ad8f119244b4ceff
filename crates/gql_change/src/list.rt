//! Changes with room for those that undo them.

ghost use Rattle.std.specs.Prelude.{◌≡◌, ◌≤◌, [], length, reverse, IfOk, vec_capacity};

use gql_graph::{Change, Changes};
use gql_values3::OutOfMemory;
use std::alloc::Global;
use std::marker::Model;

/// Changes in the order in which they act, with room for as many that undo them. It is seen as the changes.
#[derive(Drop)]
pub struct ChangeList {
    changes: Changes,
    inverses: Vec<Change>,
}

impl Model for ChangeList {
    ghost use Rattle.std.specs.Prelude.{◌≡◌, ◌≤◌, [], List, length, vec_capacity};
    ghost use Rattle.std.specs.Coded.{codes};
    ghost use Rattle.gql_values3.specs.Datum.{coded_datum};
    ghost use Rattle.gql_graph.specs.declared.change.Change.{Change};

    ghost Value = { List Change };

    ghost coded = { Prim.hlevel (codes, coded_datum) };

    ghost view = { λ l. l.changes };

    ghost invariant = { λ l. (l.inverses.items ≡ []) × (length l.changes ≤ vec_capacity l.inverses) };
}

impl ChangeList {
    /// The list of these changes. It takes the memory that the inverses need.
    pub fn of(alloc: Global, changes: Changes) -> Result<ChangeList, OutOfMemory>
        ensures { IfOk result (λ list. list ≡ changes) }
    {
        let inverses = Vec::with_capacity(alloc, changes.len())?;
        Ok(ChangeList { changes, inverses })
    }

    /// The changes in the order in which they act.
    pub fn changes(&self) -> &Changes
        ensures { result.now ≡ self.now }
    {
        &self.changes
    }

    /// The changes, and an empty vector with room for as many.
    pub(crate) fn into_parts(self) -> (Vec<Change>, Vec<Change>)
        ensures changes { result.0.items ≡ self }
        ensures empty { result.1.items ≡ [] }
        ensures room { length self ≤ vec_capacity result.1 }
    {
        let ChangeList { changes, inverses } = self;
        (changes.into_vec(), inverses)
    }
}

/// Changes that undo others, as these were made. It is seen as the list in which they act: the newest first.
#[derive(Drop)]
pub struct Undo {
    inverses: Vec<Change>,
}

impl Model for Undo {
    ghost use Rattle.std.specs.Prelude.{List, reverse};
    ghost use Rattle.std.specs.Coded.{codes};
    ghost use Rattle.gql_values3.specs.Datum.{coded_datum};
    ghost use Rattle.gql_graph.specs.declared.change.Change.{Change};

    ghost Value = { List Change };

    ghost coded = { Prim.hlevel (codes, coded_datum) };

    ghost view = { λ u. reverse u.inverses.items };
}

impl Undo {
    /// These inverses, the oldest first.
    pub(crate) fn of(inverses: Vec<Change>) -> Undo
        ensures { result ≡ reverse inverses.items }
    {
        Undo { inverses }
    }

    /// The inverses, the oldest first.
    pub(crate) fn into_vec(self) -> Vec<Change>
        ensures { reverse result.items ≡ self }
    {
        let Undo { inverses } = self;
        inverses
    }
}
