//! The nodes of a graph, lent, so that an edge's endpoints are found among them.

ghost use Rattle.std.specs.Prelude.{◌≡◌};
ghost use Rattle.std.specs.Option.{option_copied};
ghost use Rattle.gql_values3.specs.declared.records.NodeRecord.{NodeRecord};
ghost use Rattle.gql_graph.specs.Machinery.Ascending.{AscendsTo};
ghost use Rattle.gql_type.specs.Machinery.InOrder.{node_of_number};

use gql_graph::find_node;
use gql_values3::{NodeId, NodeRecord};
use std::marker::Model;

/// Nodes by ascending number.
#[derive(Drop)]
pub struct Nodes<'a> {
    records: &'a [NodeRecord],
}

impl<'a> Model for Nodes<'a> {
    ghost use Rattle.std.specs.Prelude.{List};
    ghost use Rattle.gql_values3.specs.declared.records.NodeRecord.{NodeRecord};
    ghost use Rattle.gql_graph.specs.Machinery.Ascending.{AscendsTo};

    ghost Value = { List NodeRecord };

    ghost use Rattle.std.specs.Coded.{codes};
    ghost use Rattle.gql_values3.specs.Datum.{coded_datum};

    ghost coded = { Prim.hlevel (codes, coded_datum) };

    ghost view = { λ n. n.records.now };

    ghost invariant = { λ n. AscendsTo (λ (r : NodeRecord). r.number.0) n.records.now };
}

impl<'a> Nodes<'a> {
    pub fn of(records: &'a [NodeRecord]) -> Nodes<'a>
        requires { AscendsTo (λ (r : NodeRecord). r.number.0) records.now }
        ensures { result ≡ records.now }
    {
        Nodes { records }
    }

    /// The node of that number. Where none before it was deleted it stands at the place of its number, which is looked at
    /// first; else by binary search.
    pub fn find(&self, node: NodeId) -> Option<&NodeRecord>
        ensures { option_copied result ≡ node_of_number self.now node }
    {
        match self.records.get((node.0 as usize).saturating_sub(1)) {
            Some(record) if record.number == node => Some(record),
            _ => find_node(self.records, node),
        }
    }
}
