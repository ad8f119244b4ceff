//! A node type, read and written.

use crate::body::{body_of, put_body};
use crate::counted::Counted;
use gql_fields::{Misread, label_set_of, put_labels};
use gql_graph::NodeType;
use gql_values3::{Bytes, OutOfMemory};
use std::alloc::Global;

impl Counted for NodeType {
    ghost use Rattle.gql_typecode.specs.TypeSpelling.{node_type_spelled};
    ghost use Rattle.gql_typecode.specs.KeptTypes.{IsKeptNodeType};
    ghost use Rattle.gql_typecode.specs.TypeOrder.{IsNodeTypeInOrder};
    ghost use Rattle.gql_typecode.specs.Machinery.TypeReading.{node_type_at};

    ghost at = { node_type_at };

    ghost spelled = { node_type_spelled };

    ghost in_order = { IsNodeTypeInOrder };

    ghost kept = { IsKeptNodeType };

    #[tactic(auto, unfolding(crate::specs::Machinery::TypeReading::node_type_at))]
    fn read(alloc: Global, bytes: &[u8]) -> Result<(NodeType, &[u8]), Misread> {
        let (labels, rest) = label_set_of(alloc, bytes)?;
        let (body, rest) = body_of(alloc, rest)?;
        Ok((NodeType { labels, body }, rest))
    }

    fn put(&self, out: &mut Bytes) -> Result<(), OutOfMemory> {
        put_labels(out, self.labels.as_slice())?;
        put_body(out, &self.body)
    }
}
