//! Values, and lists of them.

ghost use Rattle.std.specs.Prelude.{◌≡◌, [], ◌∷◌, ◌++◌, length, map, IfOk, OnOk, OnErr};
ghost use Rattle.gql_values3.specs.Meaning.{datum_of};
ghost use Rattle.gql_values3.specs.Datum.{is_null};

use crate::element::{EdgeId, NodeId};
use crate::memory::OutOfMemory;
use crate::path::PathValue;
use crate::text::Text;
use std::alloc::Global;
use std::marker::Model;

/// A value: what a column of a row or a property holds. Its meaning is `datum_of`.
#[cycle(value)]
#[derive(Debug, Drop)]
pub enum Value {
    Null,
    Bool(bool),
    Int(i64),
    Text(Text),
    List(List),
    Node(NodeId),
    Edge(EdgeId),
    Path(PathValue),
}

/// A list of values, seen as the list of what they mean.
#[cycle(value)]
#[derive(Debug, Drop)]
pub struct List {
    items: Vec<Value>,
}

impl Model for List {
    ghost use Rattle.std.specs.Prelude.{List as Sequence, map, length};
    ghost use Rattle.gql_values3.specs.Datum.{Datum};

    ghost Value = { Sequence Datum };

    ghost use Rattle.std.specs.Coded.{coded_list};
    ghost use Rattle.gql_values3.specs.Datum.{coded_datum};

    ghost coded = { coded_list coded_datum };

    ghost use Rattle.gql_values3.specs.Meaning.{datum_of};

    ghost view = { λ a. map datum_of a.items.items };

    ghost use Rattle.gql_values3.specs.Nesting.{depth_all};

    ghost size = { depth_all };

    ghost use Rattle.std.proofs.Common.{arith};
    ghost use Rattle.gql_values3.specs.Machinery.Falls.{most_le-depth_all};

    ghost size_decreases = { λ a h. omega (arith, most_le-depth_all a.items.items) };
}

impl List {
    pub fn new(alloc: Global) -> List
        ensures { result ≡ [] }
    {
        List {
            items: Vec::new(alloc),
        }
    }

    pub fn from_vec(items: Vec<Value>) -> List
        ensures { result ≡ map datum_of items.items }
    {
        List { items }
    }

    pub fn into_vec(self) -> Vec<Value>
        ensures { map datum_of result.items ≡ self }
    {
        let List { items } = self;
        items
    }

    pub fn len(&self) -> usize
        ensures { result ≡ length self.now }
    {
        self.items.len()
    }

    pub fn as_slice(&self) -> &[Value]
        ensures { map datum_of result.now ≡ self.now }
    {
        self.items.as_slice()
    }

    pub fn push(&mut self, value: Value) -> Result<(), OutOfMemory>
        ensures ok { OnOk result (self.new ≡ self.old ++ datum_of value ∷ []) }
        ensures err { OnErr result (self.new ≡ self.old) }
    {
        self.items.push(value)?;
        Ok(())
    }

    /// Adds the items of another list at the end.
    pub fn extend(&mut self, mut other: List) -> Result<(), OutOfMemory>
        ensures ok { OnOk result (self.new ≡ self.old ++ other) }
        ensures err { OnErr result (self.new ≡ self.old) }
    {
        self.items.append(&mut other.items)?;
        Ok(())
    }

    #[cycle(copy)]
    pub fn try_copy(&self, alloc: Global) -> Result<List, OutOfMemory>
        ensures { IfOk result (λ copy. copy ≡ self.now) }
    {
        let mut items = Vec::new(alloc);
        for item in &self.items {
            items.push(item.try_copy(alloc)?)?;
        }
        Ok(List { items })
    }
}

impl Value {
    /// An equal value.
    #[cycle(copy)]
    pub fn try_copy(&self, alloc: Global) -> Result<Value, OutOfMemory>
        ensures { IfOk result (λ copy. datum_of copy ≡ datum_of self.now) }
    {
        match self {
            Value::Null => Ok(Value::Null),
            Value::Bool(truth) => Ok(Value::Bool(*truth)),
            Value::Int(number) => Ok(Value::Int(*number)),
            Value::Text(text) => Ok(Value::Text(text.try_copy(alloc)?)),
            Value::List(list) => Ok(Value::List(list.try_copy(alloc)?)),
            Value::Node(node) => Ok(Value::Node(*node)),
            Value::Edge(edge) => Ok(Value::Edge(*edge)),
            Value::Path(path) => Ok(Value::Path(path.try_copy(alloc)?)),
        }
    }

    pub fn is_null(&self) -> bool
        ensures { result ≡ is_null (datum_of self.now) }
    {
        matches!(self, Value::Null)
    }
}
