//! The keys of groups in a map, by the values of their rows.

ghost use Rattle.std.specs.Prelude.{◌≡◌, map, fold};
ghost use Rattle.std.specs.Ordering.{on, eq_by_cmp};
ghost use Rattle.std.specs.Cmp.{on_total, partial_equiv_from_equiv, eq_by_cmp_equiv};
ghost use Rattle.std.specs.Cmp.Lexicographic.{slice_cmp};
ghost use Rattle.gql_values3.specs.Meaning.{datum_of};
ghost use Rattle.gql_values3.specs.ValueOrder.{datum_cmp};
ghost use Rattle.gql_values3.proofs.OrderLaws.{datum_cmp_total};
ghost use Rattle.std.proofs.lemmas.Cmp.{lists_total};
ghost use Rattle.gql_table.specs.Machinery.RowKeys.{key_row, hashed, hashed_row, hashed_alike};

use gql_values3::{Row, Value, items_cmp};
use std::hash::{Hash, Hasher};

/// The key of a group: its row, value by value.
#[derive(Drop)]
pub struct RowKey {
    pub row: Row,
}

impl PartialEq for RowKey {
    ghost eq = { eq_by_cmp (on key_row (slice_cmp datum_cmp)) };

    ghost laws = { partial_equiv_from_equiv (eq_by_cmp_equiv (on_total key_row (lists_total datum_cmp_total))) };

    fn eq(&self, other: &RowKey) -> bool {
        items_cmp(self.row.as_slice(), other.row.as_slice()).is_eq()
    }
}

impl Eq for RowKey {
    ghost laws = { eq_by_cmp_equiv (on_total key_row (lists_total datum_cmp_total)) };
}

impl Hash for RowKey {
    ghost hash_input = { λ k. hashed_row (key_row k) };

    ghost respects_eq = { hashed_alike };

    fn hash<H: Hasher>(&self, state: &mut H) {
        hash_values(self.row.as_slice(), state);
    }
}

/// Hashes each value in turn.
#[cycle(hashing)]
fn hash_values<H: Hasher>(values: &[Value], state: &mut H)
    ensures { state.new ≡ fold H.write state.old (hashed_row (map datum_of values.now)) }
{
    for value in values {
        hash_value(value, state);
    }
}

/// Hashes a value, of a list its items. It takes no memory.
#[cycle(hashing)]
fn hash_value<H: Hasher>(value: &Value, state: &mut H)
    ensures { state.new ≡ fold H.write state.old (hashed (datum_of value.now)) }
{
    match value {
        Value::Null => state.write_u8(0),
        Value::Bool(truth) => truth.hash(state),
        Value::Int(number) => state.write_i64(*number),
        Value::Text(text) => state.write(text.as_str().as_bytes()),
        Value::List(list) => hash_values(list.as_slice(), state),
        Value::Node(node) => state.write_u32(node.0),
        Value::Edge(edge) => state.write_u32(edge.0),
        Value::Path(path) => {
            state.write_u32(path.start().0);
            path.steps().hash(state);
        }
    }
}
