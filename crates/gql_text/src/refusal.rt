//! The line of a refusal: its code, its word, and its arguments.

ghost use Rattle.std.specs.Prelude.{◌≡◌, ◌++◌, OnOk, codes};
ghost use Rattle.gql_values3.specs.Meaning.{datum_of};
ghost use Rattle.gql_ast.specs.ValueText.{value_text, name_text, any_name_text, node_text, edge_text};
ghost use Rattle.gql_text.specs.OutcomeText.{elem_text, fault_text, column_text, elem_kind_text, refusal_text};

use gql_ast::{
    ColumnRef, DataFault, ElemKind, Refusal, push_any_name, push_digits, push_edge, push_name,
    push_node, push_value,
};
use gql_values3::{EdgeId, Elem, NodeId, OutOfMemory, Text, Value};

/// Adds the code, the word and the arguments of a refusal.
pub fn push_refusal(text: &mut Text, refusal: &Refusal) -> Result<(), OutOfMemory>
    ensures { OnOk result (text.new ≡ text.old ++ refusal_text refusal.now) }
{
    match refusal {
        Refusal::Lex => text.push_str("E01 LEX"),
        Refusal::Deep => text.push_str("E02 DEEP"),
        Refusal::Syntax => text.push_str("E03 SYNTAX"),
        Refusal::Number(digits) => push_both(text, "E04 NUMBER ", digits.as_str()),
        Refusal::Bounds(digits) => push_bound(text, digits.as_str()),
        Refusal::NoSuch(name) => push_named(text, "E06 NO_SUCH ", name.as_str()),
        Refusal::Exists(name) => push_named(text, "E07 EXISTS ", name.as_str()),
        Refusal::Variable(name) => push_named(text, "E08 VARIABLE ", name.as_str()),
        Refusal::Kind(name) => push_named(text, "E09 KIND ", name.as_str()),
        Refusal::GroupJoin(name) => push_named(text, "E10 GROUP_JOIN ", name.as_str()),
        Refusal::CondJoin(name) => push_named(text, "E11 COND_JOIN ", name.as_str()),
        Refusal::EmptyLoop => text.push_str("E12 EMPTY_LOOP"),
        Refusal::Unbounded => text.push_str("E13 UNBOUNDED"),
        Refusal::GroupRef(name) => push_named(text, "E14 GROUP_REF ", name.as_str()),
        Refusal::Misuse => text.push_str("E15 MISUSE"),
        Refusal::Column(column) => push_column(text, column),
        Refusal::Transaction => text.push_str("E17 TRANSACTION"),
        Refusal::Fault(fault) => push_both(text, "E18 DATA ", fault_words(*fault)),
        Refusal::Misfit(elem) => push_misfit(text, *elem),
        Refusal::Edges { node, edge } => push_edges(text, *node, *edge),
        Refusal::Conflict {
            elem,
            property,
            first,
            second,
        } => push_conflict(text, *elem, property.as_str(), first, second),
        Refusal::Store => text.push_str("E22 STORE"),
        Refusal::Parameter(name) => push_named(text, "E23 PARAM $", name.as_str()),
        Refusal::Full(kind) => push_both(text, "E24 FULL ", kind_words(*kind)),
    }
}

fn push_both(text: &mut Text, before: &str, behind: &str) -> Result<(), OutOfMemory>
    ensures { OnOk result (text.new ≡ text.old ++ (before.now ++ behind.now)) }
{
    text.push_str(before)?;
    text.push_str(behind)
}

/// Adds words, and a name behind them.
fn push_named(text: &mut Text, words: &str, name: &str) -> Result<(), OutOfMemory>
    ensures { OnOk result (text.new ≡ text.old ++ (words.now ++ name_text name.now)) }
{
    text.push_str(words)?;
    push_name(text, name)
}

fn push_bound(text: &mut Text, digits: &str) -> Result<(), OutOfMemory>
    ensures { OnOk result (text.new ≡ text.old ++ refusal_text (Refusal.Bounds digits.now)) }
{
    text.push_str("E05 BOUNDS ")?;
    push_digits(text, digits)
}

fn push_column(text: &mut Text, column: &ColumnRef) -> Result<(), OutOfMemory>
    ensures { OnOk result (text.new ≡ text.old ++ refusal_text (Refusal.Column column.now)) }
{
    text.push_str("E16 COLUMN ")?;
    match column {
        ColumnRef::Name(name) => push_name(text, name.as_str()),
        ColumnRef::Property(name) => push_any_name(text, name.as_str()),
        ColumnRef::All => text.push_str("*"),
    }
}

fn push_misfit(text: &mut Text, elem: Elem) -> Result<(), OutOfMemory>
    ensures { OnOk result (text.new ≡ text.old ++ refusal_text (Refusal.Misfit elem)) }
{
    text.push_str("E19 TYPE ")?;
    push_elem(text, elem)
}

fn push_edges(text: &mut Text, node: NodeId, edge: EdgeId) -> Result<(), OutOfMemory>
    ensures { OnOk result (text.new ≡ text.old ++ refusal_text (Refusal.Edges node edge)) }
{
    text.push_str("E20 EDGES ")?;
    push_node(text, node)?;
    text.push_str(" ")?;
    push_edge(text, edge)
}

/// Adds a conflict: the element, its property, and two values.
fn push_conflict(
    text: &mut Text,
    elem: Elem,
    property: &str,
    first: &Value,
    second: &Value,
) -> Result<(), OutOfMemory>
    ensures { OnOk result (text.new ≡ text.old ++ refusal_text (Refusal.Conflict elem property.now first.now second.now)) }
{
    push_conflict_at(text, elem, property)?;
    push_argument(text, first)?;
    push_argument(text, second)
}

/// Adds a conflict up to its values.
fn push_conflict_at(text: &mut Text, elem: Elem, property: &str) -> Result<(), OutOfMemory>
    ensures { OnOk result (text.new ≡ text.old ++ (codes "E21 CONFLICT " ++ elem_text elem ++ codes " " ++ any_name_text property.now)) }
{
    text.push_str("E21 CONFLICT ")?;
    push_elem(text, elem)?;
    text.push_str(" ")?;
    push_any_name(text, property)
}

/// Adds a value behind a space.
fn push_argument(text: &mut Text, value: &Value) -> Result<(), OutOfMemory>
    ensures { OnOk result (text.new ≡ text.old ++ (codes " " ++ value_text (datum_of value.now))) }
{
    text.push_str(" ")?;
    push_value(text, value)
}

/// Adds an element, as values print.
fn push_elem(text: &mut Text, elem: Elem) -> Result<(), OutOfMemory>
    ensures { OnOk result (text.new ≡ text.old ++ elem_text elem) }
{
    match elem {
        Elem::Node(node) => push_node(text, node),
        Elem::Edge(edge) => push_edge(text, edge),
    }
}

fn fault_words(fault: DataFault) -> &'static str
    ensures { result.now ≡ fault_text fault }
{
    match fault {
        DataFault::DivideByZero => "DIVIDE_BY_ZERO",
        DataFault::Overflow => "OVERFLOW",
        DataFault::WrongKind => "WRONG_KIND",
        DataFault::NotComparable => "NOT_COMPARABLE",
        DataFault::Deleted => "DELETED",
        DataFault::TooDeep => "TOO_DEEP",
        DataFault::TooLarge => "TOO_LARGE",
    }
}

fn kind_words(kind: ElemKind) -> &'static str
    ensures { result.now ≡ elem_kind_text kind }
{
    match kind {
        ElemKind::Node => "NODE",
        ElemKind::Edge => "EDGE",
    }
}
