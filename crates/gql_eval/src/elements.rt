//! What is asked of elements. NULL comes first, then a wrong kind, then a deleted element.

ghost use Rattle.std.specs.Prelude.{◌≡◌, Ok};
ghost use Rattle.gql_values3.specs.Lookup.{property_of};
ghost use Rattle.gql_values3.specs.Meaning.{datum_of};
ghost use Rattle.gql_ast.specs.LabelMeaning.{label_of};
ghost use Rattle.gql_ast.specs.ElementTests.{undeleted, element_in, property_value, labeled_value, is_directed, directed_value, is_end, end_value};
ghost use Rattle.gql_values3.specs.Datum.{or_null};
ghost use Rattle.gql_ast.specs.Evaluation.{quality_value};
ghost use Rattle.gql_eval.specs.Gives.{GivesExactly};
ghost use Rattle.gql_eval.specs.CowValue.{cow_datum};
ghost use Rattle.gql_eval.specs.Machinery.Next.{next};

use crate::cow::CowValue;
use crate::labels::satisfies;
use crate::truths::{names_truth, truth_of_value};
use gql_ast::{DataFault, EdgeEnd, LabelExpr, Quality};
use gql_values3::{Elem, Ends, NodeId, Text, Value, View};

/// The element, if it is in the graph.
fn alive<V: View>(view: &V, elem: Elem) -> Result<Elem, DataFault>
    ensures { GivesExactly (λ e. e) result (undeleted (V.graph view.now) elem) }
{
    let there = match elem {
        Elem::Node(node) => view.has_node(node),
        Elem::Edge(edge) => view.ends(edge).is_some(),
    };
    if there {
        Ok(elem)
    } else {
        Err(DataFault::Deleted)
    }
}

/// The element that a value is; None is NULL.
pub fn element_in<V: View>(view: &V, value: &Value) -> Result<Option<Elem>, DataFault>
    ensures { GivesExactly (λ e. e) result (element_in (V.graph view.now) (datum_of value.now)) }
{
    match value {
        Value::Null => Ok(None),
        Value::Node(node) => Ok(Some(alive(view, Elem::Node(*node))?)),
        Value::Edge(edge) => Ok(Some(alive(view, Elem::Edge(*edge))?)),
        _ => Err(DataFault::WrongKind),
    }
}

/// `x.p`: a property that isn't there is NULL.
pub fn property<'a, V: View>(
    view: &'a V,
    value: &Value,
    name: &Text,
) -> Result<CowValue<'a>, DataFault>
    ensures { GivesExactly cow_datum result (property_value (V.graph view.now) (datum_of value.now) name.now) }
{
    match value {
        Value::Null => Ok(CowValue::Owned(Value::Null)),
        Value::Node(node) => property_of_element(view, Elem::Node(*node), name),
        Value::Edge(edge) => property_of_element(view, Elem::Edge(*edge), name),
        _ => Err(DataFault::WrongKind),
    }
}

/// A property of an element, if the element is in the graph.
#[tactic(auto, using(crate::proofs::ElementLemmas::there_with_property))]
fn property_of_element<'a, V: View>(
    view: &'a V,
    elem: Elem,
    name: &Text,
) -> Result<CowValue<'a>, DataFault>
    ensures { GivesExactly cow_datum result (next (undeleted (V.graph view.now) elem) (λ e. Ok (or_null (property_of (V.graph view.now) e name.now)))) }
{
    // An element with a property is there, so most are searched once.
    if let Some(found) = view.property(elem, name.as_str()) {
        return Ok(CowValue::Borrowed(found));
    }
    alive(view, elem)?;
    Ok(CowValue::Owned(Value::Null))
}

/// IS LABELED; None is NULL.
pub fn labeled<V: View>(
    view: &V,
    value: &Value,
    labels: &LabelExpr,
) -> Result<Option<bool>, DataFault>
    ensures { GivesExactly (λ b. b) result (labeled_value (V.graph view.now) (datum_of value.now) (label_of labels.now)) }
{
    match element_in(view, value)? {
        None => Ok(None),
        Some(elem) => Ok(Some(satisfies(view, elem, labels))),
    }
}

/// IS DIRECTED; None is NULL.
fn directed<V: View>(view: &V, value: &Value) -> Result<Option<bool>, DataFault>
    ensures { GivesExactly (λ b. b) result (directed_value (V.graph view.now) (datum_of value.now)) }
{
    match value {
        Value::Null => Ok(None),
        Value::Edge(edge) => match view.ends(*edge) {
            None => Err(DataFault::Deleted),
            Some(Ends::Directed { .. }) => Ok(Some(true)),
            Some(Ends::Undirected { .. }) => Ok(Some(false)),
        },
        _ => Err(DataFault::WrongKind),
    }
}

/// IS SOURCE OF and IS DESTINATION OF; None is NULL.
pub fn end<V: View>(
    view: &V,
    which: EdgeEnd,
    value: &Value,
    edge: &Value,
) -> Result<Option<bool>, DataFault>
    ensures { GivesExactly (λ b. b) result (end_value (V.graph view.now) which (datum_of value.now) (datum_of edge.now)) }
{
    match (value, edge) {
        (Value::Null, _) | (_, Value::Null) => Ok(None),
        (Value::Node(node), Value::Edge(edge)) => {
            if !view.has_node(*node) {
                return Err(DataFault::Deleted);
            }
            match view.ends(*edge) {
                None => Err(DataFault::Deleted),
                Some(ends) => Ok(Some(is_at(which, *node, ends))),
            }
        }
        _ => Err(DataFault::WrongKind),
    }
}

/// Whether the node is that end; undirected edges have no such ends.
fn is_at(which: EdgeEnd, node: NodeId, ends: Ends) -> bool
    ensures { result ≡ is_end which node.0 (Some ends) }
{
    match (which, ends) {
        (EdgeEnd::Source, Ends::Directed { source, .. }) => source == node,
        (EdgeEnd::Destination, Ends::Directed { target, .. }) => target == node,
        (_, Ends::Undirected { .. }) => false,
    }
}

/// IS by one word; None is NULL.
pub fn quality<V: View>(
    view: &V,
    quality: Quality,
    value: &Value,
) -> Result<Option<bool>, DataFault>
    ensures { GivesExactly (λ b. b) result (quality_value (V.graph view.now) quality (datum_of value.now)) }
{
    match quality {
        Quality::Null => Ok(Some(value.is_null())),
        Quality::Directed => directed(view, value),
        Quality::True | Quality::False | Quality::Unknown => {
            Ok(Some(names_truth(quality, truth_of_value(value)?)))
        }
    }
}
