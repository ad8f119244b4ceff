//! Whether an element has the labels that a label expression asks for.

ghost use Rattle.std.specs.Prelude.{◌≡◌, map};
ghost use Rattle.gql_values3.specs.Lookup.{labels_of};
ghost use Rattle.gql_ast.specs.Label.{labels_listed as label_list};
ghost use Rattle.gql_ast.specs.LabelMeaning.{label_of};
ghost use Rattle.gql_ast.specs.ElementTests.{has_labels, has_all_labels, has_some_labels};

use gql_ast::LabelExpr;
use gql_values3::{Elem, View};

/// Whether the element's labels satisfy the label expression.
#[cycle(labels)]
pub fn satisfies<V: View>(view: &V, elem: Elem, labels: &LabelExpr) -> bool
    ensures { result ≡ has_labels (labels_of (V.graph view.now) elem) (label_of labels.now) }
{
    match labels {
        LabelExpr::Name(name) => view.has_label(elem, name.as_str()),
        LabelExpr::Wildcard => view.any_label(elem),
        LabelExpr::Paren(part) => satisfies(view, elem, part.expr()),
        LabelExpr::Not(part) => !satisfies(view, elem, part.expr()),
        LabelExpr::And(first, rest) => {
            satisfies(view, elem, first.expr()) && satisfies_all(view, elem, rest.as_slice())
        }
        LabelExpr::Or(first, rest) => {
            satisfies(view, elem, first.expr()) || satisfies_some(view, elem, rest.as_slice())
        }
    }
}

#[cycle(labels)]
fn satisfies_all<V: View>(view: &V, elem: Elem, parts: &[LabelExpr]) -> bool
    ensures { result ≡ has_all_labels (labels_of (V.graph view.now) elem) (label_list (map label_of parts.now)) }
{
    for i in 0..parts.len() {
        if !satisfies(view, elem, &parts[i]) {
            return false;
        }
    }
    true
}

#[cycle(labels)]
fn satisfies_some<V: View>(view: &V, elem: Elem, parts: &[LabelExpr]) -> bool
    ensures { result ≡ has_some_labels (labels_of (V.graph view.now) elem) (label_list (map label_of parts.now)) }
{
    for i in 0..parts.len() {
        if satisfies(view, elem, &parts[i]) {
            return true;
        }
    }
    false
}
