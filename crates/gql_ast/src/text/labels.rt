//! The canonical text of a label expression.

ghost use Rattle.std.specs.Prelude.{◌≡◌, ◌++◌, OnOk, map};
ghost use Rattle.gql_ast.specs.Label.{labels_listed};
ghost use Rattle.gql_ast.specs.LabelMeaning.{label_of};
ghost use Rattle.gql_ast.specs.ExprText.{label_text, labels_text};

use super::names::push_any_name;
use crate::label::LabelExpr;
use gql_values3::{OutOfMemory, Text};

/// Adds the canonical text of a label expression.
#[cycle(label_text)]
pub fn push_label(text: &mut Text, label: &LabelExpr) -> Result<(), OutOfMemory>
    ensures { OnOk result (text.new ≡ text.old ++ label_text (label_of label.now)) }
{
    match label {
        LabelExpr::Name(name) => push_any_name(text, name.as_str()),
        LabelExpr::Wildcard => text.push_str("%"),
        LabelExpr::Paren(part) => {
            text.push_str("(")?;
            push_label(text, part.expr())?;
            text.push_str(")")
        }
        LabelExpr::Not(part) => {
            text.push_str("!")?;
            push_label(text, part.expr())
        }
        LabelExpr::And(first, rest) => {
            push_label(text, first.expr())?;
            push_more_labels(text, "&", rest.as_slice())
        }
        LabelExpr::Or(first, rest) => {
            push_label(text, first.expr())?;
            push_more_labels(text, "|", rest.as_slice())
        }
    }
}

/// Adds label expressions, each behind the sign.
#[cycle(label_text)]
fn push_more_labels(text: &mut Text, sign: &str, labels: &[LabelExpr]) -> Result<(), OutOfMemory>
    ensures { OnOk result (text.new ≡ text.old ++ labels_text sign.now (labels_listed (map label_of labels.now))) }
{
    for i in 0..labels.len() {
        text.push_str(sign)?;
        push_label(text, &labels[i])?;
    }
    Ok(())
}
