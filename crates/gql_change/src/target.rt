//! The element at a place of a row.

ghost use Rattle.gql_values3.specs.Meaning.{datum_of};
ghost use Rattle.gql_ast.specs.ElementTests.{element_in};
ghost use Rattle.gql_eval.specs.Gives.{Gives};
ghost use Rattle.gql_change.specs.Machinery.DeletionSteps.{value_at};

use gql_eval::{EvalError, element_in};
use gql_values3::{Elem, Row, Value, View};

/// The element that a row has at a place, or its fault: it is no element, or was deleted. None is NULL, as at no place.
pub fn target_at<V: View>(
    view: &V,
    row: &Row,
    place: Option<usize>,
) -> Result<Option<Elem>, EvalError>
    ensures { Gives (λ e. e) result (element_in (V.graph view.now) (value_at row.now place)) }
{
    let Some(place) = place else {
        return Ok(None);
    };
    match row.as_slice().get(place) {
        None => Ok(None),
        Some(value) => element_of(view, value),
    }
}

/// The element that a value is. None is NULL.
fn element_of<V: View>(view: &V, value: &Value) -> Result<Option<Elem>, EvalError>
    ensures { Gives (λ e. e) result (element_in (V.graph view.now) (datum_of value.now)) }
{
    Ok(element_in(view, value)?)
}
