//! What is refused of a text's properties: a name that stands twice in one element.

ghost use Rattle.std.specs.Prelude.{◌≡◌, [], map, IfOk};
ghost use Rattle.std.specs.Option.{option_copied};
ghost use Rattle.gql_type.specs.BodyFaults.{content_in, names_given, repeated, repeated_names, first_name};

use gql_ast::{ElementBody, TypeBody, TypeElement, TypeProperty};
use gql_expr_checks::NameList;
use gql_values3::{OutOfMemory, Text};
use std::alloc::Global;

/// The first name of a property that stands twice in one element, in the order of the text. Takes a look-up a property.
pub fn repeated_property(alloc: Global, body: &TypeBody) -> Result<Option<&Text>, OutOfMemory>
    ensures { IfOk result (λ name. option_copied name ≡ first_name (repeated_names body.now.elements)) }
{
    first_repeated(alloc, body.elements.as_slice())
}

fn first_repeated(alloc: Global, elements: &[TypeElement]) -> Result<Option<&Text>, OutOfMemory>
    ensures { IfOk result (λ name. option_copied name ≡ first_name (repeated_names elements.now)) }
{
    for element in elements {
        if let Some(name) = repeated_in(alloc, content_of(element))? {
            return Ok(Some(name));
        }
    }
    Ok(None)
}

fn content_of(element: &TypeElement) -> &ElementBody
    ensures { result.now ≡ content_in element.now }
{
    match element {
        TypeElement::Node(_, body) => body,
        TypeElement::Edge(_, _, body, _) => body,
    }
}

fn repeated_in(alloc: Global, body: &ElementBody) -> Result<Option<&Text>, OutOfMemory>
    ensures { IfOk result (λ name. option_copied name ≡ first_name (repeated [] (names_given body.now.properties))) }
{
    match &body.properties {
        None => Ok(None),
        Some(properties) => first_twice(alloc, properties.as_slice()),
    }
}

fn first_twice(alloc: Global, properties: &[TypeProperty]) -> Result<Option<&Text>, OutOfMemory>
    ensures { IfOk result (λ name. option_copied name ≡ first_name (repeated [] (map (λ p. p.name) properties.now))) }
{
    let mut before = NameList::new(alloc);
    for property in properties {
        if before.contains(&property.name) {
            return Ok(Some(&property.name));
        }
        before.add(alloc, &property.name)?;
    }
    Ok(None)
}
