//! What is refused of a text's aliases: one that is declared twice, one that no node type has.

ghost use Rattle.std.specs.Prelude.{◌≡◌, ℕ, List, [], ◌++◌, IfOk, OnOk};
ghost use Rattle.std.specs.Option.{option_copied};
ghost use Rattle.gql_type.specs.Conformance.{contains_name};
ghost use Rattle.gql_type.specs.BodyFaults.{alias_in, aliases_in, used_in, aliases_at_fault, wrong_aliases, first_name, repeated, unknown};

use gql_ast::{TypeBody, TypeElement};
use gql_expr_checks::NameList;
use gql_values3::{OutOfMemory, Text};
use std::alloc::Global;

/// The first alias that is refused, in the order of the text. Takes a look-up an alias.
pub fn wrong_alias(alloc: Global, body: &TypeBody) -> Result<Option<&Text>, OutOfMemory>
    ensures { IfOk result (λ alias. option_copied alias ≡ first_name (wrong_aliases body.now)) }
{
    let known = aliases_of(alloc, body.elements.as_slice())?;
    first_at_fault(alloc, &known, body.elements.as_slice())
}

/// The aliases that are declared, wherever they stand.
fn aliases_of(alloc: Global, elements: &[TypeElement]) -> Result<NameList, OutOfMemory>
    ensures { IfOk result (λ known. (x : List ℕ) → contains_name known x ≡ contains_name (aliases_in elements.now) x) }
{
    let mut known = NameList::new(alloc);
    for element in elements {
        declare(alloc, &mut known, element)?;
    }
    Ok(known)
}

/// Adds the element's alias, where it has one.
fn declare(alloc: Global, known: &mut NameList, element: &TypeElement) -> Result<(), OutOfMemory>
    ensures { OnOk result ((x : List ℕ) → contains_name known.new x ≡ contains_name (alias_in element.now ++ known.old) x) }
{
    match element {
        TypeElement::Node(Some(alias), _) => known.add(alloc, alias),
        _ => Ok(()),
    }
}

fn first_at_fault<'a>(
    alloc: Global,
    known: &NameList,
    elements: &'a [TypeElement],
) -> Result<Option<&'a Text>, OutOfMemory>
    ensures { IfOk result (λ alias. option_copied alias ≡ first_name (aliases_at_fault known.now [] elements.now)) }
{
    let mut before = NameList::new(alloc);
    for element in elements {
        if let Some(alias) = fault_in(known, &before, element) {
            return Ok(Some(alias));
        }
        declare(alloc, &mut before, element)?;
    }
    Ok(None)
}

/// The element's first alias that is refused, behind some that are declared before.
fn fault_in<'a>(known: &NameList, before: &NameList, element: &'a TypeElement) -> Option<&'a Text>
    ensures { option_copied result ≡ first_name (repeated before.now (alias_in element.now) ++ unknown known.now (used_in element.now)) }
{
    match element {
        TypeElement::Node(None, _) => None,
        TypeElement::Node(Some(alias), _) => {
            if before.contains(alias) {
                Some(alias)
            } else {
                None
            }
        }
        TypeElement::Edge(first, _, _, second) => {
            if !known.contains(first) {
                Some(first)
            } else if !known.contains(second) {
                Some(second)
            } else {
                None
            }
        }
    }
}
