//! The names of a match and what they stand for, as two lists.

ghost use Rattle.std.specs.Prelude.{◌≡◌, map, IfOk};

use gql_values3::{Binding, Elem, Elems, Names, OutOfMemory, Text};
use std::alloc::Global;

/// The names of a match, in their order.
pub fn bound_names(alloc: Global, bound: &[(Text, Binding)]) -> Result<Names, OutOfMemory>
    ensures { IfOk result (λ names. names ≡ map (λ b. b.0) bound.now) }
{
    let mut names = Names::new(alloc);
    for i in 0..bound.len() {
        let (name, _) = &bound[i];
        names.push(name.try_copy(alloc)?)?;
    }
    Ok(names)
}

/// What they stand for, in the same order.
pub fn bound_values(alloc: Global, bound: &[(Text, Binding)]) -> Result<Vec<Binding>, OutOfMemory>
    ensures { IfOk result (λ values. values.items ≡ map (λ b. b.1) bound.now) }
{
    let mut values = Vec::new(alloc);
    for i in 0..bound.len() {
        let (_, binding) = &bound[i];
        values.push(copied_binding(alloc, binding)?)?;
    }
    Ok(values)
}

fn copied_binding(alloc: Global, binding: &Binding) -> Result<Binding, OutOfMemory>
    ensures { IfOk result (λ copy. copy ≡ binding.now) }
{
    match binding {
        Binding::Unbound => Ok(Binding::Unbound),
        Binding::One(elem) => Ok(Binding::One(*elem)),
        Binding::Many(elems) => Ok(Binding::Many(copied_elems(alloc, elems.as_slice())?)),
    }
}

fn copied_elems(alloc: Global, elems: &[Elem]) -> Result<Elems, OutOfMemory>
    ensures { IfOk result (λ copy. copy ≡ elems.now) }
{
    let mut copy = Elems::new(alloc);
    for i in 0..elems.len() {
        copy.push(elems[i])?;
    }
    Ok(copy)
}
