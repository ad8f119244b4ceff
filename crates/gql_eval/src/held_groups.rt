//! The group that the steps of an aggregate's argument name first.

ghost use Rattle.std.specs.Prelude.{◌≡◌, find, option_map, IfOk};
ghost use Rattle.gql_eval.specs.Machinery.HeldGroup.{group_seen, held_pair};
ghost use Rattle.gql_eval.specs.Machinery.InstructionMeaning.{op_of, program_of};
ghost use Rattle.gql_eval.specs.Machinery.AtPlaces.{is_group_at};
ghost use Rattle.gql_eval.specs.Machinery.Steps.{name_held, names_held};

use crate::cow::CowValue;
use crate::instruction::Instruction;
use crate::places::Places;
use crate::scope::{Scope, held_at, is_group_at};
use gql_values3::{OutOfMemory, Text};
use std::alloc::Global;

/// A group: its name, and what it stands for.
#[derive(Drop)]
pub struct HeldGroup<'a> {
    pub name: &'a Text,
    pub value: CowValue<'a>,
}

/// The first name of the steps that stands for a group, with what it stands for.
pub fn held_group<'a>(
    alloc: Global,
    scope: &Scope<'a>,
    steps: &'a [Instruction<'a>],
) -> Result<Option<HeldGroup<'a>>, OutOfMemory>
    ensures { IfOk result (λ group. option_map group_seen group ≡ option_map (held_pair scope.now) (find (is_group_at scope.now) (names_held (program_of steps.now)))) }
{
    let Some((places, name)) = first_group(scope, steps) else {
        return Ok(None);
    };
    let value = held_at(alloc, scope, places, name)?;
    Ok(Some(HeldGroup { name, value }))
}

/// The first name of the steps that stands for a group, with its places.
fn first_group<'a>(scope: &Scope, steps: &'a [Instruction<'a>]) -> Option<(Places, &'a Text)>
    ensures { option_map (λ h. (h.0, h.1.now)) result ≡ find (is_group_at scope.now) (names_held (program_of steps.now)) }
{
    for i in (0..steps.len()).rev() {
        let step = &steps[i];
        if let Some((places, name)) = name_held(step) {
            if is_group_at(scope, places, name) {
                return Some((places, name));
            }
        }
    }
    None
}

/// The name of a step that puts what one stands for, with its places.
fn name_held<'a>(step: &'a Instruction<'a>) -> Option<(Places, &'a Text)>
    ensures { option_map (λ h. (h.0, h.1.now)) result ≡ name_held (op_of step.now) }
{
    match step {
        Instruction::Name(places, name) | Instruction::Property(places, name, _) => {
            Some((*places, *name))
        }
        _ => None,
    }
}
