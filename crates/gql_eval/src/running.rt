//! The run over the steps of a program.

ghost use Rattle.std.specs.Prelude.{◌≡◌, [], length, take, ◌≤◌};
ghost use Rattle.gql_ast.specs.Meaning.{tree_of};
ghost use Rattle.gql_ast.specs.Evaluation.{value_of};
ghost use Rattle.gql_eval.specs.CowValue.{cow_datum};
ghost use Rattle.gql_eval.specs.Gives.{Gives};
ghost use Rattle.gql_eval.specs.Machinery.InstructionMeaning.{op_of, program_of};
ghost use Rattle.gql_eval.specs.Machinery.Next.{next};
ghost use Rattle.gql_eval.specs.Machinery.Steps.{acted, ran, skipped, top_of};
ghost use Rattle.gql_eval.specs.Machinery.Compiled.{argument_behind, arguments_behind, compiled};
ghost use Rattle.gql_eval.specs.Machinery.ScopeMeaning.{scope_of};

use crate::cow::CowValue;
use crate::error::EvalError;
use crate::instruction::Instruction;
use crate::over_groups::put_over_group;
use crate::scope::{Scope, held_at};
use crate::stack::Stack;
use crate::steps::{
    add_item, drop_null, end_list, join_all, join_any, join_side, on_both, on_top, put, put_name,
    put_property, read_top,
};
use gql_ast::{DataFault, Expr};
use gql_values3::{List, Params, Value, View};
use std::alloc::Global;

/// The value of the expression that a program was made of, or its first fault.
#[cycle(running)]
pub fn value_of_program<'r, V: View>(
    alloc: Global,
    view: &'r V,
    scope: &Scope<'r>,
    params: &'r Params,
    expr: &'r Expr,
    program: &'r [Instruction<'r>],
) -> Result<CowValue<'r>, EvalError>
    requires { program_of program.now ≡ compiled scope.now.columns.now scope.now.names.now params.now (tree_of expr.now) }
    ensures { Gives cow_datum result (value_of (V.graph view.now) params.now (scope_of scope.now) (tree_of expr.now)) }
{
    // The expression is there for the contract alone.
    let _ = expr;
    run(alloc, view, scope, params, program)
}

/// The value that the steps of a program put on top, or their first fault.
#[cycle(running)]
#[tactic(auto, using(crate::proofs::ProgramLemmas::one_step))]
fn run<'r, V: View>(
    alloc: Global,
    view: &'r V,
    scope: &Scope<'r>,
    params: &'r Params,
    program: &'r [Instruction<'r>],
) -> Result<CowValue<'r>, EvalError>
    requires { arguments_behind scope.now.columns.now scope.now.names.now params.now (program_of program.now) }
    ensures { Gives cow_datum result (next (ran (V.graph view.now) params.now scope.now (program_of program.now) []) top_of) }
{
    if program.len() == 1 {
        let instruction = &program[0];
        return run_one(alloc, view, scope, params, instruction);
    }
    let mut stack = Stack::new(alloc);
    run_on(alloc, view, scope, params, program, &mut stack)?;
    top_of(stack)
}

/// The value of a program of one step, without a stack where the step only lends.
#[cycle(running)]
#[tactic(auto, using(crate::proofs::ProgramLemmas::one_value))]
fn run_one<'r, V: View>(
    alloc: Global,
    view: &'r V,
    scope: &Scope<'r>,
    params: &'r Params,
    instruction: &'r Instruction<'r>,
) -> Result<CowValue<'r>, EvalError>
    requires { argument_behind scope.now.columns.now scope.now.names.now params.now (op_of instruction.now) [] }
    ensures { Gives cow_datum result (next (acted (V.graph view.now) params.now scope.now (op_of instruction.now) []) top_of) }
{
    match instruction {
        Instruction::Fixed(value) => Ok(CowValue::Borrowed(value.value())),
        Instruction::Name(places, name) => Ok(held_at(alloc, scope, *places, *name)?),
        _ => run_alone(alloc, view, scope, params, instruction),
    }
}

/// The same on a stack.
#[inline(never)]
#[cycle(running)]
fn run_alone<'r, V: View>(
    alloc: Global,
    view: &'r V,
    scope: &Scope<'r>,
    params: &'r Params,
    instruction: &'r Instruction<'r>,
) -> Result<CowValue<'r>, EvalError>
    requires { argument_behind scope.now.columns.now scope.now.names.now params.now (op_of instruction.now) [] }
    ensures { Gives cow_datum result (next (acted (V.graph view.now) params.now scope.now (op_of instruction.now) []) top_of) }
{
    let mut stack = Stack::new(alloc);
    run_instruction(alloc, view, scope, params, instruction, &[], &mut stack)?;
    top_of(stack)
}

/// What stands on top in the end.
fn top_of<'r>(mut stack: Stack<'r>) -> Result<CowValue<'r>, EvalError>
    ensures { Gives cow_datum result (top_of stack.entry) }
{
    match stack.pop() {
        Some(held) => {
            let (value, _) = held.into_parts();
            Ok(value)
        }
        None => Err(EvalError::Fault(DataFault::WrongKind)),
    }
}

/// Does the steps of a program on a stack.
#[cycle(running)]
fn run_on<'r, V: View>(
    alloc: Global,
    view: &'r V,
    scope: &Scope<'r>,
    params: &'r Params,
    program: &'r [Instruction<'r>],
    stack: &mut Stack<'r>,
) -> Result<(), EvalError>
    requires { arguments_behind scope.now.columns.now scope.now.names.now params.now (program_of program.now) }
    ensures { Gives (λ _. stack.new) result (ran (V.graph view.now) params.now scope.now (program_of program.now) stack.old) }
{
    let mut left = program.len();
    while left > 0 {
        let at = left - 1;
        let instruction = &program[at];
        let count = skipped(instruction, stack);
        run_instruction(
            alloc,
            view,
            scope,
            params,
            instruction,
            &program[..at],
            stack,
        )?;
        left = at.saturating_sub(count);
    }
    Ok(())
}

/// How many steps behind this one are skipped.
fn skipped(instruction: &Instruction, stack: &Stack) -> usize
    ensures { result ≡ skipped (op_of instruction.now) stack.now }
{
    match instruction {
        Instruction::SkipIf(wanted, count) => { if stack.has_on_top(*wanted) { *count } else { 0 } }
        Instruction::OrElse(count) => { if stack.has_null_on_top() { 0 } else { *count } }
        Instruction::OverGroup(_, _, _, count) => *count,
        _ => 0,
    }
}

/// Does one step, which has these behind it.
#[cycle(running)]
fn run_instruction<'r, V: View>(
    alloc: Global,
    view: &'r V,
    scope: &Scope<'r>,
    params: &'r Params,
    instruction: &'r Instruction<'r>,
    behind: &'r [Instruction<'r>],
    stack: &mut Stack<'r>,
) -> Result<(), EvalError>
    requires { argument_behind scope.now.columns.now scope.now.names.now params.now (op_of instruction.now) (program_of behind.now) }
    ensures { Gives (λ _. stack.new) result (acted (V.graph view.now) params.now scope.now (op_of instruction.now) stack.old) }
{
    match instruction {
        Instruction::Fixed(value) => put(stack, CowValue::Borrowed(value.value())),
        Instruction::Name(places, name) => put_name(alloc, scope, *places, *name, stack),
        Instruction::Property(places, name, key) => {
            put_property(alloc, view, scope, *places, *name, *key, stack)
        }
        Instruction::OfOne(expr) => on_top(alloc, view, *expr, stack),
        Instruction::OfTwo(expr) => on_both(view, *expr, stack),
        Instruction::JoinSide(operator) => join_side(alloc, *operator, stack),
        Instruction::AsTruth => read_top(stack),
        Instruction::JoinAll => join_all(stack),
        Instruction::JoinAny(operator) => join_any(*operator, stack),
        Instruction::SkipIf(_, _) => Ok(()),
        Instruction::StartList => put(stack, CowValue::Owned(Value::List(List::new(alloc)))),
        Instruction::AddItem => add_item(alloc, stack),
        Instruction::EndList => end_list(alloc, stack),
        Instruction::OrElse(_) => Ok(drop_null(stack)),
        Instruction::OverGroup(word, quantifier, part, count) => {
            put_over_group(
                alloc,
                view,
                scope,
                params,
                *word,
                *quantifier,
                *part,
                last_of(behind, *count),
                stack,
            )
        }
    }
}

/// The last so many, or all where there are fewer.
#[tactic(auto, using(crate::proofs::TurnedLemmas::turned_end))]
fn last_of<'r>(steps: &'r [Instruction<'r>], count: usize) -> &'r [Instruction<'r>]
    ensures steps { program_of result.now ≡ take count (program_of steps.now) }
    ensures length { length result.now ≤ length steps.now }
{
    let start = steps.len().saturating_sub(count);
    &steps[start..]
}
