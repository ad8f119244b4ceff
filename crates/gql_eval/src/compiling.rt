//! From an expression to its program.

ghost use Rattle.std.specs.Prelude.{◌≡◌, [], ◌∷◌, ◌++◌, map, OnOk};
ghost use Rattle.gql_ast.specs.Tree.{trees_of, links_of};
ghost use Rattle.gql_ast.specs.Meaning.{tree_of, link_of};
ghost use Rattle.gql_eval.specs.CowValue.{cow_datum};
ghost use Rattle.gql_eval.specs.Machinery.Steps.{as_truth, join_any, of_one, of_two};
ghost use Rattle.gql_eval.specs.Machinery.Compiled.{compiled, compiled_items, compiled_others, listing_steps, constant_list, aggregate_steps, compiled_chain, compiled_all, compiled_any, any_side, is_xor};
ghost use Rattle.gql_eval.specs.Machinery.InstructionMeaning.{op_of, program_of};

use crate::constants::constant_list;
use crate::cow::CowValue;
use crate::instruction::Instruction;
use crate::leaves::{number_within, parameter};
use crate::places::places_in;
use gql_ast::{Aggregate, Expr, Operator, SetQuantifier, Step};
use gql_values3::{ColumnKind, OutOfMemory, Params, Text, Value};

// A program is made and kept from its last step on.

/// Puts the steps of the expression in front of a program.
#[cycle(compiling)]
pub fn compile<'a>(
    columns: &'a [(Text, ColumnKind)],
    names: &'a [Text],
    params: &'a Params,
    expr: &'a Expr,
    program: &mut Vec<Instruction<'a>>,
) -> Result<(), OutOfMemory>
    ensures { OnOk result (program_of program.new.items ≡ compiled columns.now names.now params.now (tree_of expr.now) ++ program_of program.old.items) }
{
    match expr {
        Expr::Constant(value) => put(program, Instruction::Fixed(CowValue::Borrowed(value))),
        Expr::Unknown | Expr::CountAll => put(
            program,
            Instruction::Fixed(CowValue::Owned(Value::Null)),
        ),
        Expr::Number(digits) => put(
            program,
            Instruction::Fixed(CowValue::Owned(number_within(digits)?)),
        ),
        Expr::Parameter(name) => put(program, Instruction::Fixed(parameter(params, name))),
        Expr::Name(name) => put(
            program,
            Instruction::Name(places_in(columns, names, name), name),
        ),
        Expr::Property(name, key) => put(
            program,
            Instruction::Property(places_in(columns, names, name), name, key),
        ),
        Expr::Paren(part) => compile(columns, names, params, part.expr(), program),
        Expr::List(parts) => list(columns, names, params, parts.as_slice(), program),
        Expr::Aggregate(word, quantifier, part) => {
            over_group(
                columns,
                names,
                params,
                *word,
                *quantifier,
                part.expr(),
                program,
            )
        }
        Expr::Coalesce(first, rest) => {
            others(columns, names, params, rest.as_slice(), program)?;
            compile(columns, names, params, first.expr(), program)
        }
        Expr::IsEnd(part, _, _, edge) => {
            put(program, Instruction::OfTwo(expr))?;
            put(
                program,
                Instruction::Name(places_in(columns, names, edge), edge),
            )?;
            compile(columns, names, params, part.expr(), program)
        }
        Expr::Call(_, part)
        | Expr::Signed(_, part)
        | Expr::Is(part, _, _)
        | Expr::IsLabeled(part, _, _)
        | Expr::Not(part) => operation(columns, names, params, expr, part.expr(), program),
        Expr::Mod(a, b) | Expr::Compare(_, a, b) => {
            binary(columns, names, params, expr, a.expr(), b.expr(), program)
        }
        Expr::Product(first, steps) | Expr::Sum(first, steps) => {
            chain(
                columns,
                names,
                params,
                first.expr(),
                steps.as_slice(),
                program,
            )
        }
        Expr::And(first, steps) => {
            all_sides(columns, names, params, steps.as_slice(), program)?;
            put_truth(columns, names, params, first.expr(), program)
        }
        Expr::Or(first, steps) => {
            any_sides(columns, names, params, steps.as_slice(), program)?;
            put_truth(columns, names, params, first.expr(), program)
        }
    }
}

/// Puts one step in front.
#[tactic(auto, using(crate::proofs::TurnedLemmas::turned_last))]
pub fn put<'a>(program: &mut Vec<Instruction<'a>>, step: Instruction<'a>) -> Result<(), OutOfMemory>
    ensures { OnOk result (program_of program.new.items ≡ op_of step.entry ∷ program_of program.old.items) }
{
    program.push(step)?;
    Ok(())
}

#[inline(never)]
#[cycle(compiling)]
fn operation<'a>(
    columns: &'a [(Text, ColumnKind)],
    names: &'a [Text],
    params: &'a Params,
    expr: &'a Expr,
    part: &'a Expr,
    program: &mut Vec<Instruction<'a>>,
) -> Result<(), OutOfMemory>
    ensures { OnOk result (program_of program.new.items ≡ compiled columns.now names.now params.now (tree_of part.now) ++ of_one (tree_of expr.now) ∷ program_of program.old.items) }
{
    put(program, Instruction::OfOne(expr))?;
    compile(columns, names, params, part, program)
}

#[inline(never)]
#[cycle(compiling)]
fn binary<'a>(
    columns: &'a [(Text, ColumnKind)],
    names: &'a [Text],
    params: &'a Params,
    expr: &'a Expr,
    a: &'a Expr,
    b: &'a Expr,
    program: &mut Vec<Instruction<'a>>,
) -> Result<(), OutOfMemory>
    ensures { OnOk result (program_of program.new.items ≡ compiled columns.now names.now params.now (tree_of a.now) ++ (compiled columns.now names.now params.now (tree_of b.now) ++ of_two (tree_of expr.now) ∷ program_of program.old.items)) }
{
    put(program, Instruction::OfTwo(expr))?;
    compile(columns, names, params, b, program)?;
    compile(columns, names, params, a, program)
}

/// Puts the steps of a list; one of constants alone is made here.
#[inline(never)]
#[cycle(compiling)]
fn list<'a>(
    columns: &'a [(Text, ColumnKind)],
    names: &'a [Text],
    params: &'a Params,
    parts: &'a [Expr],
    program: &mut Vec<Instruction<'a>>,
) -> Result<(), OutOfMemory>
    ensures { OnOk result (program_of program.new.items ≡ listing_steps (constant_list params.now (trees_of (map tree_of parts.now))) (compiled_items columns.now names.now params.now (trees_of (map tree_of parts.now))) ++ program_of program.old.items) }
{
    let alloc = *program.allocator();
    if let Some(value) = constant_list(alloc, params, parts)? {
        return put(program, Instruction::Fixed(CowValue::Owned(value)));
    }
    put(program, Instruction::EndList)?;
    items(columns, names, params, parts, program)?;
    put(program, Instruction::StartList)
}

/// Puts the steps of a list's items.
#[inline(never)]
#[cycle(compiling)]
fn items<'a>(
    columns: &'a [(Text, ColumnKind)],
    names: &'a [Text],
    params: &'a Params,
    parts: &'a [Expr],
    program: &mut Vec<Instruction<'a>>,
) -> Result<(), OutOfMemory>
    ensures { OnOk result (program_of program.new.items ≡ compiled_items columns.now names.now params.now (trees_of (map tree_of parts.now)) ++ program_of program.old.items) }
{
    for i in (0..parts.len()).rev() {
        put(program, Instruction::AddItem)?;
        compile(columns, names, params, &parts[i], program)?;
    }
    Ok(())
}

/// Puts the steps of what COALESCE goes on to behind the first.
#[inline(never)]
#[cycle(compiling)]
fn others<'a>(
    columns: &'a [(Text, ColumnKind)],
    names: &'a [Text],
    params: &'a Params,
    parts: &'a [Expr],
    program: &mut Vec<Instruction<'a>>,
) -> Result<(), OutOfMemory>
    ensures { OnOk result (program_of program.new.items ≡ compiled_others columns.now names.now params.now (trees_of (map tree_of parts.now)) ++ program_of program.old.items) }
{
    let behind = program.len();
    for i in (0..parts.len()).rev() {
        compile(columns, names, params, &parts[i], program)?;
        let count = program.len() - behind;
        put(program, Instruction::OrElse(count))?;
    }
    Ok(())
}

/// Puts the steps of an aggregate over a group.
#[inline(never)]
#[cycle(compiling)]
fn over_group<'a>(
    columns: &'a [(Text, ColumnKind)],
    names: &'a [Text],
    params: &'a Params,
    word: Aggregate,
    quantifier: SetQuantifier,
    part: &'a Expr,
    program: &mut Vec<Instruction<'a>>,
) -> Result<(), OutOfMemory>
    ensures { OnOk result (program_of program.new.items ≡ aggregate_steps word quantifier (tree_of part.now) (compiled columns.now names.now params.now (tree_of part.now)) ++ program_of program.old.items) }
{
    let behind = program.len();
    compile(columns, names, params, part, program)?;
    let count = program.len() - behind;
    put(
        program,
        Instruction::OverGroup(word, quantifier, part, count),
    )
}

#[inline(never)]
#[cycle(compiling)]
fn chain<'a>(
    columns: &'a [(Text, ColumnKind)],
    names: &'a [Text],
    params: &'a Params,
    first: &'a Expr,
    steps: &'a [Step],
    program: &mut Vec<Instruction<'a>>,
) -> Result<(), OutOfMemory>
    ensures { OnOk result (program_of program.new.items ≡ compiled columns.now names.now params.now (tree_of first.now) ++ (compiled_chain columns.now names.now params.now (links_of (map link_of steps.now)) ++ program_of program.old.items)) }
{
    for i in (0..steps.len()).rev() {
        let step = &steps[i];
        put(program, Instruction::JoinSide(step.operator))?;
        compile(columns, names, params, &step.operand, program)?;
    }
    compile(columns, names, params, first, program)
}

/// Puts the steps of a side that is read as a truth.
#[inline(never)]
#[cycle(compiling)]
fn put_truth<'a>(
    columns: &'a [(Text, ColumnKind)],
    names: &'a [Text],
    params: &'a Params,
    side: &'a Expr,
    program: &mut Vec<Instruction<'a>>,
) -> Result<(), OutOfMemory>
    ensures { OnOk result (program_of program.new.items ≡ compiled columns.now names.now params.now (tree_of side.now) ++ as_truth ∷ program_of program.old.items) }
{
    put(program, Instruction::AsTruth)?;
    compile(columns, names, params, side, program)
}

/// Puts the steps of the sides of AND behind the first.
#[inline(never)]
#[cycle(compiling)]
fn all_sides<'a>(
    columns: &'a [(Text, ColumnKind)],
    names: &'a [Text],
    params: &'a Params,
    steps: &'a [Step],
    program: &mut Vec<Instruction<'a>>,
) -> Result<(), OutOfMemory>
    ensures { OnOk result (program_of program.new.items ≡ compiled_all columns.now names.now params.now (links_of (map link_of steps.now)) ++ program_of program.old.items) }
{
    let behind = program.len();
    for i in (0..steps.len()).rev() {
        let step = &steps[i];
        put(program, Instruction::JoinAll)?;
        compile(columns, names, params, &step.operand, program)?;
        let count = program.len() - behind;
        put(program, Instruction::SkipIf(false, count))?;
    }
    Ok(())
}

/// Puts the steps of the sides of OR and XOR behind the first.
#[inline(never)]
#[cycle(compiling)]
fn any_sides<'a>(
    columns: &'a [(Text, ColumnKind)],
    names: &'a [Text],
    params: &'a Params,
    steps: &'a [Step],
    program: &mut Vec<Instruction<'a>>,
) -> Result<(), OutOfMemory>
    ensures { OnOk result (program_of program.new.items ≡ compiled_any columns.now names.now params.now (links_of (map link_of steps.now)) ++ program_of program.old.items) }
{
    for i in (0..steps.len()).rev() {
        let step = &steps[i];
        put_any_side(
            columns,
            names,
            params,
            step.operator,
            &step.operand,
            program,
        )?;
    }
    Ok(())
}

/// Puts the steps of a side of OR or XOR.
#[inline(never)]
#[cycle(compiling)]
fn put_any_side<'a>(
    columns: &'a [(Text, ColumnKind)],
    names: &'a [Text],
    params: &'a Params,
    operator: Operator,
    side: &'a Expr,
    program: &mut Vec<Instruction<'a>>,
) -> Result<(), OutOfMemory>
    ensures { OnOk result (program_of program.new.items ≡ any_side operator (compiled columns.now names.now params.now (tree_of side.now) ++ join_any operator ∷ []) ++ program_of program.old.items) }
{
    let behind = program.len();
    put(program, Instruction::JoinAny(operator))?;
    compile(columns, names, params, side, program)?;
    if is_xor(operator) {
        return Ok(());
    }
    let count = program.len() - behind;
    put(program, Instruction::SkipIf(true, count))?;
    Ok(())
}

/// Whether the operator is XOR, which skips no side.
fn is_xor(operator: Operator) -> bool
    ensures { result ≡ is_xor operator }
{
    operator == Operator::Xor
}
