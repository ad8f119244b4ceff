//! Lists of which all items are constants, which are made once.

ghost use Rattle.std.specs.Prelude.{◌≡◌, map, option_map, IfOk};
ghost use Rattle.gql_values3.specs.Meaning.{datum_of};
ghost use Rattle.gql_ast.specs.Tree.{trees_of};
ghost use Rattle.gql_ast.specs.Meaning.{tree_of};
ghost use Rattle.gql_eval.specs.CowValue.{cow_datum};
ghost use Rattle.gql_eval.specs.Machinery.Compiled.{constant_of, constants_of, constant_list};

use crate::cow::CowValue;
use crate::leaves::{number_within, parameter};
use crate::making::list_value;
use gql_ast::Expr;
use gql_values3::{List, OutOfMemory, Params, Value};
use std::alloc::Global;

/// The list of these items, where it is the same in every row and within the limits.
pub fn constant_list(
    alloc: Global,
    params: &Params,
    parts: &[Expr],
) -> Result<Option<Value>, OutOfMemory>
    ensures { IfOk result (λ value. option_map datum_of value ≡ constant_list params.now (trees_of (map tree_of parts.now))) }
{
    let Some(items) = constants(alloc, params, parts)? else {
        return Ok(None);
    };
    match list_value(items) {
        Ok(value) => Ok(Some(value)),
        Err(_) => Ok(None),
    }
}

/// What these are, where each is a constant.
fn constants(alloc: Global, params: &Params, parts: &[Expr]) -> Result<Option<List>, OutOfMemory>
    ensures { IfOk result (λ items. items ≡ constants_of params.now (trees_of (map tree_of parts.now))) }
{
    let mut items = List::new(alloc);
    for i in 0..parts.len() {
        let Some(value) = constant(params, &parts[i])? else {
            return Ok(None);
        };
        items.push(value.into_value(alloc)?)?;
    }
    Ok(Some(items))
}

/// What an expression is in every row, where that is seen at once.
fn constant<'a>(params: &'a Params, part: &'a Expr) -> Result<Option<CowValue<'a>>, OutOfMemory>
    ensures { IfOk result (λ value. option_map cow_datum value ≡ constant_of params.now (tree_of part.now)) }
{
    match part {
        Expr::Constant(value) => Ok(Some(CowValue::Borrowed(value))),
        Expr::Unknown => Ok(Some(CowValue::Owned(Value::Null))),
        Expr::Number(digits) => Ok(Some(CowValue::Owned(number_within(digits)?))),
        Expr::Parameter(name) => Ok(Some(parameter(params, name))),
        _ => Ok(None),
    }
}
