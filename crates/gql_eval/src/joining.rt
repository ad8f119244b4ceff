//! `||`, which joins two strings or two lists.

ghost use Rattle.std.specs.Prelude.{◌≡◌, ◌++◌, map, nat_le, true, IfOk};
ghost use Rattle.gql_values3.specs.Meaning.{datum_of};
ghost use Rattle.gql_values3.specs.Nesting.{depth, depth_all};
ghost use Rattle.gql_ast.specs.Operators.{concatenated, made_text, made_list};
ghost use Rattle.gql_eval.specs.Gives.{Gives};

use crate::error::EvalError;
use crate::making::{MOST_DEPTH, MOST_ITEMS, MOST_TEXT, are_within};
use gql_ast::DataFault;
use gql_values3::{List, OutOfMemory, Text, Value};
use std::alloc::Global;

/// `||`, which joins two strings or two lists. It adds to the left one; the items of a left list are looked at only
/// where it isn't known to be within the limit of nesting, so that a chain takes time linear in its result.
#[tactic(auto, using(crate::proofs::ItemLemmas::items_again))]
pub fn join(alloc: Global, a: Value, is_within: bool, b: &Value) -> Result<Value, EvalError>
    requires within { is_within ≡ true → nat_le (depth (datum_of a)) 64 ≡ true }
    ensures value { Gives datum_of result (concatenated (datum_of a) (datum_of b.now)) }
    ensures within { IfOk result (λ value. nat_le (depth (datum_of value)) 64 ≡ true) }
{
    match (a, b) {
        (Value::Null, _) | (_, Value::Null) => Ok(Value::Null),
        (Value::Text(a), Value::Text(b)) => join_texts(a, b.as_str()),
        (Value::List(a), Value::List(b)) => join_lists(alloc, a, is_within, b.as_slice()),
        _ => Err(EvalError::Fault(DataFault::WrongKind)),
    }
}

fn join_texts(mut a: Text, b: &str) -> Result<Value, EvalError>
    ensures value { Gives datum_of result (made_text (a ++ b.now)) }
    ensures within { IfOk result (λ value. nat_le (depth (datum_of value)) 64 ≡ true) }
{
    if a.len() > MOST_TEXT || b.len() > MOST_TEXT - a.len() {
        return Err(EvalError::Fault(DataFault::TooLarge));
    }
    a.push_str(b)?;
    Ok(Value::Text(a))
}

fn join_lists(alloc: Global, a: List, is_within: bool, b: &[Value]) -> Result<Value, EvalError>
    requires within { is_within ≡ true → nat_le (depth_all a) 63 ≡ true }
    ensures value { Gives datum_of result (made_list (a ++ map datum_of b.now)) }
    ensures within { IfOk result (λ value. nat_le (depth (datum_of value)) 64 ≡ true) }
{
    if a.len() > MOST_ITEMS || b.len() > MOST_ITEMS - a.len() {
        return Err(EvalError::Fault(DataFault::TooLarge));
    }
    if !are_both_within(a.as_slice(), is_within, b) {
        return Err(EvalError::Fault(DataFault::TooDeep));
    }
    Ok(Value::List(join_items(alloc, a, b)?))
}

/// Whether the items of both are nested at most so deep that a list of them is allowed.
#[tactic(auto, using(crate::proofs::JoiningLemmas::within_append))]
fn are_both_within(a: &[Value], is_within: bool, b: &[Value]) -> bool
    requires within { is_within ≡ true → nat_le (depth_all (map datum_of a.now)) 63 ≡ true }
    ensures { result ≡ nat_le (depth_all (map datum_of a.now ++ map datum_of b.now)) 63 }
{
    let most = MOST_DEPTH - 1;
    (is_within || are_within(a, most)) && are_within(b, most)
}

fn join_items(alloc: Global, mut a: List, b: &[Value]) -> Result<List, OutOfMemory>
    ensures { IfOk result (λ items. items ≡ a ++ map datum_of b.now) }
{
    for item in b {
        a.push(item.try_copy(alloc)?)?;
    }
    Ok(a)
}
