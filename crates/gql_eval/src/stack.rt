//! The stack on which the steps of a program work.

ghost use Rattle.std.specs.Prelude.{◌≡◌, [], ◌∷◌, true, nat_le, OnOk, MatchOption};
ghost use Rattle.gql_values3.specs.Nesting.{depth};
ghost use Rattle.gql_values3.specs.Meaning.{datum_of};
ghost use Rattle.gql_eval.specs.CowValue.{cow_datum};
ghost use Rattle.gql_eval.specs.Machinery.Steps.{is_boolean, has_on_top, has_null_on_top};

use crate::cow::CowValue;
use gql_values3::{OutOfMemory, Value};
use std::alloc::Global;
use std::marker::Model;

/// A value, and whether it is known that its lists are nested within the limit, so that nobody looks again.
#[derive(Drop)]
pub struct StackValue<'a> {
    value: CowValue<'a>,
    is_within: bool,
}

impl<'a> Model for StackValue<'a> {
    ghost use Rattle.std.specs.Prelude.{◌≡◌, true, nat_le};
    ghost use Rattle.gql_values3.specs.Datum.{Datum, coded_datum};
    ghost use Rattle.gql_values3.specs.Nesting.{depth};
    ghost use Rattle.gql_eval.specs.CowValue.{cow_datum};

    ghost Value = { Datum };

    ghost coded = { coded_datum };

    ghost view = { λ h. cow_datum h.value };

    ghost invariant = { λ h. h.is_within ≡ true → nat_le (depth (cow_datum h.value)) 64 ≡ true };
}

impl<'a> StackValue<'a> {
    /// A value of which nothing is known.
    pub fn any(value: CowValue<'a>) -> StackValue<'a>
        ensures { result ≡ cow_datum value.entry }
    {
        StackValue {
            value,
            is_within: false,
        }
    }

    /// A value whose lists are nested within the limit, where the flag is set.
    pub fn within(value: Value, is_within: bool) -> StackValue<'a>
        requires { is_within ≡ true → nat_le (depth (datum_of value)) 64 ≡ true }
        ensures { result ≡ datum_of value }
    {
        StackValue {
            value: CowValue::Owned(value),
            is_within,
        }
    }

    /// The value, wherever it stands.
    pub fn value(&self) -> &Value
        ensures { datum_of result.now ≡ self.now }
    {
        self.value.value()
    }

    /// The value, and whether it is known to be within the limit.
    pub fn into_parts(self) -> (CowValue<'a>, bool)
        ensures value { cow_datum result.0 ≡ self.entry }
        ensures within { result.1 ≡ true → nat_le (depth self.entry) 64 ≡ true }
    {
        let StackValue { value, is_within } = self;
        (value, is_within)
    }
}

/// Values, the last of which is the top. It is seen from the top on.
#[derive(Drop)]
pub struct Stack<'a> {
    items: Vec<StackValue<'a>>,
}

impl<'a> Model for Stack<'a> {
    ghost use Rattle.std.specs.Prelude.{List};
    ghost use Rattle.std.specs.Coded.{coded_list};
    ghost use Rattle.gql_values3.specs.Datum.{Datum, coded_datum};
    ghost use Rattle.gql_eval.specs.Machinery.Turned.{turned};

    ghost Value = { List Datum };

    ghost coded = { coded_list coded_datum };

    ghost view = { λ s. turned (λ (d : Datum). d) s.items.items };
}

impl<'a> Stack<'a> {
    /// No values.
    pub fn new(alloc: Global) -> Stack<'a>
        ensures { result ≡ [] }
    {
        Stack {
            items: Vec::new(alloc),
        }
    }

    /// Puts a value on top.
    #[tactic(auto, using(crate::proofs::TurnedLemmas::turned_last))]
    pub fn push(&mut self, held: StackValue<'a>) -> Result<(), OutOfMemory>
        ensures { OnOk result (self.new ≡ held.entry ∷ self.old) }
    {
        self.items.push(held)?;
        Ok(())
    }

    /// Takes the top.
    #[tactic(auto, using(crate::proofs::TurnedLemmas::turned_last))]
    pub fn pop(&mut self) -> Option<StackValue<'a>>
        ensures { MatchOption result (self.old ≡ []) (λ held. self.old ≡ held ∷ self.new) }
    {
        self.items.pop()
    }

    /// Whether the boolean stands on top.
    #[tactic(auto, using(crate::proofs::TurnedLemmas::turned_last))]
    pub fn has_on_top(&self, wanted: bool) -> bool
        ensures { result ≡ has_on_top wanted self.now }
    {
        match self.items.last() {
            Some(held) => is_boolean(held.value(), wanted),
            None => false,
        }
    }

    /// Whether NULL stands on top.
    #[tactic(auto, using(crate::proofs::TurnedLemmas::turned_last))]
    pub fn has_null_on_top(&self) -> bool
        ensures { result ≡ has_null_on_top self.now }
    {
        match self.items.last() {
            Some(held) => held.value().is_null(),
            None => false,
        }
    }
}

/// Whether the value is this boolean.
fn is_boolean(value: &Value, wanted: bool) -> bool
    ensures { result ≡ is_boolean wanted (datum_of value.now) }
{
    match (value, wanted) {
        (Value::Bool(true), true) => true,
        (Value::Bool(false), false) => true,
        _ => false,
    }
}
