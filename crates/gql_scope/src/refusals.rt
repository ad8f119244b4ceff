//! Of each code behind E08 the first refusal so far, in a walk over a query's clauses. E08 has no place here: since it comes
//! before all other codes, its first refusal ends the walk.

ghost use Rattle.std.specs.Prelude.{◌≡◌, Some, OnOk, is_some};
ghost use Rattle.std.specs.Option.{option_or};
ghost use Rattle.gql_expr_checks.specs.Gives.{Gives, Fails};
ghost use Rattle.gql_scope.specs.Machinery.Codes.{nothing_kept, first_kept};

use gql_ast::Refusal;
use gql_expr_checks::ScopeFault;
use gql_values3::OutOfMemory;

/// A code behind E08.
#[derive(Clone, Copy, Debug, PartialEq, Eq)]
pub enum Code {
    /// E09
    Kinds,
    /// E10
    GroupJoins,
    /// E11
    CondJoins,
    /// E12
    EmptyLoops,
    /// E13
    OpenEnds,
    /// E14
    GroupRefs,
    /// E15
    Misuses,
    /// E16
    Columns,
    /// E23
    Parameters,
}

/// Of each code behind E08 the first refusal so far.
#[derive(Drop)]
pub struct Refusals {
    pub kinds: Option<Refusal>,
    pub group_joins: Option<Refusal>,
    pub cond_joins: Option<Refusal>,
    pub empty_loops: Option<Refusal>,
    pub open_ends: Option<Refusal>,
    pub group_refs: Option<Refusal>,
    pub misuses: Option<Refusal>,
    pub columns: Option<Refusal>,
    pub parameters: Option<Refusal>,
}

impl Refusals {
    /// None of any code.
    pub fn new() -> Refusals
        ensures { result ≡ nothing_kept }
    {
        Refusals {
            kinds: None,
            group_joins: None,
            cond_joins: None,
            empty_loops: None,
            open_ends: None,
            group_refs: None,
            misuses: None,
            columns: None,
            parameters: None,
        }
    }

    /// Whether nothing is refused, or the first refusal in the order of the codes.
    pub fn answer(self) -> Result<(), ScopeFault>
        ensures { Gives result (first_kept self) }
    {
        if self.has_any() {
            self.refuse_first_kept()
        } else {
            Ok(())
        }
    }

    /// Whether some code has its refusal.
    #[tactic(auto, using(crate::proofs::CodeLemmas::some_of_three))]
    fn has_any(&self) -> bool
        ensures { result ≡ is_some (first_kept self.now) }
    {
        is_one_there(&self.kinds, &self.group_joins, &self.cond_joins)
            || is_one_there(&self.empty_loops, &self.open_ends, &self.group_refs)
            || is_one_there(&self.misuses, &self.columns, &self.parameters)
    }

    /// The first refusal in the order of the codes, if there is one.
    #[inline(never)]
    fn refuse_first_kept(self) -> Result<(), ScopeFault>
        ensures { Gives result (first_kept self) }
    {
        let Refusals {
            kinds,
            group_joins,
            cond_joins,
            empty_loops,
            open_ends,
            group_refs,
            misuses,
            columns,
            parameters,
        } = self;
        refuse_first(kinds, group_joins, cond_joins)?;
        refuse_first(empty_loops, open_ends, group_refs)?;
        refuse_first(misuses, columns, parameters)
    }
}

#[tactic(auto, using(crate::proofs::CodeLemmas::some_of_three))]
fn is_one_there(first: &Option<Refusal>, second: &Option<Refusal>, third: &Option<Refusal>) -> bool
    ensures { result ≡ is_some (option_or first.now (option_or second.now third.now)) }
{
    first.is_some() || second.is_some() || third.is_some()
}

/// Refuses by the first of three, if there is one.
fn refuse_first(
    first: Option<Refusal>,
    second: Option<Refusal>,
    third: Option<Refusal>,
) -> Result<(), ScopeFault>
    ensures { Gives result (option_or first (option_or second third)) }
{
    refuse(first)?;
    refuse(second)?;
    refuse(third)
}

fn refuse(found: Option<Refusal>) -> Result<(), ScopeFault>
    ensures { Gives result found }
{
    match found {
        None => Ok(()),
        Some(refusal) => Err(ScopeFault::Defect(refusal)),
    }
}

/// Keeps the refusal that a check answers, unless there was one before.
pub fn note(slot: &mut Option<Refusal>, answer: Result<(), ScopeFault>) -> Result<(), OutOfMemory>
    ensures { OnOk result ((o : _) → Gives answer o → slot.new ≡ option_or slot.old o) }
{
    match answer {
        Ok(_) => Ok(()),
        Err(fault) => note_fault(slot, fault),
    }
}

fn note_fault(slot: &mut Option<Refusal>, fault: ScopeFault) -> Result<(), OutOfMemory>
    ensures { OnOk result ((o : _) → Fails fault o → slot.new ≡ option_or slot.old o) }
{
    match fault {
        ScopeFault::Defect(refusal) => {
            keep(slot, refusal);
            Ok(())
        }
        ScopeFault::OutOfMemory => Err(OutOfMemory),
    }
}

/// Keeps the refusal, unless there was one before.
pub fn keep(slot: &mut Option<Refusal>, refusal: Refusal)
    ensures { slot.new ≡ option_or slot.old (Some refusal) }
{
    if slot.is_none() {
        *slot = Some(refusal);
    }
}
