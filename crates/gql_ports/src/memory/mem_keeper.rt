//! A keeper in memory, which fails at the calls that it was told.

ghost use Rattle.std.specs.Prelude.{◌≡◌, ◌≤◌, ◌<◌, ◌+◌, ◌-◌, ◌^◌, ◌++◌, ◌↔◌, min, ℕ, true, false, List, Option, Some, None, option_map, length, map, IfOk, OnOk, OnErr, IfSome, IsTrue, slice_get, Contains, is_some, if◌then◌else◌};
ghost use Rattle.std.specs.Option.{option_copied};
ghost use Rattle.std.specs.List.{list_any};
ghost use Rattle.gql_values3.specs.Texts.{same_text};
ghost use Rattle.gql_ports.specs.Causes.{Rose, count_after};
ghost use Rattle.gql_ports.specs.Told.{MatchTold};
ghost use Rattle.gql_values3.specs.Texts.{texts_differ};
ghost use Rattle.gql_ports.specs.Held.{held_after_opening, same_name, Applies, value_at, value_after};
ghost use Rattle.gql_ports.specs.Memory.{held_by};

use crate::fault::KeepFault;
use crate::keeper::Keeper;
use crate::memory::fails_now;
use crate::records::Records;
use crate::stored::{Key, Record};
use gql_values3::{Numbers, OutOfMemory, Text};
use std::alloc::Global;

/// Records in memory.
#[derive(Debug, Drop)]
pub struct MemKeeper {
    /// The name that the records belong to, or None.
    pub name: Option<Text>,
    pub records: Records,
    /// The numbers of the calls that fail, from 1.
    pub fails: Numbers,
    /// How many calls of `open`, `fetch` and `apply` there were.
    pub calls: u64,
    /// How many of them failed by their number.
    pub faults: u64,
}

impl Keeper for MemKeeper {
    ghost held = { held_by };

    ghost count = { λ k. length k.records };

    ghost faults = { λ k. k.faults };

    fn open(&mut self, name: Option<&str>) -> Result<(), KeepFault>
        ensures ok { OnOk result (held_by self.new ≡ option_map (held_after_opening (option_copied name.entry)) (held_by self.old)) }
        ensures err { OnErr result (held_by self.new ≡ held_by self.old) }
        ensures later { self.old.faults ≤ self.new.faults }
        ensures failed { result ≡ Err KeepFault.Failed → Rose self.old.faults self.new.faults }
        ensures risen { self.new.faults ≡ count_after result self.old.faults }
        ensures honest { result ≡ Err KeepFault.Failed ↔ Contains self.old.fails self.new.calls }
        ensures counted { self.new.calls ≡ min (self.old.calls + 1) (2 ^ 64 - 1) }
        ensures settings { self.new.fails ≡ self.old.fails }
    {
        if fails_now(&self.fails, &mut self.calls, &mut self.faults) {
            return Err(KeepFault::Failed);
        }
        if is_name(&self.name, name) {
            return Ok(());
        }
        let alloc = self.records.allocator();
        self.name = copy_name(alloc, name)?;
        self.records = Records::new(alloc);
        Ok(())
    }

    fn keeps(&self) -> bool
        ensures told { result ≡ false → held_by self.now ≡ None }
        ensures always { result ≡ true }
    {
        true
    }

    fn len(&self) -> u64 {
        self.records.len() as u64
    }

    fn fetch(&mut self, alloc: Global, index: u64) -> Result<Record, KeepFault>
        requires { index < length self.old.records }
        ensures found { IfOk result (λ r. IfSome (held_by self.old) (λ h. slice_get h.records index ≡ Some r)) }
        ensures kept { held_by self.new ≡ held_by self.old }
        ensures same { length self.new.records ≡ length self.old.records }
        ensures later { self.old.faults ≤ self.new.faults }
        ensures failed { result ≡ Err KeepFault.Failed → Rose self.old.faults self.new.faults }
        ensures risen { self.new.faults ≡ count_after result self.old.faults }
        ensures honest { result ≡ Err KeepFault.Failed ↔ Contains self.old.fails self.new.calls }
        ensures counted { self.new.calls ≡ min (self.old.calls + 1) (2 ^ 64 - 1) }
        ensures settings { self.new.fails ≡ self.old.fails }
    {
        if fails_now(&self.fails, &mut self.calls, &mut self.faults) {
            return Err(KeepFault::Failed);
        }
        let Some(record) = self.records.get(index as usize) else {
            unreachable!()
        };
        Ok(record.try_copy(alloc)?)
    }

    fn apply(&mut self, puts: &[Record], drops: &[Key]) -> Result<(), KeepFault>
        requires { IsTrue (texts_differ (map (λ r. r.key) puts.now ++ drops.now)) }
        ensures ok { OnOk result (MatchTold (held_by self.old) (held_by self.new) (Applies puts.now drops.now)) }
        ensures err { OnErr result (held_by self.new ≡ held_by self.old) }
        ensures later { self.old.faults ≤ self.new.faults }
        ensures failed { result ≡ Err KeepFault.Failed → Rose self.old.faults self.new.faults }
        ensures risen { self.new.faults ≡ count_after result self.old.faults }
        ensures honest { result ≡ Err KeepFault.Failed ↔ Contains self.old.fails self.new.calls }
        ensures counted { self.new.calls ≡ min (self.old.calls + 1) (2 ^ 64 - 1) }
        ensures settings { self.new.fails ≡ self.old.fails }
    {
        if fails_now(&self.fails, &mut self.calls, &mut self.faults) {
            return Err(KeepFault::Failed);
        }
        self.records = changed(&self.records, puts, drops)?;
        Ok(())
    }
}

/// Whether the names are one, or both are none.
fn is_name(own: &Option<Text>, name: Option<&str>) -> bool
    ensures { result ≡ same_name (option_copied name.entry) own.now }
{
    match (own, name) {
        (None, None) => true,
        (Some(own), Some(name)) => name == own.as_str(),
        _ => false,
    }
}

fn copy_name(alloc: Global, name: Option<&str>) -> Result<Option<Text>, OutOfMemory>
    ensures { IfOk result (λ copy. copy ≡ option_copied name.entry) }
{
    match name {
        None => Ok(None),
        Some(name) => Ok(Some(Text::from_str(alloc, name)?)),
    }
}

/// A copy of the records in which these are put and those dropped.
fn changed(records: &Records, puts: &[Record], drops: &[Key]) -> Result<Records, OutOfMemory>
    ensures { IfOk result (λ after. (key : List ℕ) → value_at after key ≡ value_after puts.now drops.now key (value_at records.now key)) }
{
    let mut after = records.try_copy(records.allocator())?;
    drop_all(&mut after, drops);
    put_all(&mut after, puts)?;
    Ok(after)
}

fn drop_all(records: &mut Records, drops: &[Key])
    ensures { (key : List ℕ) → value_at records.new key ≡ (if list_any (same_text key) drops.now then None else value_at records.old key) }
{
    for key in drops {
        records.remove(key.as_slice());
    }
}

/// Puts a copy of each. From the last on, since a look-up in `puts` finds the first of a key, and so nothing hangs on
/// the keys being different. After an error some may be put.
fn put_all(records: &mut Records, puts: &[Record]) -> Result<(), OutOfMemory>
    ensures { OnOk result ((key : List ℕ) → value_at records.new key ≡ (if is_some (value_at puts.now key) then value_at puts.now key else value_at records.old key)) }
{
    let alloc = records.allocator();
    for i in (0..puts.len()).rev() {
        records.put(puts[i].try_copy(alloc)?)?;
    }
    Ok(())
}
