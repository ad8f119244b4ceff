//! The place of a store, and a run of the records of a file that was read ahead: all of them behind an opening, 64 later on.

ghost use Rattle.std.specs.Prelude.{◌≡◌, [], ◌∷◌, ◌++◌, List, None, Some, IfOk, IfErr, IfSome, OnOk, OnErr, IsTrue, is_ok, reverse, Contains};
ghost use Rattle.std.specs.List.{list_all};
ghost use Rattle.std.specs.Option.{option_copied};
ghost use Rattle.gql_keep_sql.specs.Fetched.{AreReadAhead, IsRun, is_record, begin_with, FailsToRead, FailsToFetch, Fetches, AreAllKeys};
ghost use Rattle.gql_keep_sql.specs.Closing.{IsClosed, FailsToClose};
ghost use Rattle.gql_keep_sql.specs.Places.{IsUnder, IsFile, IsSamePlace};
ghost use Rattle.gql_keep_sql.specs.Refusals.{FailsOnlyBy};
ghost use Rattle.sqlite.specs.Files.{over_files};
ghost use Rattle.sqlite.specs.WalFiles.{image_at};
ghost use Rattle.gql_keep_sql.specs.Written.{Writes, FailsToWrite};

use crate::fault::NOT_A_STORE;
use crate::keys::Keys;
use crate::place::{self, Place, StoreFiles, Supposed};
use crate::{memory, store};
use gql_ports::{Key, Record};
use sqlite::{Alter, Error, Start};
use std::alloc::Global;

/// Where the records are, and those that were read last, while nothing else is asked there.
#[derive(Drop)]
pub struct Reader<S: Alter> {
    place: Place<S>,
    /// What is left of the run of records that was read last, the last record first.
    run: Vec<Record>,
    ghost held: { ∥ AreReadAhead S.Store run.items place ∥₁ },
}

impl<S: Alter> Reader<S> {
    /// Nothing was read there yet.
    pub fn new(alloc: Global, place: Place<S>) -> Reader<S>
        ensures { result.place ≡ place }
    {
        Reader {
            place,
            run: Vec::new(alloc),
        }
    }

    /// Whether it is open under that name, or without one.
    pub fn is_open_as(&self, name: Option<&str>) -> bool
        ensures own { IsTrue result → IsUnder (option_copied name.entry) self.now.place }
        ensures other { IsUnder (option_copied name.entry) self.now.place → IsTrue result }
    {
        self.place.is_open_as(name)
    }

    /// The record of that key, which has that place in the list of keys. Another key there is an error.
    pub fn fetch(&mut self, alloc: Global, index: u64, key: &Key) -> Result<Record, Error>
        ensures place { IsSamePlace S.Store self.old.place self.new.place }
        ensures key { IfOk result (λ r. r.key ≡ key.now) }
        ensures value { IfOk result (λ r. ∥ Fetches S.Store r.key r.value self.old.place self.new.place ∥₁) }
        ensures refused { FailsOnlyBy result (FailsToFetch S.Store index key.now self.old.place self.new.place) }
    {
        match self.place.record(index) {
            Some(record) => memory::copy_of(alloc, key, record),
            None => self.fetch_row(alloc, key),
        }
    }

    /// The same in a row. The record moves out of the run, and where it is not the next one there, a run is read from it on.
    fn fetch_row(&mut self, alloc: Global, key: &Key) -> Result<Record, Error>
        ensures place { IsSamePlace S.Store self.old.place self.new.place }
        ensures key { IfOk result (λ r. r.key ≡ key.now) }
        ensures value { IfOk result (λ r. ∥ Fetches S.Store r.key r.value self.old.place self.new.place ∥₁) }
        ensures refused { FailsOnlyBy result (FailsToRead S.Store key.now (begin_with key.now) self.old.place self.new.place) }
    {
        if let Some(record) = self.take(alloc, key) {
            return Ok(record);
        }
        self.read(alloc, key)?;
        match self.take(alloc, key) {
            Some(record) => Ok(record),
            None => Err(NOT_A_STORE),
        }
    }

    /// Puts and drops all of these, or changes nothing.
    pub fn write(&mut self, puts: &[Record], drops: &[Key]) -> Result<(), Error>
        ensures writes { Writes S.Store puts.now drops.now (is_ok result) self.old.place self.new.place }
        ensures refused { FailsOnlyBy result (FailsToWrite S.Store puts.now drops.now self.old.place self.new.place) }
    {
        self.run.clear();
        self.place.write(puts, drops)
    }

    /// Reads a run from that key on, in place of what is left of the last one.
    fn read(&mut self, alloc: Global, key: &Key) -> Result<(), Error>
        ensures place { IsSamePlace S.Store self.old.place self.new.place }
        ensures read { OnOk result (IsRun S.Store key.now (reverse self.new.run.items) self.old.place self.new.place) }
        ensures refused { FailsOnlyBy result (FailsToRead S.Store key.now (list_all is_record) self.old.place self.new.place) }
    {
        self.run = Vec::new(alloc);
        let mut run = self.place.select(alloc, key)?;
        run.reverse();
        self.run = run;
        Ok(())
    }

    /// Takes the next record of the run, where it has that key. The run is let go behind its last one.
    fn take(&mut self, alloc: Global, key: &Key) -> Option<Record>
        ensures place { self.new.place ≡ self.old.place }
        ensures record { IfSome result (λ r. Contains self.old.run.items r × (r.key ≡ key.now)) }
        ensures next { (front : List Record) (r : Record) → self.old.run.items ≡ front ++ r ∷ [] → r.key ≡ key.now → result ≡ Some r }
    {
        let record = self.run.pop()?;
        if self.run.is_empty() {
            self.run = Vec::new(alloc);
        }
        if record.key.as_slice() != key.as_slice() {
            return None;
        }
        Some(record)
    }
}

/// Opens the named file, or memory where there is no name. All its records are the first run, and their keys are given.
pub fn open<S: Start + Supposed>(
    rt: &HostRuntime,
    alloc: Global,
    name: Option<&str>,
) -> Result<(Reader<StoreFiles<S>>, Keys), Error>
    ensures under { IfOk result (λ opened. IsUnder (option_copied name.entry) opened.0.place) }
    ensures listed { IfOk result (λ opened. AreAllKeys over_files (image_at S.Start) opened.1 opened.0.place) }
    ensures memory { option_copied name.entry ≡ None → FailsOnlyBy result (λ _. ⊥) }
{
    let (place, records) = place::open(rt, alloc, name)?;
    let (keys, mut run) = store::in_order(alloc, records)?;
    run.reverse();
    let reader = Reader { place, run };
    Ok((reader, keys))
}

/// Copies SQLite's log into the file, which then stands alone.
pub fn close<S: Start>(reader: Reader<StoreFiles<S>>) -> Result<(), Error>
    ensures closed { OnOk result (IsClosed reader.place) }
    ensures memory { OnErr result (IsFile reader.place) }
    ensures refused { IfErr result (FailsToClose reader.place) }
{
    let Reader { place, run: _ } = reader;
    place::close(place)
}
