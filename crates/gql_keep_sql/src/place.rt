//! Where the records of a store are: in a file, in memory, or nowhere yet.

ghost use Rattle.std.specs.Prelude.{◌≡◌, Some, None, IfOk, IfErr, OnOk, OnErr, IsOk, IsTrue, is_ok};
ghost use Rattle.std.specs.List.{list_all};
ghost use Rattle.sqlite.specs.Held.{IsNew};
ghost use Rattle.sqlite.specs.State.{HasCleanDisk};
ghost use Rattle.sqlite.specs.Files.{over_files, file_state};
ghost use Rattle.sqlite.specs.WalFiles.{image_at};
ghost use Rattle.sqlite.specs.Opening.{is_open_error};
ghost use Rattle.std.specs.Option.{option_copied};
ghost use Rattle.gql_keep_sql.specs.Fetched.{HasFound, AreAllRecords, IsRun, is_record, FailsToRead, held_at};
ghost use Rattle.gql_keep_sql.specs.Closing.{IsClosed, FailsToClose};
ghost use Rattle.gql_keep_sql.specs.Places.{IsUnder, IsFile, IsSamePlace};
ghost use Rattle.gql_keep_sql.specs.Refusals.{FailsOnlyBy};
ghost use Rattle.gql_keep_sql.specs.Written.{Writes, FailsToWrite};

use crate::fault::{CLOSED, NOT_A_STORE};
use crate::{memory, store, transaction};
use gql_ports::{Key, Record};
use sqlite::{Alter, Connection, Error, FileFrom, FileStore, Start, Wary};
use std::alloc::Global;

/// A database file and its log, which held what `S` says as they were opened.
pub type StoreFiles<S> = FileStore<FileFrom<S>>;

/// First contents of a file, of which each opening takes a value.
pub trait Supposed {
    fn supposed() -> Self;
}

impl Supposed for Wary {
    fn supposed() -> Wary {
        Wary
    }
}

/// Where the records are.
#[derive(Drop)]
pub enum Place<S: Alter> {
    /// Nothing was opened.
    Nowhere,
    /// In memory, in ascending order of their keys.
    Memory(Vec<Record>),
    File(String, Connection<S>),
}

impl<S: Alter> Place<S> {
    /// Whether it is open under that name, or without one.
    pub fn is_open_as(&self, name: Option<&str>) -> bool
        ensures own { IsTrue result → IsUnder (option_copied name.entry) self.now }
        ensures other { IsUnder (option_copied name.entry) self.now → IsTrue result }
    {
        match (self, name) {
            (Place::Memory(_), None) => true,
            (Place::File(own, _), Some(name)) => own.as_str() == name,
            _ => false,
        }
    }

    /// The record of that place in ascending order of the keys, where they are in memory.
    pub fn record(&self, index: u64) -> Option<&Record>
        ensures { option_copied result ≡ held_at self.now index }
    {
        match self {
            Place::Memory(records) => memory::at(records.as_slice(), index),
            _ => None,
        }
    }

    /// A run of records, from that key on.
    pub fn select(&mut self, alloc: Global, from: &Key) -> Result<Vec<Record>, Error>
        ensures place { IsSamePlace S.Store self.old self.new }
        ensures read { IfOk result (λ records. IsRun S.Store from.now records.items self.old self.new) }
        ensures refused { FailsOnlyBy result (FailsToRead S.Store from.now (list_all is_record) self.old self.new) }
    {
        match self {
            Place::Nowhere => Err(CLOSED),
            Place::Memory(_) => Err(CLOSED),
            Place::File(_, conn) => Ok(store::select(alloc, conn, from)?),
        }
    }

    /// Puts and drops all of these, or changes nothing.
    pub fn write(&mut self, puts: &[Record], drops: &[Key]) -> Result<(), Error>
        ensures writes { Writes S.Store puts.now drops.now (is_ok result) self.old self.new }
        ensures refused { FailsOnlyBy result (FailsToWrite S.Store puts.now drops.now self.old self.new) }
    {
        match self {
            Place::Nowhere => Err(CLOSED),
            Place::Memory(records) => memory::write(records, puts, drops),
            Place::File(_, conn) => transaction::write(conn, puts, drops),
        }
    }
}

/// Opens the named file, or memory where there is no name, and reads all records, in the order in which they lie.
pub fn open<S: Start + Supposed>(
    rt: &HostRuntime,
    alloc: Global,
    name: Option<&str>,
) -> Result<(Place<StoreFiles<S>>, Vec<Record>), Error>
    ensures under { IfOk result (λ opened. IsUnder (option_copied name.entry) opened.0) }
    ensures all { IfOk result (λ opened. AreAllRecords over_files (image_at S.Start) opened.1.items opened.0) }
    ensures memory { option_copied name.entry ≡ None → IsOk result }
{
    match name {
        Some(name) => open_file(rt, alloc, name),
        None => Ok(open_memory(alloc)),
    }
}

/// Copies SQLite's log into the file, which then stands alone.
pub fn close<S: Start>(place: Place<StoreFiles<S>>) -> Result<(), Error>
    ensures closed { OnOk result (IsClosed place) }
    ensures memory { OnErr result (IsFile place) }
    ensures refused { IfErr result (FailsToClose place) }
{
    match place {
        Place::Nowhere => Ok(()),
        Place::Memory(_) => Ok(()),
        Place::File(_, conn) => match conn.close_files() {
            Ok(_) => Ok(()),
            Err((error, store)) => {
                drop(store.close());
                Err(error)
            }
        },
    }
}

fn open_file<S: Start + Supposed>(
    rt: &HostRuntime,
    alloc: Global,
    name: &str,
) -> Result<(Place<StoreFiles<S>>, Vec<Record>), Error>
    ensures under { IfOk result (λ opened. IsUnder (Some name.now) opened.0) }
    ensures all { IfOk result (λ opened. AreAllRecords over_files (image_at S.Start) opened.1.items opened.0) }
{
    let own = String::from_str(alloc, name)?;
    let mut conn = connect(rt, name)?;
    store::establish(&mut conn)?;
    if !conn.is_autocommit() {
        return Err(NOT_A_STORE);
    }
    let records = store::select_all(alloc, &mut conn)?;
    Ok((Place::File(own, conn), records))
}

fn connect<S: Start + Supposed>(
    rt: &HostRuntime,
    path: &str,
) -> Result<Connection<StoreFiles<S>>, Error>
    ensures new { IfOk result IsNew }
    ensures found { IfOk result (λ conn. HasCleanDisk (file_state conn) → HasFound over_files (image_at S.Start) conn) }
    ensures named { IfErr result (λ e. IsTrue (is_open_error e)) }
{
    match Connection::open_from(rt, path, false, S::supposed()) {
        Ok(conn) => Ok(conn),
        Err((error, _)) => Err(error),
    }
}

fn open_memory<S: Start>(alloc: Global) -> (Place<StoreFiles<S>>, Vec<Record>)
    ensures under { IsUnder None result.0 }
    ensures all { AreAllRecords over_files (image_at S.Start) result.1.items result.0 }
{
    (Place::Memory(Vec::new(alloc)), Vec::new(alloc))
}
