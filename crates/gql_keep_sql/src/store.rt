//! A store: a database with one table, and what is read there.

ghost use Rattle.std.specs.Prelude.{◌≡◌, ℕ, [], Ok, Err, IfOk, IfErr, OnOk, IsPermutation};
ghost use Rattle.std.specs.List.{AllZip, list_all};
ghost use Rattle.sqlite.specs.declared.types.Value.TheVariants.{Blob};
ghost use Rattle.sqlite.specs.Order.{column};
ghost use Rattle.sqlite.specs.State.{HasCleanDisk, Survives, Executes};
ghost use Rattle.sqlite.specs.Held.{state};
ghost use Rattle.gql_values3.specs.Texts.{texts_differ};
ghost use Rattle.gql_keep_sql.specs.Established.{table, is_text, Establishes, FailsToEstablish};
ghost use Rattle.gql_keep_sql.specs.Fetched.{SelectsAll, SelectsRun, AreRead, HasRecord, is_blob, is_record, IsRefusedRun, FailsToSelect};
ghost use Rattle.gql_keep_sql.specs.Keys.{keys_of};
ghost use Rattle.gql_keep_sql.specs.OnlyRead.{CommitsRun, IsOnlyRead};
ghost use Rattle.gql_keep_sql.specs.Refusals.{SucceedsIff, FailsOnlyBy};
ghost use Rattle.gql_keep_sql.specs.Rests.{Rests};

use crate::fault::{NO_MEMORY, NOT_A_STORE};
use crate::keys::Keys;
use crate::memory;
use gql_ports::{Key, Record};
use gql_values3::Bytes;
use sqlite::types::ValueRef;
use sqlite::{Alter, Connection, Error, Row, params};
use std::alloc::Global;

/// The table, by the very text that SQLite keeps of it.
const TABLE: &str = "CREATE TABLE record (key BLOB PRIMARY KEY, value BLOB NOT NULL) STRICT";

/// What else a database has: all but the indexes that SQLite makes by itself.
const OBJECTS: &str = "SELECT sql FROM sqlite_schema WHERE sql IS NOT NULL";

/// All records, in the order in which they lie in the table: neither the index nor a search by key is asked for.
const ALL: &str = "SELECT key, value FROM record";

/// A run of records. More of them take more memory, and save little.
const RUN: &str = "SELECT key, value FROM record WHERE key >= ?1 ORDER BY key LIMIT 64";

/// Makes the table in a database without any object, and refuses one that has others, before anything is written.
pub fn establish<S: Alter>(conn: &mut Connection<S>) -> Result<(), Error>
    ensures made { HasCleanDisk (state S.Store conn.new) → OnOk result (Establishes S.Store conn.old conn.new) }
    ensures refused { FailsOnlyBy result (FailsToEstablish S.Store conn.old conn.new) }
    ensures clean { HasCleanDisk (state S.Store conn.new) → HasCleanDisk (state S.Store conn.old) }
{
    let objects = conn.query_all(OBJECTS, &[])?;
    match objects.as_slice() {
        [] => make(conn),
        [only] if is_table(only) => Ok(()),
        _ => Err(NOT_A_STORE),
    }
}

fn make<S: Alter>(conn: &mut Connection<S>) -> Result<(), Error>
    ensures made { HasCleanDisk (state S.Store conn.new) → OnOk result ((count : ℕ) × Executes table [] (state S.Store conn.old) (state S.Store conn.new) (Ok count)) }
    ensures refused { HasCleanDisk (state S.Store conn.new) → IfErr result (λ e. Executes table [] (state S.Store conn.old) (state S.Store conn.new) (Err e)) }
    ensures clean { HasCleanDisk (state S.Store conn.new) → HasCleanDisk (state S.Store conn.old) }
{
    conn.execute(TABLE, &[])?;
    Ok(())
}

/// Whether the text of an object is that of the table.
fn is_table(object: &Row) -> bool
    ensures { result ≡ is_text table (column object.now 0) }
{
    match object.get_ref(0) {
        Ok(ValueRef::Text(text)) => text == TABLE.as_bytes(),
        _ => false,
    }
}

/// All records, in the order in which they lie. One row is read at a time, so that records alone stand in memory.
pub fn select_all<S: Alter>(alloc: Global, conn: &mut Connection<S>) -> Result<Vec<Record>, Error>
    ensures read { IfOk result (λ records. AreRead S.Store records.items conn.new (λ rows. SelectsAll S.Store rows conn.old conn.new)) }
    ensures rests { Rests conn.old conn.new }
{
    let mut records = Vec::new(alloc);
    let mut rows = conn.query(ALL, &[])?;
    'rows: for _ in 0..u64::MAX {
        rows.advance()?;
        let Some(row) = rows.get() else {
            return Ok(records);
        };
        records.push(record_of(row)?)?;
    }
    Err(NO_MEMORY)
}

/// The records in ascending order of their keys, and these. They are sorted where they don't lie in that order. Where a
/// key stands twice, this is no store.
pub fn in_order(alloc: Global, records: Vec<Record>) -> Result<(Keys, Vec<Record>), Error>
    ensures succeeds { SucceedsIff result (texts_differ (keys_of records.items)) }
    ensures same { IfOk result (λ ordered. IsPermutation records.items ordered.1.items) }
    ensures keys { IfOk result (λ ordered. ordered.0 ≡ keys_of ordered.1.items) }
{
    if let Some(keys) = Keys::of(alloc, records.as_slice())? {
        return Ok((keys, records));
    }
    let mut sorted = records;
    memory::sort(&mut sorted);
    match Keys::of(alloc, sorted.as_slice())? {
        Some(keys) => Ok((keys, sorted)),
        None => Err(NOT_A_STORE),
    }
}

/// A run of records, from that key on.
pub fn select<S: Alter>(
    alloc: Global,
    conn: &mut Connection<S>,
    from: &Key,
) -> Result<Vec<Record>, Error>
    ensures read { IfOk result (λ records. AreRead S.Store records.items conn.new (λ rows. SelectsRun S.Store from.now rows conn.old conn.new)) }
    ensures refused { FailsOnlyBy result (FailsToSelect S.Store from.now (list_all is_record) conn.old conn.new) }
    ensures only_read { IsOnlyRead S.Store conn.old conn.new }
{
    let rows = select_rows(conn, from)?;
    records_of(alloc, rows.as_slice())
}

fn select_rows<S: Alter>(conn: &mut Connection<S>, from: &Key) -> Result<Vec<Row>, Error>
    ensures answered { IfOk result (λ rows. HasCleanDisk (state S.Store conn.new) → SelectsRun S.Store from.now rows.items conn.old conn.new) }
    ensures refused { HasCleanDisk (state S.Store conn.new) → IfErr result (IsRefusedRun S.Store from.now conn.old conn.new) }
    ensures rests { Rests conn.old conn.new }
    ensures crash { Survives (state S.Store conn.old) (state S.Store conn.new) (CommitsRun S.Store from.now conn.old) }
{
    Ok(conn.query_all(RUN, params![from.as_slice()])?)
}

fn records_of(alloc: Global, rows: &[Row]) -> Result<Vec<Record>, Error>
    ensures succeeds { SucceedsIff result (list_all is_record rows.now) }
    ensures read { IfOk result (λ records. AllZip HasRecord rows.now records.items) }
{
    let mut records = Vec::with_capacity(alloc, rows.len())?;
    for row in rows {
        records.push(record_of(row)?)?;
    }
    Ok(records)
}

/// The record in a row.
fn record_of(row: &Row) -> Result<Record, Error>
    ensures succeeds { SucceedsIff result (is_record row.now) }
    ensures read { IfOk result (HasRecord row.now) }
{
    Ok(Record {
        key: blob(row, 0)?,
        value: blob(row, 1)?,
    })
}

/// The value at that place of a row, which has to be bytes.
fn blob(row: &Row, at: usize) -> Result<Bytes, Error>
    ensures succeeds { SucceedsIff result (is_blob (column row.now at)) }
    ensures read { IfOk result (λ bytes. column row.now at ≡ Blob bytes) }
{
    Ok(Bytes::from_vec(row.get(at)?))
}
