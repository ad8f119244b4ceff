//! That a store keeps its records from one keeper to the next, and that records are found in whatever order they are read.

ghost use Rattle.std.specs.Prelude.{◌≡◌, IfOk};

use crate::SqlKeeper;
use gql_ports::{KeepFault, Keeper, Key, Record};
use gql_values3::{Bytes, OutOfMemory};
use std::alloc::Global;
use std::fs;
use std::test::Fail;

const STORE: &str = "gql_keep_sql_test.db";

const RUNS: &str = "gql_keep_sql_runs_test.db";

fn bytes_of(alloc: Global, text: &[u8]) -> Result<Bytes, OutOfMemory>
    ensures { IfOk result (λ bytes. bytes ≡ text.now) }
{
    let mut bytes = Bytes::new(alloc);
    bytes.append(text)?;
    Ok(bytes)
}

fn record(alloc: Global, key: &[u8], value: &[u8]) -> Result<Record, OutOfMemory>
    ensures { IfOk result (λ r. r.key ≡ key.now) }
{
    Ok(Record {
        key: bytes_of(alloc, key)?,
        value: bytes_of(alloc, value)?,
    })
}

/// Puts two records, the greater key first.
fn put_two(alloc: Global, keeper: &mut SqlKeeper<'_>) -> Result<(), KeepFault> {
    let puts = [record(alloc, b"b", b"two")?, record(alloc, b"a", b"one")?];
    keeper.apply(&puts, &[])
}

/// Drops the first of them, and gives the other one another value.
fn drop_one(alloc: Global, keeper: &mut SqlKeeper<'_>) -> Result<(), KeepFault> {
    let puts = [record(alloc, b"b", b"")?];
    let drops = [bytes_of(alloc, b"a")?];
    keeper.apply(&puts, &drops)
}

fn put_one(alloc: Global, keeper: &mut SqlKeeper<'_>, key: u8, value: u8) -> Result<(), KeepFault> {
    let puts = [record(alloc, &[key], &[value])?];
    keeper.apply(&puts, &[])
}

/// More records than two queries read, each with its key as its value.
fn put_many(alloc: Global, keeper: &mut SqlKeeper<'_>) -> Result<(), KeepFault> {
    for key in 0..150u8 {
        put_one(alloc, keeper, key, key)?;
    }
    Ok(())
}

fn is_at(alloc: Global, keeper: &mut SqlKeeper<'_>, index: u64, key: &[u8], value: &[u8]) -> bool {
    if index >= keeper.len() {
        return false;
    }
    match keeper.fetch(alloc, index) {
        Ok(found) => found.key.as_slice() == key && found.value.as_slice() == value,
        Err(_) => false,
    }
}

fn is_as_put(alloc: Global, keeper: &mut SqlKeeper<'_>, key: u8) -> bool {
    is_at(alloc, keeper, u64::from(key), &[key], &[key])
}

fn are_as_put(alloc: Global, keeper: &mut SqlKeeper<'_>) -> bool {
    for key in 0..150u8 {
        if !is_as_put(alloc, keeper, key) {
            return false;
        }
    }
    true
}

fn remove_store(rt: &HostRuntime) {
    let _ = fs::remove_file(rt, STORE);
    let _ = fs::remove_file(rt, "gql_keep_sql_test.db-wal");
}

fn remove_runs(rt: &HostRuntime) {
    let _ = fs::remove_file(rt, RUNS);
    let _ = fs::remove_file(rt, "gql_keep_sql_runs_test.db-wal");
}

#[test]
fn a_second_keeper_finds_what_the_first_one_kept(rt: HostRuntime) -> Result<(), Fail> {
    remove_store(&rt);
    let mut first = SqlKeeper::new(&rt, rt.alloc());
    assert_eq!(rt; first.open(Some(STORE)), Ok(()));
    assert_eq!(rt; put_two(rt.alloc(), &mut first), Ok(()));
    assert!(rt; is_at(rt.alloc(), &mut first, 0, b"a", b"one"));
    assert!(rt; is_at(rt.alloc(), &mut first, 1, b"b", b"two"));

    let mut second = SqlKeeper::new(&rt, rt.alloc());
    assert_eq!(rt; second.open(Some(STORE)), Err(KeepFault::Failed));
    drop(first);
    assert_eq!(rt; second.open(Some(STORE)), Ok(()));
    assert_eq!(rt; second.len(), 2);
    assert!(rt; is_at(rt.alloc(), &mut second, 0, b"a", b"one"));
    assert_eq!(rt; drop_one(rt.alloc(), &mut second), Ok(()));
    assert!(rt; is_at(rt.alloc(), &mut second, 0, b"b", b""));
    assert_eq!(rt; second.close(), Ok(()));

    let mut third = SqlKeeper::new(&rt, rt.alloc());
    assert_eq!(rt; third.open(Some(STORE)), Ok(()));
    assert_eq!(rt; third.len(), 1);
    assert!(rt; is_at(rt.alloc(), &mut third, 0, b"b", b""));
    drop(third);
    remove_store(&rt);
    Ok(())
}

#[test]
fn records_in_memory_stand_in_the_order_of_their_keys(rt: HostRuntime) -> Result<(), Fail> {
    let mut keeper = SqlKeeper::new(&rt, rt.alloc());
    assert_eq!(rt; keeper.open(None), Ok(()));
    assert_eq!(rt; put_one(rt.alloc(), &mut keeper, b'c', b'c'), Ok(()));
    assert_eq!(rt; put_two(rt.alloc(), &mut keeper), Ok(()));
    assert_eq!(rt; keeper.len(), 3);
    assert!(rt; is_at(rt.alloc(), &mut keeper, 0, b"a", b"one"));
    assert!(rt; is_at(rt.alloc(), &mut keeper, 1, b"b", b"two"));
    assert!(rt; is_at(rt.alloc(), &mut keeper, 2, b"c", b"c"));
    Ok(())
}

#[test]
fn records_are_read_in_any_order_and_after_a_write(rt: HostRuntime) -> Result<(), Fail> {
    let mut keeper = SqlKeeper::new(&rt, rt.alloc());
    assert_eq!(rt; keeper.open(None), Ok(()));
    assert_eq!(rt; put_many(rt.alloc(), &mut keeper), Ok(()));
    assert!(rt; are_as_put(rt.alloc(), &mut keeper));
    assert!(rt; are_as_put(rt.alloc(), &mut keeper));
    assert!(rt; is_as_put(rt.alloc(), &mut keeper, 149));
    assert!(rt; is_as_put(rt.alloc(), &mut keeper, 70));
    assert!(rt; is_as_put(rt.alloc(), &mut keeper, 69));
    assert!(rt; is_as_put(rt.alloc(), &mut keeper, 70));
    assert_eq!(rt; put_one(rt.alloc(), &mut keeper, 71, 0), Ok(()));
    assert!(rt; is_at(rt.alloc(), &mut keeper, 71, &[71], &[0]));
    assert!(rt; is_as_put(rt.alloc(), &mut keeper, 72));
    Ok(())
}

#[test]
fn records_of_a_file_are_read_in_any_order_and_after_a_write(rt: HostRuntime) -> Result<(), Fail> {
    remove_runs(&rt);
    let mut keeper = SqlKeeper::new(&rt, rt.alloc());
    assert_eq!(rt; keeper.open(Some(RUNS)), Ok(()));
    assert_eq!(rt; put_many(rt.alloc(), &mut keeper), Ok(()));
    assert!(rt; are_as_put(rt.alloc(), &mut keeper));
    assert!(rt; are_as_put(rt.alloc(), &mut keeper));
    assert!(rt; is_as_put(rt.alloc(), &mut keeper, 149));
    assert!(rt; is_as_put(rt.alloc(), &mut keeper, 70));
    assert!(rt; is_as_put(rt.alloc(), &mut keeper, 69));
    assert!(rt; is_as_put(rt.alloc(), &mut keeper, 70));
    assert_eq!(rt; put_one(rt.alloc(), &mut keeper, 71, 0), Ok(()));
    assert!(rt; is_at(rt.alloc(), &mut keeper, 71, &[71], &[0]));
    assert!(rt; is_as_put(rt.alloc(), &mut keeper, 72));
    drop(keeper);
    remove_runs(&rt);
    Ok(())
}
