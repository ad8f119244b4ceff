//! That a small value finds memory; no statement prints a value alone.
use crate::value::put_value;
use gql_values3::{Bytes, Value};
use std::test::Fail;

#[test]
fn a_small_value_finds_memory(rt: HostRuntime) -> Result<(), Fail> {
    let mut out = Bytes::new(rt.alloc());
    put_value(rt.alloc(), &Value::Null, &mut out)?;
    assert_eq!(rt; out.as_slice(), "NULL".as_bytes());
    Ok(())
}
