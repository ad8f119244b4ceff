//! Bytes that are no UTF-8, which no session file shows, and that with ample memory the public calls answer.

use crate::{LexFault, lexemes, pieces};
use std::alloc::Global;
use std::test::Fail;

/// How many lexemes some bytes have, or none where one is bad.
fn counted(alloc: Global, bytes: &[u8]) -> Result<Option<usize>, Fail> {
    if bytes.len() > 100 {
        return Err(Fail::from("long"));
    }
    match lexemes(alloc, bytes) {
        Ok(all) => Ok(Some(all.len())),
        Err(LexFault::Bad) => Ok(None),
        Err(LexFault::OutOfMemory) => Err(Fail::from("memory")),
    }
}

#[test]
fn bytes_that_are_no_text_are_bad_outside_comments(rt: HostRuntime) -> Result<(), Fail> {
    assert!(rt; counted(rt.alloc(), b"1 \xFF")?.is_none());
    assert!(rt; counted(rt.alloc(), b"'\xFF'")?.is_none());
    assert_eq!(rt; counted(rt.alloc(), b"//\xFF\n1/*\xFF*/2")?, Some(2));
    Ok(())
}

#[test]
fn a_symbol_ends_a_piece(rt: HostRuntime) -> Result<(), Fail> {
    let all = pieces(rt.alloc(), b"1;';'; 2")?;
    assert_eq!(rt; all.len(), 3);
    Ok(())
}
