//! That lists, texts and paths grow and are copied with ample memory, and where the first and the last reserved word stand.

use crate::{
    Bytes, EdgeId, List, Names, NodeId, PathValue, Text, Value, keys_ascend, reserved_place,
};
use std::test::Fail;

#[test]
fn places_count_from_0(rt: HostRuntime) {
    for (text, place) in [
        ("abs", Some(0)),
        ("Match", Some(56)),
        ("XOR", Some(105)),
        ("XORS", None),
        ("", None),
    ] {
        assert_eq!(rt; reserved_place(text), place, "{text}");
    }
}

#[test]
fn texts_grow_at_the_end(rt: HostRuntime) -> Result<(), Fail> {
    let mut text = Text::new(rt.alloc());
    for (more, all) in [
        ("", ""),
        ("pay", "pay"),
        ("ments made", "payments made"),
        ("!", "payments made!"),
        ("?", "payments made!?"),
        ("é", "payments made!?é"),
    ] {
        text.push_str(more)?;
        assert_eq!(rt; text.as_str(), all);
    }
    Ok(())
}

#[test]
fn texts_of_strings_are_the_strings(rt: HostRuntime) -> Result<(), Fail> {
    let alloc = rt.alloc();
    for chars in ["", "payments made!", "payments made!?"] {
        let made = Text::from_string(alloc, String::from_str(alloc, chars)?)?;
        assert_eq!(rt; made.try_copy(alloc)?.as_str(), chars);
    }
    Ok(())
}

#[test]
fn names_grow_at_the_end(rt: HostRuntime) -> Result<(), Fail> {
    let alloc = rt.alloc();
    let mut names = Names::new(alloc);
    names.push(Text::new(alloc))?;
    names.extend(Names::new(alloc))?;
    assert_eq!(rt; names.len(), 1);
    Ok(())
}

#[test]
fn names_that_repeat_do_not_ascend(rt: HostRuntime) {
    let alloc = rt.alloc();
    assert!(rt; keys_ascend(&[Text::new(alloc)]));
    assert!(rt; !keys_ascend(&[Text::new(alloc), Text::new(alloc)]));
}

#[test]
fn bytes_grow_at_the_end(rt: HostRuntime) -> Result<(), Fail> {
    let mut bytes = Bytes::new(rt.alloc());
    bytes.append(b"ab")?;
    assert_eq!(rt; bytes.try_copy(rt.alloc())?.as_slice(), b"ab".as_slice());
    Ok(())
}

#[test]
fn lists_grow_at_the_end(rt: HostRuntime) -> Result<(), Fail> {
    let mut list = List::new(rt.alloc());
    list.push(Value::Int(1))?;
    list.extend(List::new(rt.alloc()))?;
    assert_eq!(rt; list.into_vec().len(), 1);
    Ok(())
}

#[test]
fn paths_are_copied(rt: HostRuntime) -> Result<(), Fail> {
    let steps = vec![in rt.alloc(); (EdgeId(1), NodeId(2))]?;
    let path = Value::Path(PathValue::from_steps(NodeId(1), steps));
    let copy = path.try_copy(rt.alloc())?;
    assert!(rt; matches!(&copy, Value::Path(path) if path.steps().len() == 1));
    Ok(())
}
