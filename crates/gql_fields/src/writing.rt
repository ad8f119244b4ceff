//! Numbers, texts and label sets, written.

ghost use Rattle.std.specs.Prelude.{◌≡◌, ◌<◌, ◌^◌, ◌++◌, IsTrue, OnOk};
ghost use Rattle.std.specs.Int.{w32, w64, to_be_bytes};
ghost use Rattle.std.specs.List.{flat_map, AllByRecursion};
ghost use Rattle.gql_values3.specs.Texts.{texts_ascend};
ghost use Rattle.gql_fields.specs.Spelling.{spelled, labels_spelled};
ghost use Rattle.gql_fields.specs.Kept.{IsText, AreKeptLabels};

use gql_values3::{Bytes, OutOfMemory, Text};

/// Adds a number in four bytes.
pub fn put_u32(out: &mut Bytes, number: u32) -> Result<(), OutOfMemory>
    ensures written { OnOk result (out.new ≡ out.old ++ to_be_bytes w32 number) }
    ensures kept { number < 2 ^ 32 }
{
    out.append(number.to_be_bytes().as_slice())
}

/// Adds a number in eight bytes.
pub fn put_u64(out: &mut Bytes, number: u64) -> Result<(), OutOfMemory>
    ensures written { OnOk result (out.new ≡ out.old ++ to_be_bytes w64 number) }
    ensures kept { number < 2 ^ 64 }
{
    out.append(number.to_be_bytes().as_slice())
}

/// Adds a text behind its length.
pub fn put_text(out: &mut Bytes, text: &str) -> Result<(), OutOfMemory>
    ensures written { OnOk result (out.new ≡ out.old ++ spelled text.now) }
    ensures kept { IsText text.now }
{
    put_u64(out, text.len() as u64)?;
    out.append(text.as_bytes())
}

/// Adds a set of labels behind their count.
pub fn put_labels(out: &mut Bytes, labels: &[Text]) -> Result<(), OutOfMemory>
    requires { IsTrue (texts_ascend labels.now) }
    ensures written { OnOk result (out.new ≡ out.old ++ labels_spelled labels.now) }
    ensures kept { OnOk result (AreKeptLabels labels.now) }
{
    put_u64(out, labels.len() as u64)?;
    put_texts(out, labels)
}

fn put_texts(out: &mut Bytes, texts: &[Text]) -> Result<(), OutOfMemory>
    ensures written { OnOk result (out.new ≡ out.old ++ flat_map spelled texts.now) }
    ensures kept { OnOk result (AllByRecursion IsText texts.now) }
{
    for i in 0..texts.len() {
        put_text(out, texts[i].as_str())?;
    }
    Ok(())
}
