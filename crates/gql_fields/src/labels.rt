//! Label sets, read.

ghost use Rattle.std.specs.Prelude.{◌≡◌, List};
ghost use Rattle.gql_values3.specs.Texts.{texts_ascend};
ghost use Rattle.gql_fields.specs.Machinery.Reading.{Gives, items_at, text_at, labels_at};

use crate::bytes::{text_of, u64_at};
use crate::misread::Misread;
use crate::room::with_room;
use gql_values3::{Names, Text, keys_ascend};
use std::alloc::Global;

/// The set of labels at the front, behind their count, and the bytes after it.
#[tactic(auto, unfolding(crate::specs::Machinery::Reading::labels_at))]
pub fn label_set_of(alloc: Global, bytes: &[u8]) -> Result<(Names, &[u8]), Misread>
    ensures { Gives (λ x. (x.0, x.1.now)) result (labels_at bytes.now) }
{
    let (count, rest) = u64_at(bytes)?;
    let (labels, rest) = texts_of(alloc, count, rest)?;
    if !texts_ascend(labels.as_slice()) {
        return Err(Misread::NoForm);
    }
    Ok((labels, rest))
}

// It ends at the first text that is missing, so that a count which is too high costs nothing.
fn texts_of(alloc: Global, count: u64, bytes: &[u8]) -> Result<(Names, &[u8]), Misread>
    ensures { Gives (λ x. (x.0, x.1.now)) result (items_at text_at count bytes.now) }
{
    let mut texts = with_room(alloc, count)?;
    let mut rest = bytes;
    for _ in 0..count {
        let (text, after) = text_of(alloc, rest)?;
        texts.push(text)?;
        rest = after;
    }
    Ok((texts, rest))
}

fn texts_ascend(texts: &[Text]) -> bool
    ensures { result ≡ texts_ascend texts.now }
{
    keys_ascend(texts)
}
