//! Numbers and texts, read.

ghost use Rattle.std.specs.Prelude.{◌≡◌, List, length, Some, None};
ghost use Rattle.std.specs.Int.{w32, w64};
ghost use Rattle.gql_fields.specs.Machinery.Reading.{GivesFree, Gives, number_at, text_at, utf8_at};

use crate::misread::Misread;
use gql_values3::Text;
use std::alloc::Global;
use std::str;

/// The number of the first four bytes, and the bytes after them.
pub fn u32_at(bytes: &[u8]) -> Result<(u32, &[u8]), Misread>
    ensures { GivesFree (λ x. (x.0, x.1.now)) result (number_at w32 bytes.now) }
{
    if bytes.len() < 4 {
        return Err(Misread::NoForm);
    }
    let (front, rest) = bytes.split_at(4);
    let number = u32::from_be_bytes([front[0], front[1], front[2], front[3]]);
    Ok((number, rest))
}

/// The number of the first eight bytes, and the bytes after them.
pub fn u64_at(bytes: &[u8]) -> Result<(u64, &[u8]), Misread>
    ensures { GivesFree (λ x. (x.0, x.1.now)) result (number_at w64 bytes.now) }
{
    if bytes.len() < 8 {
        return Err(Misread::NoForm);
    }
    let (front, rest) = bytes.split_at(8);
    let number = u64::from_be_bytes([
        front[0], front[1], front[2], front[3], front[4], front[5], front[6], front[7],
    ]);
    Ok((number, rest))
}

/// The text at the front, behind its length, where it lies, and the bytes after it.
#[tactic(auto, unfolding(crate::specs::Machinery::Reading::text_at))]
pub fn str_at(bytes: &[u8]) -> Result<(&str, &[u8]), Misread>
    ensures { GivesFree (λ x. (x.0.now, x.1.now)) result (text_at bytes.now) }
{
    let (len, rest) = u64_at(bytes)?;
    let len = len as usize;
    if rest.len() < len {
        return Err(Misread::NoForm);
    }
    let (front, rest) = rest.split_at(len);
    let text = utf8_of(front)?;
    Ok((text, rest))
}

fn utf8_of(bytes: &[u8]) -> Result<&str, Misread>
    ensures { GivesFree (λ x. x.now) result (utf8_at bytes.now) }
{
    match str::from_utf8(bytes) {
        Ok(text) => Ok(text),
        Err(_) => Err(Misread::NoForm),
    }
}

/// The text at the front, behind its length, and the bytes after it.
pub fn text_of(alloc: Global, bytes: &[u8]) -> Result<(Text, &[u8]), Misread>
    ensures { Gives (λ x. (x.0, x.1.now)) result (text_at bytes.now) }
{
    let (text, rest) = str_at(bytes)?;
    Ok((Text::from_str(alloc, text)?, rest))
}
