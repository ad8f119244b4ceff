//! Texts of at most 12 bytes, which take no allocation.

ghost use Rattle.std.specs.Prelude.{◌≡◌, [], ◌++◌, ◌+◌, ◌<◌, ◌≤◌, length, true, false};

use std::marker::Model;
use std::str;

/// How many bytes a short text has at most: with its length and the mark of its sort it takes 16 bytes.
const ROOM: usize = 12;

/// A text of few bytes, in its place.
#[derive(Drop)]
pub(crate) struct ShortText {
    len: u16,
    bytes: [u8; ROOM],
}

impl Model for ShortText {
    ghost use Rattle.std.specs.Prelude.{List, ℕ, ◌≤◌, take, IsUtf8};

    ghost Value = { List ℕ };

    ghost view = { λ s. take s.len s.bytes };

    ghost invariant = { λ s. (s.len ≤ 12) × ∥ IsUtf8 (take s.len s.bytes) ∥₁ };
}

impl ShortText {
    pub(crate) fn new() -> ShortText
        ensures { result ≡ [] }
    {
        ShortText {
            len: 0,
            bytes: [0; ROOM],
        }
    }

    pub(crate) fn as_str(&self) -> &str
        ensures { result.now ≡ self.now }
    {
        // The bytes are those of texts that were added, as the invariant says.
        unsafe { str::from_utf8_unchecked(&self.bytes[..self.len as usize]) }
    }

    /// Adds at the end where there is room, and tells whether there was.
    pub(crate) fn push_str(&mut self, more: &str) -> bool
        ensures added { result ≡ true → self.new ≡ self.old ++ more.now }
        ensures full { result ≡ false → 12 < length self.old + length more.now }
        ensures kept { result ≡ false → self.new ≡ self.old }
    {
        let start = self.len as usize;
        if more.len() > ROOM - start {
            return false;
        }
        let end = start + more.len();
        self.bytes[start..end].copy_from_slice(more.as_bytes());
        self.len = end as u16;
        true
    }
}
