//! Texts in UTF-8, short ones in their place and long ones in an allocation of their own.

ghost use Rattle.std.specs.Prelude.{◌≡◌, [], ◌++◌, IfOk, OnOk, OnErr, length, string_bytes, ◌==◌};
ghost use Rattle.std.specs.Ordering.{nat_cmp};
ghost use Rattle.std.specs.Cmp.Lexicographic.{slice_cmp};
ghost use Rattle.gql_values3.specs.Machinery.Stored.{stored_bytes};

use crate::memory::OutOfMemory;
use crate::short_text::ShortText;
use std::alloc::Global;
use std::cmp::Ordering;
use std::fmt;
use std::marker::Model;

/// A text, seen as its bytes in UTF-8. Two texts are the same where their bytes are. A short one, as most names are, takes
/// no allocation.
#[derive(Drop)]
pub struct Text {
    alloc: Global,
    stored: Stored,
}

/// Where the bytes of a text lie.
#[derive(Drop)]
enum Stored {
    /// Here.
    Short(ShortText),
    /// In an allocation of their own.
    Long(Box<String>),
}

impl Model for Text {
    ghost use Rattle.std.specs.Prelude.{List, ℕ};
    ghost use Rattle.gql_values3.specs.Machinery.Stored.{stored_bytes};

    ghost Value = { List ℕ };

    ghost view = { λ t. stored_bytes t.stored };
}

impl Stored {
    fn as_str(&self) -> &str
        ensures { result.now ≡ stored_bytes self.now }
    {
        match self {
            Stored::Short(text) => text.as_str(),
            Stored::Long(text) => text.as_str(),
        }
    }

    /// Adds at the end, and goes to an allocation of its own where there is no room.
    fn push_str(&mut self, alloc: Global, more: &str) -> Result<(), OutOfMemory>
        ensures ok { OnOk result (stored_bytes self.new ≡ stored_bytes self.old ++ more.now) }
        ensures err { OnErr result (stored_bytes self.new ≡ stored_bytes self.old) }
    {
        match self {
            Stored::Short(text) => {
                if text.push_str(more) {
                    return Ok(());
                }
                let long = long_text(alloc, text.as_str(), more)?;
                *self = Stored::Long(Box::new(alloc, long)?);
                Ok(())
            }
            Stored::Long(text) => Ok(text.push_str(more)?),
        }
    }
}

/// A text and another behind it, in an allocation of its own.
fn long_text(alloc: Global, text: &str, more: &str) -> Result<String, OutOfMemory>
    ensures { IfOk result (λ long. string_bytes long ≡ text.now ++ more.now) }
{
    let mut long = String::from_str(alloc, text)?;
    long.push_str(more)?;
    Ok(long)
}

impl Text {
    pub fn new(alloc: Global) -> Text
        ensures { result ≡ [] }
    {
        Text {
            alloc,
            stored: Stored::Short(ShortText::new()),
        }
    }

    /// An empty text with room for so many bytes.
    pub fn with_room(alloc: Global, room: usize) -> Result<Text, OutOfMemory>
        ensures { IfOk result (λ made. made ≡ []) }
    {
        let long = String::with_capacity(alloc, room)?;
        Ok(Text {
            alloc,
            stored: Stored::Long(Box::new(alloc, long)?),
        })
    }

    pub fn from_str(alloc: Global, text: &str) -> Result<Text, OutOfMemory>
        ensures { IfOk result (λ made. made ≡ text.now) }
    {
        let mut made = Text::new(alloc);
        made.push_str(text)?;
        Ok(made)
    }

    /// The text of a string, of which a long one isn't copied.
    pub fn from_string(alloc: Global, text: String) -> Result<Text, OutOfMemory>
        ensures { IfOk result (λ made. made ≡ string_bytes text) }
    {
        let mut short = ShortText::new();
        let stored = if short.push_str(text.as_str()) {
            Stored::Short(short)
        } else {
            Stored::Long(Box::new(alloc, text)?)
        };
        Ok(Text { alloc, stored })
    }

    pub fn as_str(&self) -> &str
        ensures { result.now ≡ self.now }
    {
        self.stored.as_str()
    }

    /// Adds at the end.
    pub fn push_str(&mut self, more: &str) -> Result<(), OutOfMemory>
        ensures ok { OnOk result (self.new ≡ self.old ++ more.now) }
        ensures err { OnErr result (self.new ≡ self.old) }
    {
        self.stored.push_str(self.alloc, more)
    }

    /// The number of bytes.
    pub fn len(&self) -> usize
        ensures { result ≡ length self.now }
    {
        self.as_str().len()
    }

    pub fn is_empty(&self) -> bool
        ensures { result ≡ (length self.now == 0) }
    {
        self.as_str().is_empty()
    }

    pub fn try_copy(&self, alloc: Global) -> Result<Text, OutOfMemory>
        ensures { IfOk result (λ copy. copy ≡ self.now) }
    {
        Text::from_str(alloc, self.as_str())
    }

    /// By bytes; a beginning is less.
    pub fn cmp(&self, other: &Text) -> Ordering
        ensures { result ≡ slice_cmp nat_cmp self.now other.now }
    {
        self.as_str().as_bytes().cmp(other.as_str().as_bytes())
    }
}

impl fmt::Debug for Text {
    fn fmt<W: fmt::Write>(&self, f: &mut fmt::Formatter<W>) -> fmt::Result {
        fmt::Debug::fmt(&self.as_str(), f)
    }
}
