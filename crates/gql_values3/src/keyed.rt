//! What has a key of bytes, and whether keys strictly ascend.

ghost use Rattle.std.specs.Prelude.{◌≡◌, ℕ, List, map};
ghost use Rattle.gql_values3.specs.Texts.{texts_ascend};

use crate::text::Text;
use std::cmp::Ordering;

/// What has a key of bytes: a name, a pair of a name and what it names, a record of a store.
pub trait Keyed {
    /// The bytes of the key.
    ghost key_bytes: { Self → List ℕ };

    fn key(&self) -> &[u8]
        ensures { result.now ≡ key_bytes self.now };
}

impl Keyed for Text {
    ghost key_bytes = { λ t. t };

    fn key(&self) -> &[u8] {
        self.as_str().as_bytes()
    }
}

impl<T> Keyed for (Text, T) {
    ghost key_bytes = { λ p. p.0 };

    fn key(&self) -> &[u8] {
        self.0.as_str().as_bytes()
    }
}

/// Whether the keys strictly ascend by bytes, so that none stands twice. It takes no memory.
pub fn keys_ascend<K: Keyed>(items: &[K]) -> bool
    ensures { result ≡ texts_ascend (map K.key_bytes items.now) }
{
    let Some((first, rest)) = items.split_first() else {
        return true;
    };
    let mut low = first.key();
    for item in rest {
        let next = item.key();
        if low.cmp(next) != Ordering::Less {
            return false;
        }
        low = next;
    }
    true
}
