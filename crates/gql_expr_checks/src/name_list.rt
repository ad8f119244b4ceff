//! Names that are looked up, of which the last ones can be taken away.

ghost use Rattle.std.specs.Prelude.{◌≡◌, ℕ, List, [], ◌∷◌, OnOk, length, take};
ghost use Rattle.gql_expr_checks.specs.Repeated.{is_among};
ghost use Rattle.gql_expr_checks.specs.Machinery.NameList.{with_name};

use gql_values3::{OutOfMemory, Text};
use indexmap::IndexSet;
use std::alloc::Global;
use std::marker::Model;

/// Names in the order in which they came, each once. A look-up takes a moment, however many there are.
#[derive(Drop)]
pub struct NameList {
    set: IndexSet<String>,
}

impl Model for NameList {
    ghost use Rattle.std.specs.Prelude.{List, ℕ, map};
    ghost use Rattle.std.specs.String.{string_bytes};

    ghost Value = { List (List ℕ) };

    ghost view = { λ s. map string_bytes s.set.keys };
}

impl NameList {
    /// No names.
    pub fn new(alloc: Global) -> NameList
        ensures { result ≡ [] }
    {
        NameList {
            set: IndexSet::new(alloc),
        }
    }

    /// Whether the name is there.
    pub fn contains(&self, name: &Text) -> bool
        ensures { result ≡ is_among self.now name.now }
    {
        self.set.contains(name.as_str())
    }

    /// How many names there are.
    pub fn len(&self) -> usize
        ensures { result ≡ length self.now }
    {
        self.set.len()
    }

    /// Adds a copy of the name at the end, unless it is there; what an Err leaves is not promised.
    pub fn add(&mut self, alloc: Global, name: &Text) -> Result<(), OutOfMemory>
        ensures names { OnOk result (self.new ≡ with_name self.old name.now) }
        ensures among { OnOk result ((x : List ℕ) → is_among self.new x ≡ is_among (name.now ∷ self.old) x) }
    {
        if !self.set.contains(name.as_str()) {
            self.set.insert(String::from_str(alloc, name.as_str())?)?;
        }
        Ok(())
    }

    /// Keeps so many names, and takes the later ones away.
    pub fn truncate(&mut self, count: usize)
        ensures { self.new ≡ take count self.old }
    {
        self.set.truncate(count);
    }
}
